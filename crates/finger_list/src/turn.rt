//! What a call does to the fingers, where they stand.
ghost use Rattle.std.specs.Prelude.{◌≡◌, ◌^◌, ◌<◌, ◌≤◌};
ghost use Rattle.finger_list.specs.Hands.{after_put, after_take, after_ask, counted_up};

use crate::change::Spot;
use crate::finger::{Finger, Fingers};
use heights::height::Height;

impl<H: Height> Fingers<H> {
    // The fingers after a put of a height that stood at the link `from` and now stands at the link `to`.
    pub(crate) fn after_put(self, from: usize, to: usize, height: H) -> Fingers<H>
        requires { self.count < 2 ^ 62 }
        ensures { result ≡ after_put H.Height.not_higher self from to height }
    {
        let take = self.take.followed(from, to, height);
        let ask = self.ask.followed(from, to, height);
        let more = height.is_not_higher(ask.height);
        Fingers {
            put: Finger { height, link: to },
            take,
            ask,
            count: if more { self.count + 1 } else { self.count },
        }
    }

    // The fingers after a take that removed one height of the entry `at`; `held` heights are left.
    pub(crate) fn after_take(
        self,
        at: usize,
        spot: Spot,
        used: usize,
        height: H,
        held: usize,
    ) -> Fingers<H>
        ensures { result ≡ after_take H.Height.not_higher self at spot used height held }
    {
        let put = self.put.left(at, spot, used);
        let take = Finger { height, link: at }.left(at, spot, used);
        let ask = self.ask.left(at, spot, used);
        let less = height.is_not_higher(ask.height);
        let count = if less {
            self.count.saturating_sub(1)
        } else {
            self.count
        };
        Fingers {
            put,
            take,
            ask,
            count: count.min(held),
        }
    }

    // The fingers after an ask of a height that stands at a link, and that so many held heights are not higher than.
    pub(crate) fn after_ask(self, link: usize, height: H, count: usize) -> Fingers<H>
        ensures { result ≡ after_ask self link height count }
    {
        Fingers {
            ask: Finger { height, link },
            count,
            ..self
        }
    }

    // How many held heights are not higher than the given one, when the ask finger passed so many on its way to it.
    pub(crate) fn counted_up(self, passed: usize, height: H) -> usize
        requires small { self.count ≤ 2 ^ 62 }
        requires light { passed ≤ 2 ^ 62 }
        ensures { result ≡ counted_up H.Height.not_higher self passed height }
    {
        if self.ask.height.is_not_higher(height) {
            self.count + passed
        } else {
            self.count.saturating_sub(passed)
        }
    }
}
