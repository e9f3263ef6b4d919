//! The fingers of a list.
ghost use Rattle.std.specs.Prelude.{◌≡◌};
ghost use Rattle.finger_list.specs.Hands.{followed, left};

use crate::change::Spot;
use crate::links::renamed;
use heights::height::Height;

// The height at which a finger stands, and the link of the last entry that is not higher.
#[derive(Clone, Copy)]
pub(crate) struct Finger<H> {
    pub(crate) height: H,
    pub(crate) link: usize,
}

// The three fingers, and how many held heights are not higher than that of ask.
#[derive(Clone, Copy)]
pub(crate) struct Fingers<H> {
    pub(crate) put: Finger<H>,
    pub(crate) take: Finger<H>,
    pub(crate) ask: Finger<H>,
    pub(crate) count: usize,
}

impl<H: Height> Finger<H> {
    // The finger, when a height that stood at the link `from` came to stand at the link `to`.
    pub(crate) fn followed(self, from: usize, to: usize, height: H) -> Finger<H>
        ensures { result ≡ followed H.Height.not_higher self from to height }
    {
        if self.link == from && height.is_not_higher(self.height) {
            Finger { link: to, ..self }
        } else {
            self
        }
    }

    // The finger, when one height of the entry `at` was removed.
    pub(crate) fn left(self, at: usize, spot: Spot, used: usize) -> Finger<H>
        ensures { result ≡ left self at spot used }
    {
        if spot.used == used {
            return self;
        }
        let link = renamed(self.link, at, spot.link);
        Finger {
            link: renamed(link, used, at),
            ..self
        }
    }
}
