//! The finger list as a counter. `places` and `mileage` are lines of the shift array's too: a trait for two memories would be longer.
ghost use Rattle.std.specs.Prelude.{◌*◌, ◌≤◌};
ghost use Rattle.finger_list.specs.Hands.{link_of, Stood};
ghost use Rattle.finger_list.specs.Memories.{view_of, Standing};
ghost use Rattle.finger_list.specs.Walking.{Arrived};

use crate::change::{add, clear, remove};
use crate::finger::{Finger, Fingers};
use crate::list::FingerList;
use crate::walk::{Links, Way};
use counters::counter::{Asked, Counter, Refusal};
use counters::limits::{mileage_after, places_of};
use heights::height::Height;

impl<H: Height> FingerList<'_, H> {
    // The way from a finger to a height. A method of its own, since a walk over the field of a `&mut self` is not covered by the borrow
    // checker.
    fn way_to(&self, from: Option<Finger<H>>, height: H) -> Way
        requires { link_of from ≤ self.now.used }
        ensures inside { result.link ≤ self.now.used }
        ensures few { result.steps ≤ self.now.used }
        ensures light { result.passed ≤ self.now.used * 1048576 }
        ensures walked { Standing H.Height.not_higher self.now → Stood H.Height.not_higher self.now.entries.now self.now.used from → Arrived H.Height.not_higher self.now.entries.now self.now.used height result from }
    {
        let links = Links {
            entries: self.entries,
            used: self.used,
        };
        links.walk(from, height)
    }
}

impl<'a, H: Height> Counter for FingerList<'a, H> {
    type Kind = H;

    ghost view = { view_of };

    ghost sound = { Standing H.Height.not_higher };

    // How many heights it can hold.
    fn places(&self) -> usize {
        places_of(self.entries.len())
    }

    // The sum of the steps told since begin.
    fn mileage(&self) -> u64 {
        self.mileage
    }

    // Empties the list; the put and take fingers stand at the first height, the ask finger at the second.
    fn begin(&mut self, first: H, asked: H) {
        clear(self.entries);
        self.used = 0;
        self.held = 0;
        self.mileage = 0;
        let start = Finger {
            height: first,
            link: 0,
        };
        self.fingers = Some(Fingers {
            put: start,
            take: start,
            ask: Finger {
                height: asked,
                ..start
            },
            count: 0,
        });
    }

    // Adds a height, to which the put finger moves.
    fn put(&mut self, height: H) -> Result<u64, Refusal> {
        if self.held >= self.places() {
            return Err(Refusal::Full);
        }
        let from = self.fingers.map(|fingers| fingers.put);
        let way = self.way_to(from, height);
        let spot = add(self.entries, self.used, way.link, height);
        self.used = spot.used;
        self.held += 1;
        let steps = way.steps as u64;
        self.mileage = mileage_after(self.mileage, steps);
        self.fingers = self
            .fingers
            .map(|fingers| fingers.after_put(way.link, spot.link, height));
        Ok(steps)
    }

    // Removes a height, to which the take finger moves.
    fn take(&mut self, height: H) -> Result<u64, Refusal> {
        let from = self.fingers.map(|fingers| fingers.take);
        let way = self.way_to(from, height);
        let used = self.used;
        let spot = remove(self.entries, used, way.link, height).ok_or(Refusal::Missing)?;
        self.used = spot.used;
        self.held -= 1;
        let held = self.held;
        let steps = way.steps as u64;
        self.mileage = mileage_after(self.mileage, steps);
        self.fingers = self.fingers.map(|fingers| fingers.after_take(
            way.link, spot, used, height, held,
        ));
        Ok(steps)
    }

    // Tells how many held heights are not higher than one, to which the ask finger moves.
    fn ask(&mut self, height: H) -> Asked {
        let from = self.fingers.map(|fingers| fingers.ask);
        let way = self.way_to(from, height);
        let counted = self.fingers.map_or(
            way.passed,
            |fingers| fingers.counted_up(way.passed, height),
        );
        let count = counted.min(self.held);
        let steps = way.steps as u64;
        self.mileage = mileage_after(self.mileage, steps);
        self.fingers = self
            .fingers
            .map(|fingers| fingers.after_ask(way.link, height, count));
        Asked {
            count: count as u32,
            steps,
        }
    }
}
