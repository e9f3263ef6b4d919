//! The shift array as a counter. `places` and `mileage` are lines of the finger list's too: a trait for two types would be longer.
ghost use Rattle.shift_array.specs.Memories.{view_of, Sorted};

use crate::array::ShiftArray;
use crate::change::{add, remove};
use counters::counter::{Asked, Counter, Refusal};
use counters::limits::{mileage_after, places_of};
use heights::height::Height;

impl<'a, H: Height> Counter for ShiftArray<'a, H> {
    type Kind = H;

    ghost view = { view_of };

    ghost sound = { Sorted H.Height.not_higher };

    // How many heights it can hold.
    fn places(&self) -> usize {
        places_of(self.entries.len())
    }

    // The sum of the steps told since begin.
    fn mileage(&self) -> u64 {
        self.mileage
    }

    // Lets all heights go; the two heights given do not matter to it.
    fn begin(&mut self, _first: H, _asked: H) {
        self.used = 0;
        self.held = 0;
        self.mileage = 0;
    }

    // Adds a height, if there is a place left: a new one moves the entries above it up by one place.
    fn put(&mut self, height: H) -> Result<u64, Refusal> {
        if self.held >= self.places() {
            return Err(Refusal::Full);
        }
        let change = add(self.entries, self.used, height);
        self.used = change.used;
        self.held += 1;
        self.mileage = mileage_after(self.mileage, change.steps);
        Ok(change.steps)
    }

    // Removes a height, if a level one is held: the last of its level moves the entries above it down by one place.
    fn take(&mut self, height: H) -> Result<u64, Refusal> {
        let change = remove(self.entries, self.used, height).ok_or(Refusal::Missing)?;
        self.used = change.used;
        self.held -= 1;
        self.mileage = mileage_after(self.mileage, change.steps);
        Ok(change.steps)
    }

    // Tells how many held heights are not higher; no entry moves.
    fn ask(&mut self, height: H) -> Asked {
        let count = self.count(height);
        Asked { count, steps: 0 }
    }
}
