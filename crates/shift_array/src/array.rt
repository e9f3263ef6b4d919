//! The shift array and how it is made.
ghost use Rattle.std.specs.Prelude.{◌≡◌};
ghost use Rattle.shift_array.specs.Views.{Tidy};

use crate::count::count_up_to;
use crate::entry::Entry;
use heights::height::Height;

// A counter that keeps its distinct heights in order from the lowest, each with its number, in one array over lent memory: the
// entries, how many of them are used, how many heights they stand for, and the steps since begin. The entries are lent and stay
// as many, so their used part is a number beside them.
#[derive(Drop)]
pub struct ShiftArray<'a, H> {
    pub(crate) entries: &'a mut [Entry<H>],
    pub(crate) used: usize,
    pub(crate) held: usize,
    pub(crate) mileage: u64,
    // The order of the entries is no part of it: that is the interface's `sound`, which a call asks for and keeps.
    ghost tidy: { Tidy entries.now used held mileage },
}

impl<'a, H: Height> ShiftArray<'a, H> {
    ghost use Rattle.std.specs.Prelude.{[], length};
    ghost use Rattle.counters.specs.Held.{up_to};
    ghost use Rattle.counters.specs.Calls.{places_of, shifting};
    ghost use Rattle.shift_array.specs.Memories.{view_of, Sorted};

    // A shift array over lent memory that holds nothing; three entries are kept, so fewer than four leave no place.
    pub fn over(entries: &'a mut [Entry<H>]) -> ShiftArray<'a, H>
        ensures view { view_of result ≡ record { held = []; places = places_of (length entries.old); mileage = 0; rule = shifting } }
        ensures sound { Sorted H.Height.not_higher result }
        ensures contents { result.entries.now ≡ entries.old }
        ensures lent { result.entries.ghost_name ≡ entries.entry.ghost_name }
    {
        ShiftArray {
            entries,
            used: 0,
            held: 0,
            mileage: 0,
        }
    }

    // How many held heights are not higher than the given one.
    pub(crate) fn count(&self, height: H) -> u32
        ensures { Sorted H.Height.not_higher self.now → result ≡ up_to H.Height.not_higher (view_of self.now).held height }
    {
        count_up_to(&self.entries[..self.used], height)
    }
}
