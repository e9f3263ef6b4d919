//! The finger list and how it is made.
ghost use Rattle.std.specs.Prelude.{◌≡◌, [], length};
ghost use Rattle.counters.specs.Calls.{places_of, waiting};
ghost use Rattle.finger_list.specs.Views.{Tidy};

use crate::change::clear;
use crate::entry::Entry;
use crate::finger::Fingers;
use heights::height::Height;

// A counter that keeps its distinct heights, each with its number, linked in their order over lent memory; from the first
// begin on it goes to a height from the finger of the call: that of put, of take or of ask. Beside the entries it notes how
// many of them hold a height, how many heights they stand for, the steps since begin, and the fingers, which stand from the
// first begin on.
#[derive(Drop)]
pub struct FingerList<'a, H> {
    pub(crate) entries: &'a mut [Entry<H>],
    pub(crate) used: usize,
    pub(crate) held: usize,
    pub(crate) mileage: u64,
    pub(crate) fingers: Option<Fingers<H>>,
    // The order is no part of this, since it is the interface's `sound`, which a call asks for and keeps.
    ghost tidy: { Tidy entries.now used held fingers },
}

impl<'a, H: Height> FingerList<'a, H> {
    ghost use Rattle.finger_list.specs.Memories.{view_of, Standing};

    // A finger list over lent memory that holds nothing; three entries are kept, so fewer than four leave no place.
    pub fn over(entries: &'a mut [Entry<H>]) -> FingerList<'a, H>
        ensures view { view_of result ≡ record { held = []; places = places_of (length entries.old); mileage = 0; rule = waiting } }
        ensures sound { Standing H.Height.not_higher result }
        ensures lent { result.entries.ghost_name ≡ entries.entry.ghost_name }
    {
        clear(entries);
        FingerList {
            entries,
            used: 0,
            held: 0,
            mileage: 0,
            fingers: None,
        }
    }
}
