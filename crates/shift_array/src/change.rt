//! One height more or less among the used entries.
ghost use Rattle.std.specs.Prelude.{◌+◌, ◌^◌, ◌<◌, ◌≤◌, length, take};
ghost use Rattle.shift_array.specs.Entries.{heights, Positive};
ghost use Rattle.shift_array.specs.Changes.{Grown, Removed};

use crate::entry::Entry;
use crate::place::find_place;
use crate::shifting::{insert_at, remove_at};
use heights::height::Height;

// What a change leaves: how many entries are used, and how many moved.
#[derive(Clone, Copy)]
pub(crate) struct Change {
    pub(crate) used: usize,
    pub(crate) steps: u64,
}

// Adds a height to the used entries. Their number is given beside the slice, since one entry more may be needed.
pub(crate) fn add<H: Height>(entries: &mut [Entry<H>], used: usize, height: H) -> Change
    requires room { used < length entries.old }
    requires few { length (heights (take used entries.old)) < 2 ^ 31 }
    ensures within { result.used ≤ used + 1 }
    ensures grown { Grown H.Height.not_higher (take used entries.old) (take result.used entries.new) height result.steps }
{
    match find_place(&entries[..used], height) {
        Ok(at) => {
            entries[at].number += 1;
            Change { used, steps: 0 }
        }
        Err(at) => {
            insert_at(entries, at, used, Entry { height, number: 1 });
            Change {
                used: used + 1,
                steps: (used - at) as u64,
            }
        }
    }
}

// Removes one height level with the given one from the used entries, if there is one.
pub(crate) fn remove<H: Height>(entries: &mut [Entry<H>], used: usize, height: H) -> Option<Change>
    requires inside { used ≤ length entries.old }
    requires positive { Positive (take used entries.old) }
    ensures { Removed H.Height.not_higher entries.old entries.new used height result }
{
    let at = find_place(&entries[..used], height).ok()?;
    if entries[at].number > 1 {
        entries[at].number -= 1;
        return Some(Change { used, steps: 0 });
    }
    remove_at(entries, at, used);
    Some(Change {
        used: used - 1,
        steps: (used - 1 - at) as u64,
    })
}
