//! One height more or less in the list.
ghost use Rattle.std.specs.Prelude.{◌+◌, ◌<◌, ◌≤◌, length};
ghost use Rattle.finger_list.specs.Entries.{held_in, Positive};
ghost use Rattle.finger_list.specs.Linking.{Linked};
ghost use Rattle.finger_list.specs.Changes.{Grown, EntryGone, Removed};

use crate::entry::Entry;
use crate::links::{insert, relocate, renamed, unlink};
use heights::height::Height;

// How many entries are used, and the link at which a height now stands.
#[derive(Clone, Copy)]
pub(crate) struct Spot {
    pub(crate) used: usize,
    pub(crate) link: usize,
}

// Leaves no entry in use; the end of the list, if there is room for it, leads to itself.
pub(crate) fn clear<H: Height>(entries: &mut [Entry<H>])
    ensures { Linked entries.new 0 }
{
    if let Some(end) = entries.first_mut() {
        end.number = 0;
        end.next = 0;
        end.prev = 0;
    }
}

// Adds a height that stands at the link `from`: one more of a level entry, or a new entry above that one.
pub(crate) fn add<H: Height>(entries: &mut [Entry<H>], used: usize, from: usize, height: H) -> Spot
    requires linked { Linked entries.old used }
    requires within { from ≤ used }
    requires room { used + 1 < length entries.old }
    requires few { used < 1048576 }
    requires small { length (held_in entries.old used) < 1048576 }
    ensures { Grown H.Height.not_higher entries.old entries.new used from height result }
{
    if from != 0 && height.is_not_higher(entries[from].height) {
        entries[from].number += 1;
        return Spot { used, link: from };
    }
    insert(entries, used, from, height);
    Spot {
        used: used + 1,
        link: used + 1,
    }
}

// Takes an entry out of the list, and moves the last used entry into its memory.
pub(crate) fn remove_entry<H: Height>(entries: &mut [Entry<H>], used: usize, at: usize)
    requires linked { Linked entries.old used }
    requires above { 0 < at }
    requires within { at ≤ used }
    ensures { EntryGone H.Height.not_higher entries.old entries.new used at }
{
    unlink(entries, used, at);
    if at < used {
        relocate(entries, used, at);
    }
}

// Removes one height level with the given one, which stands at the link `at`: one less of the entry, or the entry with it.
pub(crate) fn remove<H: Height>(
    entries: &mut [Entry<H>],
    used: usize,
    at: usize,
    height: H,
) -> Option<Spot>
    requires linked { Linked entries.old used }
    requires within { at ≤ used }
    requires positive { Positive entries.old used }
    ensures { Removed H.Height.not_higher entries.old entries.new used at height result }
{
    if at == 0 || !height.is_not_higher(entries[at].height) {
        return None;
    }
    if entries[at].number > 1 {
        entries[at].number -= 1;
        return Some(Spot { used, link: at });
    }
    let link = renamed(entries[at].prev, at, 0);
    remove_entry(entries, used, at);
    Some(Spot {
        used: used - 1,
        link,
    })
}
