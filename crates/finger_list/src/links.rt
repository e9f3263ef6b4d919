//! The links between entries. Entry 0 is the end of the list: it holds no height, and its links lead to the lowest and the highest entry.
//! No struct is made of slice and number here, as `Links` is for a walk, which only reads: between two writes of links they are half
//! made, and a type that holds a `&mut` keeps its ghost fields at each write.
ghost use Rattle.std.specs.Prelude.{◌≡◌, ◌+◌, ◌<◌, ◌≤◌, length};
ghost use Rattle.finger_list.specs.Linking.{Linked};
ghost use Rattle.finger_list.specs.Writing.{with_next, with_prev, by_name, Inserted, Unlinked, Half, Relocated};

use crate::entry::Entry;
use heights::height::Height;

// A link, when the entry `from` becomes the entry `to`.
pub(crate) fn renamed(link: usize, from: usize, to: usize) -> usize
    ensures { result ≡ by_name from to link }
{
    if link == from { to } else { link }
}

// Makes `next` the link up of an entry; a function, since of such writes in a row by hand the check left bounds and the list open.
pub(crate) fn set_next<H: Height>(entries: &mut [Entry<H>], at: usize, next: usize)
    requires { at < length entries.old }
    ensures { entries.new ≡ with_next entries.old at next }
{
    entries[at].next = next;
}

// Makes `prev` the link down of an entry.
pub(crate) fn set_prev<H: Height>(entries: &mut [Entry<H>], at: usize, prev: usize)
    requires { at < length entries.old }
    ensures { entries.new ≡ with_prev entries.old at prev }
{
    entries[at].prev = prev;
}

// Puts a height above the entry `after`, into the first entry that is not used.
pub(crate) fn insert<H: Height>(entries: &mut [Entry<H>], used: usize, after: usize, height: H)
    requires linked { Linked entries.old used }
    requires within { after ≤ used }
    requires room { used + 1 < length entries.old }
    requires few { used < 1048576 }
    ensures linked { Linked entries.new (used + 1) }
    ensures inserted { Inserted entries.old entries.new used after height }
{
    let at = used + 1;
    let next = entries[after].next;
    entries[at] = Entry {
        height,
        number: 1,
        next,
        prev: after,
    };
    set_next(entries, after, at);
    set_prev(entries, next, at);
}

// Closes the list round an entry.
pub(crate) fn unlink<H: Height>(entries: &mut [Entry<H>], used: usize, at: usize)
    requires linked { Linked entries.old used }
    requires above { 0 < at }
    requires within { at ≤ used }
    ensures { Unlinked entries.old entries.new at }
{
    let entry = entries[at];
    set_next(entries, entry.prev, entry.next);
    set_prev(entries, entry.next, entry.prev);
}

// Moves the entry `from` to the entry `to`, which is not linked.
pub(crate) fn relocate<H: Height>(entries: &mut [Entry<H>], from: usize, to: usize)
    requires half { Half entries.old from to }
    requires above { 0 < to }
    requires below { to < from }
    ensures { Relocated entries.old entries.new from to }
{
    let entry = entries[from];
    let next = renamed(entry.next, from, to);
    let prev = renamed(entry.prev, from, to);
    entries[to] = Entry {
        next,
        prev,
        ..entry
    };
    set_next(entries, prev, to);
    set_prev(entries, next, to);
}
