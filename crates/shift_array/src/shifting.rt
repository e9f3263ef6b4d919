//! Entries moved by one place.
ghost use Rattle.std.specs.Prelude.{◌≡◌, ◌+◌, ◌-◌, ◌<◌, ◌≤◌, length, take};
ghost use Rattle.std.specs.List.{insert, remove};

use crate::entry::Entry;
use heights::height::Height;

// Moves the used entries from a place on up by one, and writes an entry there.
pub(crate) fn insert_at<H: Height>(
    entries: &mut [Entry<H>],
    at: usize,
    used: usize,
    entry: Entry<H>,
)
    requires within { at ≤ used }
    requires room { used < length entries.old }
    ensures { take (used + 1) entries.new ≡ insert (take used entries.old) at entry }
{
    entries.copy_within(at..used, at + 1);
    entries[at] = entry;
}

// Moves the used entries above a place down by one.
pub(crate) fn remove_at<H: Height>(entries: &mut [Entry<H>], at: usize, used: usize)
    requires within { at < used }
    requires inside { used ≤ length entries.old }
    ensures { take (used - 1) entries.new ≡ remove (take used entries.old) at }
{
    entries.copy_within(at + 1..used, at);
}
