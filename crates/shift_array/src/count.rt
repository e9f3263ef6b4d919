//! How many held heights are not higher than one.
ghost use Rattle.std.specs.Prelude.{◌≡◌, ◌^◌, ◌<◌, length};
ghost use Rattle.counters.specs.Held.{up_to};
ghost use Rattle.shift_array.specs.Entries.{heights, Climbing};

use crate::entry::Entry;
use heights::height::Height;

// Adds up the numbers of the entries before the first that is higher.
pub(crate) fn count_up_to<H: Height>(entries: &[Entry<H>], height: H) -> u32
    requires { length (heights entries.now) < 2 ^ 32 }
    ensures { Climbing H.Height.not_higher entries.now → result ≡ up_to H.Height.not_higher (heights entries.now) height }
{
    entries
        .iter()
        .take_while(|entry| entry.height.is_not_higher(height))
        .map(|entry| entry.number)
        .sum()
}
