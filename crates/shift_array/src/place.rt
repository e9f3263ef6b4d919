//! Where a height stands or belongs among entries.
ghost use Rattle.shift_array.specs.Places.{Placed};

use crate::entry::Entry;
use heights::height::Height;

// The first entry that is not lower than the height: `Ok` where it is level, else `Err`, where the height belongs. The entries
// may stand in any order, so none is passed over. `partition_point` promises a place only among entries in order, which their
// type does not say.
pub(crate) fn find_place<H: Height>(entries: &[Entry<H>], height: H) -> Result<usize, usize>
    ensures { Placed H.Height.not_higher height entries.now result }
{
    let first = entries
        .iter()
        .position(|entry| height.is_not_higher(entry.height));
    match first {
        Some(at) if entries[at].height.is_not_higher(height) => Ok(at),
        Some(at) => Err(at),
        None => Err(entries.len()),
    }
}
