//! The mending of counts where a cell of one height becomes one of another.
ghost use Rattle.std.specs.Prelude.{◌≡◌, ◌*◌, ◌≤◌, map, length};
ghost use Rattle.alteration.specs.Parts.{InPart, Lawful};
ghost use Rattle.alteration.specs.Mending.{mended_count, mended, Mended};

use crate::part::Part;
use grid::CellRecord;
use heights::height::Height;

// The count of a cell of height own, once a cell in its window has the height new in place of old.
fn mended_count<H: Height>(count: u32, own: H, old: H, new: H) -> u32
    ensures { result ≡ mended_count (H.Height.not_higher new own) (H.Height.not_higher old own) count }
{
    let gained = if new.is_not_higher(own) {
        count.saturating_add(1)
    } else {
        count
    };
    if old.is_not_higher(own) {
        gained.saturating_sub(1)
    } else {
        gained
    }
}

// Mends the counts of the cells of a row.
fn mend_row<H: Height>(cells: &mut [CellRecord<H>], old: H, new: H)
    ensures { cells.new ≡ map (mended H.Height.not_higher old new) cells.old }
{
    for cell in cells {
        cell.count = mended_count(cell.count, cell.height, old, new);
    }
}

// Mends the counts of the cells of a part.
// The rows are found by their number, since the invariant of a loop over `chunks_exact_mut` cannot say what is written.
pub(crate) fn mend_rows<H: Height>(records: &mut [CellRecord<H>], part: Part, old: H, new: H)
    requires lawful { Lawful part }
    requires fitted { part.bottom * part.width ≤ length records.old }
    ensures { Mended H.Height.not_higher old new (InPart part) records.old records.new }
{
    for y in part.top..part.bottom {
        let row = y * part.width;
        mend_row(&mut records[row + part.left..row + part.right], old, new);
    }
}
