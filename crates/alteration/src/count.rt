//! The count of the cells of a part that are not higher than a height.
ghost use Rattle.std.specs.Prelude.{◌≡◌, ◌*◌, ◌<◌, ◌≤◌, length};
ghost use Rattle.heights.specs.Tally.{tally};
ghost use Rattle.alteration.specs.Parts.{indices_of, Lawful};
ghost use Rattle.alteration.specs.Mending.{not_above};

use crate::part::Part;
use grid::CellRecord;
use heights::height::Height;

// How many cells of a row are not higher than a height.
// It is a loop, since `filter(..).count()` is not compiled to vectors: alterations took a quarter more time with it.
fn count_row<H: Height>(cells: &[CellRecord<H>], height: H) -> u32
    requires { length cells.now ≤ 1024 }
    ensures exact { result ≡ tally (λ c. H.Height.not_higher c.height height) cells.now }
    ensures few { result ≤ 1024 }
{
    let mut count = 0;
    for cell in cells {
        if cell.height.is_not_higher(height) {
            count += 1;
        }
    }
    count
}

// How many cells of a part are not higher than a height.
pub(crate) fn count_rows<H: Height>(records: &[CellRecord<H>], part: Part, height: H) -> u32
    requires lawful { Lawful part }
    requires rows { (0 < part.width) × (part.top ≤ part.bottom) }
    requires fitted { part.bottom * part.width ≤ length records.now }
    ensures { result ≡ tally (not_above H.Height.not_higher records.now height) (indices_of part) }
{
    let mut count = 0;
    for row in records[part.top * part.width..part.bottom * part.width].chunks_exact(part.width) {
        count += count_row(&row[part.left..part.right], height);
    }
    count
}
