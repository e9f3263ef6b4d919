//! The alteration of one cell's height.
ghost use Rattle.std.specs.Prelude.{◌≡◌, length, is_ok, MatchResult};
ghost use Rattle.alteration.specs.Altering.{can_alter, Altered};
ghost use Rattle.alteration.specs.Parts.{Alterable};

use crate::count::count_rows;
use crate::mend::mend_rows;
use crate::part::Part;
use grid::{CellRecord, Place, Plan, Unfit};
use heights::height::Height;

// Whether the cell at a place of a plan can be altered, where the records are so many.
fn can_alter(fitted: usize, plan: Plan, at: Place) -> bool
    ensures { result ≡ can_alter fitted plan.width plan.rows plan.radius plan.swept at.x at.y }
{
    plan.has_lawful_sizes()
        && plan.swept <= plan.rows
        && plan.contains(at)
        && fitted == plan.width * plan.rows
}

// Gives the cell at a place another height and mends the counts around it.
fn alter_inside<H: Height>(records: &mut [CellRecord<H>], plan: Plan, at: Place, height: H)
    requires { Alterable (length records.old) plan at }
    ensures { Altered H.Height.not_higher plan.width plan.rows plan.radius plan.swept at.x at.y height records.old records.new }
{
    let index = at.y * plan.width + at.x;
    let part = Part::around(plan, at);
    let old = records[index].height;
    mend_rows(
        records,
        Part {
            bottom: part.bottom.min(plan.swept),
            ..part
        },
        old,
        height,
    );
    records[index].height = height;
    if at.y < plan.swept {
        let count = count_rows(records, part, height);
        records[index].count = count;
    }
}

// Gives the cell at a place of a plan, whose cells have these records, another height and mends the counts around it;
// nothing is done where that cannot be.
pub fn alter_cell<H: Height>(
    records: &mut [CellRecord<H>],
    plan: Plan,
    at: Place,
    height: H,
) -> Result<(), Unfit>
    ensures fits { is_ok result ≡ can_alter (length records.old) plan.width plan.rows plan.radius plan.swept at.x at.y }
    ensures leaves { MatchResult result
        (λ _. Altered H.Height.not_higher plan.width plan.rows plan.radius plan.swept at.x at.y height records.old records.new)
        (λ _. records.new ≡ records.old) }
{
    if !can_alter(records.len(), plan, at) {
        return Err(Unfit);
    }
    alter_inside(records, plan, at, height);
    Ok(())
}
