//! A part of a grid: the cells in reach of a cell.
ghost use Rattle.std.specs.Prelude.{◌≡◌, ◌≤◌};
ghost use Rattle.alteration.specs.Parts.{part_around};

use grid::{Place, Plan, near};

// The cells in the columns left..right and the rows top..bottom of a grid of so many columns.
// Its bounds are no ghost fields: `part_around` and `InPart` speak of parts as plain numbers, and two functions ask for them.
#[derive(Clone, Copy)]
pub(crate) struct Part {
    pub(crate) width: usize,
    pub(crate) left: usize,
    pub(crate) right: usize,
    pub(crate) top: usize,
    pub(crate) bottom: usize,
}

impl Part {
    // The part in reach of a place.
    pub(crate) fn around(plan: Plan, at: Place) -> Part
        requires sizes { plan.radius ≤ 255 }
        requires place { (at.x ≤ 1024) × (at.y ≤ 1024) }
        ensures { result ≡ part_around plan at }
    {
        let columns = near(at.x, plan.radius, plan.width);
        let rows = near(at.y, plan.radius, plan.rows);
        Part {
            width: plan.width,
            left: columns.start,
            right: columns.end,
            top: rows.start,
            bottom: rows.end,
        }
    }
}
