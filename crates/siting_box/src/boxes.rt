//! The siting box.
ghost use Rattle.std.specs.Prelude.{◌≡◌, true, length};
ghost use Rattle.siting_box.specs.Contents.{well_fitted};

use grid::{CellRecord, Plan};

mod calls;

// A siting box over lent cell records. Its plan, if it holds one, has lawful sizes and fits into the records.
// That the counts are the defined ones is a promise of the calls and no ghost field: it is not true between the writing of a
// row's counts and the setting of the plan.
#[derive(Drop)]
pub struct SitingBox<'a, H> {
    records: &'a mut [CellRecord<H>],
    plan: Option<Plan>,
    ghost fitted: { well_fitted plan (length records.now) ≡ true },
}
