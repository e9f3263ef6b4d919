//! The calls of a siting box.
ghost use Rattle.std.specs.Prelude.{◌≡◌, ℕ, ◌≤◌, None, Some, Decides, MatchResult, take};
ghost use Rattle.heights.specs.Meaning.{storage};
ghost use Rattle.siting_box.specs.Boxes.{box_contents};
ghost use Rattle.siting_box.specs.Contents.{contents, radius_of, cells_of, counts_on, Counted};
ghost use Rattle.siting_box.specs.Denials.{denied_by, first_no};
ghost use Rattle.siting_box.specs.Calls.{plan_with, open_questions, OpenLeaves, alter_questions, AlterLeaves, nearest_questions, NearestAnswer, tell_questions, TellAnswer, share_questions, ShareAnswer, sweep_questions, SweepLeaves, total_questions, TotalAnswer};

use super::SitingBox;
use crate::denial::Denial;
use crate::search;
use crate::stored::{check_all, fill};
use crate::told::Told;
use crate::window::{are_counts_equal, extent, share_of, sum_counts};
use alteration::cell::alter_cell;
use counters::counter::Counter;
use grid::{CellRecord, Higher, Place, Plan};
use heights::height::{HeightKind, Unread};
use sweep::row::sweep_row;

impl<'a, H: HeightKind> SitingBox<'a, H> {
    // A box that holds no plan.
    pub fn new(records: &'a mut [CellRecord<H>]) -> SitingBox<'a, H>
        ensures empty { box_contents result ≡ contents None records.old }
        ensures counts { Counted H.Height.not_higher (box_contents result) }
        ensures lent { result.records.ghost_name ≡ records.entry.ghost_name }
    {
        SitingBox {
            records,
            plan: None,
        }
    }

    // The plan, if it has the place.
    fn plan_with(&self, at: Place) -> Result<Plan, Denial<H::Cause>>
        ensures { result ≡ plan_with self.now.plan at }
    {
        let plan = self.plan.ok_or(Denial::NoPlan)?;
        if plan.contains(at) {
            Ok(plan)
        } else {
            Err(Denial::Outside)
        }
    }

    // The radius of the plan's windows, or 0 without a plan.
    fn radius(&self) -> usize
        ensures exact { result ≡ radius_of self.now.plan }
        ensures small { result ≤ 255 }
    {
        self.plan.map_or(0, |plan| plan.radius)
    }

    // The records of the plan's cells; none without a plan.
    fn cells(&self) -> &[CellRecord<H>]
        ensures { result.now ≡ take (cells_of self.now.plan) self.now.records.now }
    {
        &self.records[..self.plan.map_or(0, |plan| plan.width * plan.rows)]
    }

    // Replaces the plan by one of these sizes and stored heights, with no row swept.
    // Three sizes one by one: of the box's calls only this one takes them.
    pub fn open(
        &mut self,
        width: usize,
        rows: usize,
        radius: usize,
        bytes: &[u8],
    ) -> Result<(), Denial<H::Cause>>
        ensures denial { denied_by result ≡ first_no (open_questions (storage H.HeightKind.wide H.HeightKind.reads) (box_contents self.old) width rows radius bytes.now) }
        ensures leaves { OpenLeaves (storage H.HeightKind.wide H.HeightKind.reads) width rows radius bytes.now (box_contents self.old) (box_contents self.new) result }
        ensures counts { Counted H.Height.not_higher (box_contents self.old) → Counted H.Height.not_higher (box_contents self.new) }
        ensures lent { self.new.records.ghost_name ≡ self.old.records.ghost_name }
    {
        let plan = Plan {
            width,
            rows,
            radius,
            swept: 0,
        };
        if !plan.has_lawful_sizes() {
            return Err(Denial::Sizes);
        }
        let cells = width * rows;
        if cells > self.records.len() {
            return Err(Denial::TooFewRecords);
        }
        if bytes.len() != cells * H::stored_width() {
            return Err(Denial::StoredLength);
        }
        check_all::<H>(bytes).map_err(|failure| Denial::Unread {
            cause: failure.cause,
            at: search::place_of(width, failure.index),
        })?;
        fill::<H>(&mut self.records[..cells], bytes);
        self.plan = Some(plan);
        Ok(())
    }

    // Gives a cell another stored height; counts that were the defined ones are so for the new heights.
    pub fn alter(&mut self, at: Place, bytes: &[u8]) -> Result<(), Denial<H::Cause>>
        ensures denial { denied_by result ≡ first_no (alter_questions (storage H.HeightKind.wide H.HeightKind.reads) (box_contents self.old) at.x at.y bytes.now) }
        ensures leaves { AlterLeaves (storage H.HeightKind.wide H.HeightKind.reads) H.Height.not_higher at.x at.y bytes.now (box_contents self.old) (box_contents self.new) result }
        ensures counts { Counted H.Height.not_higher (box_contents self.old) → Counted H.Height.not_higher (box_contents self.new) }
        ensures lent { self.new.records.ghost_name ≡ self.old.records.ghost_name }
    {
        let plan = self.plan_with(at)?;
        let height = H::read(bytes).map_err(|unread| match unread {
            Unread::Length => Denial::StoredLength,
            Unread::Cause(cause) => Denial::Unread { cause, at },
        })?;
        let cells = plan.width * plan.rows;
        alter_cell(&mut self.records[..cells], plan, at, height).unwrap();
        Ok(())
    }

    // Sweeps the next row with a counter, which records the counts of that row, and answers the counter's mileage.
    pub fn sweep<C: Counter<Kind = H>>(&mut self, counter: &mut C) -> Result<u64, Denial<H::Cause>>
        ensures denial { denied_by result ≡ first_no (sweep_questions (box_contents self.old) (C.Counter.view counter.old).places) }
        ensures leaves { SweepLeaves H.Height.not_higher (box_contents self.old) (box_contents self.new) (C.Counter.view counter.old) (C.Counter.view counter.new) result }
        ensures counts { Counted H.Height.not_higher (box_contents self.old) → Counted H.Height.not_higher (box_contents self.new) }
        ensures counter { MatchResult result (λ _. C.Counter.sound counter.new) (λ _. counter.new ≡ counter.old) }
        ensures lent { self.new.records.ghost_name ≡ self.old.records.ghost_name }
    {
        let plan = self.plan.ok_or(Denial::NoPlan)?;
        if plan.swept >= plan.rows {
            return Err(Denial::NoRowLeft);
        }
        let cells = plan.width * plan.rows;
        let mileage = sweep_row(counter, &mut self.records[..cells], plan).map_err(
            |_| Denial::TooFewPlaces,
        )?;
        self.plan = Some(Plan {
            swept: plan.swept + 1,
            ..plan
        });
        Ok(mileage)
    }

    // The count of a cell, and the number of cells in its window.
    pub fn tell(&self, at: Place) -> Result<Told, Denial<H::Cause>>
        ensures denial { denied_by result ≡ first_no (tell_questions (box_contents self.now) at.x at.y) }
        ensures answer { TellAnswer H.Height.not_higher (box_contents self.now) at.x at.y result }
    {
        let plan = self.plan_with(at)?;
        if at.y >= plan.swept {
            return Err(Denial::NotSwept);
        }
        let record = self.records[at.y * plan.width + at.x];
        let columns = extent(at.x, plan.radius, plan.width);
        let rows = extent(at.y, plan.radius, plan.rows);
        Ok(Told {
            count: record.count,
            cells: (columns * rows) as u32,
        })
    }

    // The share of a cell: its count in thousandths of the full window, rounded down.
    pub fn share(&self, at: Place) -> Result<u64, Denial<H::Cause>>
        ensures denial { denied_by result ≡ first_no (share_questions (box_contents self.now) at.x at.y) }
        ensures answer { ShareAnswer H.Height.not_higher (box_contents self.now) at.x at.y result }
    {
        let told = self.tell(at)?;
        Ok(share_of(told.count, self.radius()))
    }

    // The nearest cell that is strictly higher than one, and their squared distance.
    pub fn nearest(&self, at: Place) -> Result<Option<Higher>, Denial<H::Cause>>
        ensures denial { denied_by result ≡ first_no (nearest_questions (box_contents self.now) at.x at.y) }
        ensures answer { NearestAnswer H.Height.not_higher (box_contents self.now) at.x at.y result }
    {
        let plan = self.plan_with(at)?;
        Ok(search::nearest(self.cells(), plan, at))
    }

    // The sum of the counts of all cells, once all rows are swept.
    pub fn total(&self) -> Result<u64, Denial<H::Cause>>
        ensures denial { denied_by result ≡ first_no (total_questions (box_contents self.now)) }
        ensures answer { TotalAnswer H.Height.not_higher (box_contents self.now) result }
    {
        let plan = self.plan.ok_or(Denial::NoPlan)?;
        if plan.swept != plan.rows {
            return Err(Denial::RowsLeft);
        }
        Ok(sum_counts(self.cells()))
    }

    // Whether the counts on record are those of another box, maybe of another kind.
    pub fn has_counts_of<K: HeightKind>(&self, other: &SitingBox<'_, K>) -> bool
        ensures { Decides result (counts_on (box_contents self.now) ≡ counts_on (box_contents other.now)) }
    {
        are_counts_equal(self.cells(), other.cells())
    }
}
