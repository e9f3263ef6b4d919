//! One call to a box.
ghost use Rattle.std.specs.Prelude.{◌≡◌};
ghost use Rattle.heights.specs.Meaning.{storage};
ghost use Rattle.siting_box.specs.Boxes.{box_contents};
ghost use Rattle.runs.specs.Calling.{form, brought};
ghost use Rattle.two_boxes.specs.declared.answer.Answer.{Answer};
ghost use Rattle.two_boxes.specs.Running.{denial_answer, answer_of, StepOf};

use crate::answer::Answer;
use counters::counter::Counter;
use grid::Place;
use heights::height::HeightKind;
use runs::Call;
use siting_box::{Denial, SitingBox};

impl<C: Copy> From<Denial<C>> for Answer {
    ghost from_gives = { λ denial answer. answer ≡ denial_answer denial };

    // The answer that tells a denial.
    fn from(denial: Denial<C>) -> Answer {
        let cell = match denial {
            Denial::Unread { at, .. } => Some(at),
            _ => None,
        };
        Answer::Denied {
            number: denial.number(),
            cell,
        }
    }
}

// Carries out a call on a box; a sweep is given the counter.
fn carry_out<H: HeightKind, C: Counter<Kind = H>>(
    siting: &mut SitingBox<'_, H>,
    counter: &mut C,
    call: &Call<'_>,
) -> Result<Answer, Denial<H::Cause>>
    ensures step { StepOf (storage H.HeightKind.wide H.HeightKind.reads) H.Height.not_higher (form call.now) (brought call.now) (box_contents siting.old) (box_contents siting.new) (C.Counter.view counter.old) (C.Counter.view counter.new) (answer_of (λ (answer : Answer). answer) result) }
    ensures lent { siting.new.records.ghost_name ≡ siting.old.records.ghost_name }
{
    match *call {
        Call::Open {
            width,
            rows,
            radius,
            bytes,
        } => siting
            .open(width, rows, radius, bytes)
            .map(|()| Answer::Done),
        Call::Alter { x, y, bytes } => siting.alter(Place { x, y }, bytes).map(|()| Answer::Done),
        Call::Sweep => siting.sweep(counter).map(|steps| Answer::Swept { steps }),
        Call::Tell { x, y } => siting.tell(Place { x, y }).map(|told| Answer::Told {
            count: told.count,
            cells: told.cells,
        }),
        Call::Share { x, y } => siting
            .share(Place { x, y })
            .map(|thousandths| Answer::Share { thousandths }),
        Call::Nearest { x, y } => siting
            .nearest(Place { x, y })
            .map(|found| Answer::Nearest { found }),
        Call::Total => siting.total().map(|sum| Answer::Total { sum }),
    }
}

// Carries out a call on a box, and tells its answer or its denial.
pub fn call_box<H: HeightKind, C: Counter<Kind = H>>(
    siting: &mut SitingBox<'_, H>,
    counter: &mut C,
    call: &Call<'_>,
) -> Answer
    ensures step { StepOf (storage H.HeightKind.wide H.HeightKind.reads) H.Height.not_higher (form call.now) (brought call.now) (box_contents siting.old) (box_contents siting.new) (C.Counter.view counter.old) (C.Counter.view counter.new) result }
    ensures lent { siting.new.records.ghost_name ≡ siting.old.records.ghost_name }
{
    carry_out(siting, counter, call).unwrap_or_else(Answer::from)
}
