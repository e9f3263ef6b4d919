//! Answers that are alike.
ghost use Rattle.std.specs.Prelude.{◌≡◌, Decides};
ghost use Rattle.two_boxes.specs.Agreeing.{less_steps};

use crate::answer::Answer;

// An answer less the steps.
fn less_steps(answer: Answer) -> Answer
    ensures { result ≡ less_steps answer }
{
    match answer {
        Answer::Swept { .. } => Answer::Swept { steps: 0 },
        other => other,
    }
}

// Whether two answers are equal less the steps.
pub fn are_alike(left: Answer, right: Answer) -> bool
    ensures { Decides result (less_steps left ≡ less_steps right) }
{
    less_steps(left) == less_steps(right)
}
