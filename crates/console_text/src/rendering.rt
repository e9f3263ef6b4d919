//! Answers as lines of bytes.

ghost use Rattle.std.specs.Prelude.{◌≡◌, ◌≤◌, [], ◌∷◌, ◌++◌, length};
ghost use Rattle.console_text.specs.Answers.{rendered};

use crate::answers::Answer;
use crate::text_buffer::TextBuffer;

// The line that an answer is written into.
pub type AnswerLine = TextBuffer<96>;

// What nearest answers where no cell is higher.
const NO_HIGHER_GROUND: &[u8; 16] = b"no higher ground";

// The words of an answer, with no line end; by no `write!`, since std does not say when one fails, and no proof was found that none does.
fn words(answer: Answer) -> AnswerLine
    ensures text { result ≡ rendered answer }
    ensures room { length result ≤ 95 }
{
    let mut line = AnswerLine::new();
    match answer {
        Answer::Done => line.push_text(b"ok"),
        Answer::Steps(steps) => {
            line.push_text(b"ok");
            line.push_fields(&[steps]);
        }
        Answer::Told { count, cells } => {
            line.push_number(count);
            line.push_fields(&[cells]);
        }
        Answer::Share(share) => line.push_number(share),
        Answer::Nearest(Some(higher)) => {
            line.push_number(higher.place.x as u64);
            line.push_fields(&[higher.place.y as u64, higher.distance]);
        }
        Answer::Nearest(None) => line.push_text(NO_HIGHER_GROUND),
        Answer::Denied { number } => {
            line.push_text(b"no");
            line.push_fields(&[number]);
        }
        Answer::DeniedAt { number, x, y } => {
            line.push_text(b"no");
            line.push_fields(&[number, x, y]);
        }
    }
    line
}

// The line that says an answer, with its line end.
pub fn render(answer: Answer) -> AnswerLine
    ensures { result ≡ rendered answer ++ 10 ∷ [] }
{
    let mut line = words(answer);
    line.push_text(b"\n");
    line
}
