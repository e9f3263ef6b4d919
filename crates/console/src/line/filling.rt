//! Filling a line and reading it.
ghost use Rattle.std.specs.Prelude.{◌≡◌, ◌≤◌, [], Some, IfSome, length};
ghost use Rattle.std.specs.Option.{option_map};
ghost use Rattle.console.specs.Lines.{with_byte};

use super::Line;
use console_text::TextBuffer;

impl Line {
    // A line of which no byte has come.
    pub fn new() -> Line
        ensures { result ≡ Some [] }
    {
        Line {
            text: Some(TextBuffer::new()),
        }
    }

    // One byte more of the line.
    pub fn add(&mut self, byte: u8)
        ensures { self.new ≡ with_byte self.old byte }
    {
        if let Some(text) = &mut self.text {
            if text.push(byte).is_err() {
                self.text = None;
            }
        }
    }

    // Another line begins.
    pub fn clear(&mut self)
        ensures { self.new ≡ Some [] }
    {
        match &mut self.text {
            Some(text) => text.clear(),
            None => *self = Line::new(),
        }
    }

    // The bytes of the line, unless there were too many.
    pub fn text(&self) -> Option<&[u8]>
        ensures text { option_map (λ x. x.now) result ≡ self.now }
        ensures short { IfSome result (λ x. length x.now ≤ 9000) }
    {
        self.text.as_ref().map(TextBuffer::as_bytes)
    }
}
