//! The line that is being read.
mod filling;

use console_text::TextBuffer;
use std::marker::Model;

// A line has at most so many bytes.
const LONGEST_LINE: usize = 9000;

// The bytes of the line so far, or nothing once there were too many.
#[derive(Drop)]
pub struct Line {
    text: Option<TextBuffer<LONGEST_LINE>>,
}

impl Model for Line {
    ghost use Rattle.std.specs.Prelude.{ℕ, List, Option};

    ghost Value = { Option (List ℕ) };

    ghost view = { λ line. line.text };
}
