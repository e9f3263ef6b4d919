//! The console's text: lines of bytes to commands, hexadecimal digits to bytes, answers to lines of bytes.
#![tactic(auto)]

mod answers;
mod commands;
mod fields;
mod hexadecimal;
mod parsing;
mod rendering;
mod text_buffer;

pub use answers::Answer;
pub use commands::{Command, CounterLetter, KindLetter, NoLetter};
pub use hexadecimal::unhex;
pub use parsing::parse;
pub use rendering::{AnswerLine, render};
pub use text_buffer::{Full, TextBuffer};
