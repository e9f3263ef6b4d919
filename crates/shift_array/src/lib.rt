//! A shift array: a counter that keeps its distinct heights in order in one array over lent memory.
#![tactic(auto)]

pub mod array;
mod change;
mod count;
pub mod counter;
pub mod entry;
mod place;
mod shifting;
