//! The alteration of one cell's height in a grid, with the counts around it mended.
#![tactic(auto)]

pub mod cell;
mod count;
mod mend;
mod part;
