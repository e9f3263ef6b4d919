//! The law of two boxes: what two boxes share that matching lists of calls come to.
#![tactic(auto)]

pub mod answer;
pub mod carrying;
pub mod comparing;
pub mod comparison;
pub mod likeness;

pub use answer::Answer;
pub use comparison::Comparison;
