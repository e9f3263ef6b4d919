//! A layer over any counter that tells an ask at the height last asked from memory.
#![tactic(auto)]

pub mod counter;
pub mod layer;
mod remembered;
