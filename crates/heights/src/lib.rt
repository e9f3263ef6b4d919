//! Height kinds: what the bytes of a stored height read as, and which height is not higher than which.
#![tactic(auto)]

pub mod finite;
pub mod float;
pub mod height;
pub mod layer;
pub mod whole;
