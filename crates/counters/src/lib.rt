//! Counters: what takes heights in, lets them go, and tells how many are not higher than one.
#![tactic(auto)]

pub mod counter;
pub mod limits;
