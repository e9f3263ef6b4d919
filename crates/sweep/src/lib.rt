//! The sweep of one row of a height grid with any counter.
#![tactic(auto)]

mod band;
mod column;
pub mod row;
mod turn;
