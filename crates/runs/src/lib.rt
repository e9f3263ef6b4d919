//! Lists of calls to siting boxes, and what two boxes share that are called alike.
#![tactic(auto)]

pub mod call;
pub mod length;

pub use call::Call;
