//! The console: lines of bytes in, answers out.
#![tactic(auto)]

pub mod line;
pub mod session;
