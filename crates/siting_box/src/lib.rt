//! The siting box: one plan over lent cell records, and the calls on it.
#![tactic(auto)]

mod boxes;
mod denial;
mod search;
mod stored;
mod told;
mod window;

pub use boxes::SitingBox;
pub use denial::Denial;
pub use told::Told;
