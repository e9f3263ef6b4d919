//! A finger list: a counter that keeps its distinct heights in a linked list over lent memory, and goes to them from three fingers.
#![tactic(auto)]

mod change;
pub mod counter;
pub mod entry;
mod finger;
mod links;
pub mod list;
mod turn;
mod walk;
