//! Tests of lists of calls that come to two boxes.
#![tactic(auto)]

#[cfg(test)]
mod agreeing;
#[cfg(test)]
mod bench;
#[cfg(test)]
mod differing;
