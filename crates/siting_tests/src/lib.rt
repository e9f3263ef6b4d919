//! Tests of height kinds, counters, box and console.
#![tactic(auto)]

#[cfg(test)]
mod alterations;
#[cfg(test)]
mod chance;
#[cfg(test)]
mod counter_calls;
#[cfg(test)]
mod denials;
#[cfg(test)]
mod float_sessions;
#[cfg(test)]
mod readings;
#[cfg(test)]
mod talk;
#[cfg(test)]
mod whole_sessions;
