//! Numbers that look like chance, the same at each run.

// The number after this one.
pub fn next_number(number: u32) -> u32 {
    number.wrapping_mul(1664525).wrapping_add(1013904223)
}
