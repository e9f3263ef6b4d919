//! Stored heights of kind W, converted to stored heights of kind F.
ghost use Rattle.std.specs.Prelude.{◌≡◌, ℕ, ◌+◌, ◌*◌, ◌<◌, ◌≤◌, length, take, drop, MatchOption, slice_index};
ghost use Rattle.conversion.specs.Converting.{pattern_at, converted_length, Converted};

use crate::pattern::float_pattern;

// Stores a pattern in four bytes, the most significant first. They are found by their index, since the invariant of a loop over
// `chunks_exact_mut` cannot say what is written.
fn store_pattern(out: &mut [u8], index: usize, pattern: u32)
    requires { index * 4 + 4 ≤ length out.old }
    ensures stored { pattern_at out.new index ≡ pattern }
    ensures before { (k : ℕ) → k < index * 4 → slice_index out.new k ≡ slice_index out.old k }
    ensures after { (k : ℕ) → index * 4 + 4 ≤ k → slice_index out.new k ≡ slice_index out.old k }
{
    out[index * 4..index * 4 + 4].copy_from_slice(&pattern.to_be_bytes());
}

// Converts stored heights of whole metres into the front of `out`, and answers how many bytes that took; `None` where `out` is too short.
// A number and no slice, since a caller may go on to write behind it.
pub fn store_as_float(whole: &[u8], out: &mut [u8]) -> Option<usize>
    ensures { MatchOption result ((length out.old < converted_length (length whole.now)) × (out.new ≡ out.old)) (λ n. (n ≤ length out.old) × Converted whole.now (take n out.new) × (drop n out.new ≡ drop n out.old)) }
{
    let (heights, left_over) = whole.as_chunks::<2>();
    let front = heights.len() * 4;
    let size = front + left_over.len();
    if out.len() < size {
        return None;
    }
    for (index, stored) in heights.iter().enumerate() {
        store_pattern(out, index, float_pattern(i16::from_be_bytes(*stored)));
    }
    out[front..size].fill(0);
    Some(size)
}
