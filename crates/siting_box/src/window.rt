//! The cells of a window, and the counts on record.
ghost use Rattle.std.specs.Prelude.{◌≡◌, ℕ, ◌+◌, ◌-◌, ◌<◌, ◌≤◌, min, map, length, Decides, sum as total, slice_index_or};
ghost use Rattle.grid.specs.Window.{share_of};

use grid::{CellRecord, near};

// How many of so many columns, or rows, are at most the radius away from one of them.
pub(crate) fn extent(at: usize, radius: usize, size: usize) -> usize
    requires small { (size ≤ 1024) × (radius ≤ 255) }
    requires inside { at < size }
    ensures exact { result ≡ min size (at + radius + 1) - (at - radius) }
    ensures bound { result ≤ 1024 }
{
    near(at, radius, size).len()
}

// A count in thousandths of the cells of a full window, rounded down.
pub(crate) fn share_of(count: u32, radius: usize) -> u64
    requires { radius ≤ 255 }
    ensures { result ≡ share_of count radius }
{
    let side = 2 * radius as u64 + 1;
    1000 * u64::from(count) / (side * side)
}

// The sum of the counts of records.
pub(crate) fn sum_counts<H: Copy>(records: &[CellRecord<H>]) -> u64
    requires { length records.now ≤ 1048576 }
    ensures { result ≡ total (map (λ c. c.count) records.now) }
{
    // A `for` loop with a running u64 sum, which the project asks for.
    let mut sum: u64 = 0;
    for record in records {
        sum += u64::from(record.count);
    }
    sum
}

// Whether records have the same counts, one by one.
pub(crate) fn are_counts_equal<H: Copy, K: Copy>(
    left: &[CellRecord<H>],
    right: &[CellRecord<K>],
) -> bool
    ensures { Decides result (map (λ c. c.count) left.now ≡ map (λ c. c.count) right.now) }
{
    left.len() == right.len()
        && left
            .iter()
            .zip(right)
            .all(|(one, other)| one.count == other.count)
}
