//! The answers that the console gives.

use grid::Higher;

// One answer; the number of a denial is told by whoever denies, and only written here. Two variants of a denial, as lines have two.
#[derive(Clone, Copy, PartialEq, Eq, Debug)]
pub enum Answer {
    Done,
    Steps(u64),
    Told { count: u64, cells: u64 },
    Share(u64),
    Nearest(Option<Higher>),
    Denied { number: u64 },
    DeniedAt { number: u64, x: u64, y: u64 },
}
