//! What a box answers to a call, as a value.
use grid::{Higher, Place};

// The answer to one of the seven calls, or its denial.
#[derive(Clone, Copy, PartialEq, Eq, Debug)]
pub enum Answer {
    // the number of the question that was answered no, and the cell whose stored height does not read, if that is why; numbers,
    // since denials at two kinds are of two types, with causes of their own
    Denied { number: u8, cell: Option<Place> },
    // to an accepted open or alter
    Done,
    // to an accepted sweep: the steps of its row
    Swept { steps: u64 },
    // to an accepted tell
    Told { count: u32, cells: u32 },
    // to an accepted share
    Share { thousandths: u64 },
    // to an accepted nearest
    Nearest { found: Option<Higher> },
    // to an accepted total
    Total { sum: u64 },
}
