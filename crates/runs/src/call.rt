//! A call to a siting box, as a value.

// One of the seven calls, with its numbers and the bytes that it brings. Columns and rows are numbers of the call and no `Place`, since
// calls match by their numbers, and definitions name each.
#[derive(Clone, Copy, PartialEq, Eq, Debug)]
pub enum Call<'a> {
    // a plan of these sizes, and its stored heights
    Open {
        width: usize,
        rows: usize,
        radius: usize,
        bytes: &'a [u8],
    },
    // another stored height for the cell in column x of row y
    Alter {
        x: usize,
        y: usize,
        bytes: &'a [u8],
    },
    // the next row
    Sweep,
    // the count of a cell
    Tell {
        x: usize,
        y: usize,
    },
    // the share of a cell
    Share {
        x: usize,
        y: usize,
    },
    // the nearest cell that is higher
    Nearest {
        x: usize,
        y: usize,
    },
    // the sum of all counts
    Total,
}
