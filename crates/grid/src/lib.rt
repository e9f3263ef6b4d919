//! Grids of heights: places, plans and cell records.
#![tactic(auto)]

ghost use Rattle.std.specs.Prelude.{◌≡◌, ◌+◌, ◌-◌, ◌&&◌, min, nat_lt};
ghost use Rattle.grid.specs.Sizes.{lawful_sizes};

use std::ops::Range;

// The longest side of a grid.
pub const LONGEST_SIDE: usize = 1024;
// The largest radius of a window.
pub const LARGEST_RADIUS: usize = 255;

// A place of a grid: its column from the west and its row from the north, both from 0.
#[derive(Clone, Copy, PartialEq, Eq, Debug)]
pub struct Place {
    pub x: usize,
    pub y: usize,
}

// The sizes of a plan: columns, rows, the radius of its windows, and how many rows are swept.
#[derive(Clone, Copy, PartialEq, Eq, Debug)]
pub struct Plan {
    pub width: usize,
    pub rows: usize,
    pub radius: usize,
    pub swept: usize,
}

impl Plan {
    // Whether a plan may have these sizes.
    pub fn has_lawful_sizes(self) -> bool
        ensures { result ≡ lawful_sizes self.width self.rows self.radius }
    {
        (1..=LONGEST_SIDE).contains(&self.width)
            && (1..=LONGEST_SIDE).contains(&self.rows)
            && (1..=LARGEST_RADIUS).contains(&self.radius)
    }

    // Whether a place is one of the plan's cells.
    pub fn contains(self, at: Place) -> bool
        ensures { result ≡ (nat_lt at.x self.width && nat_lt at.y self.rows) }
    {
        at.x < self.width && at.y < self.rows
    }
}

// Of so many columns, or rows, those at most a radius away from one of them.
pub fn near(at: usize, radius: usize, size: usize) -> Range<usize>
    ensures start { result.start ≡ at - radius }
    ensures end { result.end ≡ min size (at + radius + 1) }
{
    at.saturating_sub(radius)..size.min(at.saturating_add(radius).saturating_add(1))
}

// The record of a cell: its height and its count. No `==`: equal heights are not the same as level ones.
#[derive(Clone, Copy)]
pub struct CellRecord<H> {
    pub height: H,
    pub count: u32,
}

// A cell that is strictly higher than another, and their squared distance.
#[derive(Clone, Copy, PartialEq, Eq, Debug)]
pub struct Higher {
    pub place: Place,
    pub distance: u64,
}

// Sizes, a place and records that do not fit one another.
#[derive(Clone, Copy, PartialEq, Eq, Debug)]
pub struct Unfit;
