//! The band of a row: the rows that its windows reach.
ghost use Rattle.std.specs.Prelude.{◌≡◌, ◌*◌, ◌<◌, ◌≤◌, length};

use grid::{CellRecord, near};

// The rows at most a radius away from row y of a grid of so many columns and rows.
#[derive(Clone, Copy)]
pub(crate) struct Band {
    pub(crate) width: usize,
    pub(crate) rows: usize,
    pub(crate) radius: usize,
    pub(crate) y: usize,
    ghost some_columns: { 0 < width },
    ghost columns: { width ≤ 1024 },
    ghost height: { rows ≤ 1024 },
    ghost reach: { radius ≤ 255 },
    ghost row: { y < rows },
}

impl Band {
    ghost use Rattle.std.specs.Prelude.{◌≡◌, ◌<◌};
    ghost use Rattle.sweep.specs.Walk.{band_top, band_rows, walked_row, taken_before, put_before};

    // Its first row.
    pub(crate) fn top(self) -> usize
        ensures { result ≡ band_top self.radius self.y }
    {
        near(self.y, self.radius, self.rows).start
    }

    // How many rows it has.
    pub(crate) fn depth(self) -> usize
        ensures { result ≡ band_rows self.rows self.radius self.y }
    {
        near(self.y, self.radius, self.rows).len()
    }

    // The row of the j-th cell walked of column x: even columns are walked southward, odd ones northward.
    pub(crate) fn walked_row(self, x: usize, j: usize) -> usize
        requires { j < band_rows self.rows self.radius self.y }
        ensures exact { result ≡ walked_row (band_top self.radius self.y) (band_rows self.rows self.radius self.y) x j }
        ensures inside { result < self.rows }
    {
        if x % 2 == 0 {
            self.top() + j
        } else {
            self.top() + (self.depth() - 1 - j)
        }
    }

    // How many columns were taken before the turn of x.
    pub(crate) fn taken_before(self, x: usize) -> usize
        ensures { result ≡ taken_before self.radius x }
    {
        x.saturating_sub(1).saturating_sub(self.radius)
    }

    // How many columns were put before the turn of x.
    pub(crate) fn put_before(self, x: usize) -> usize
        requires { x < self.width }
        ensures { result ≡ put_before self.width self.radius x }
    {
        if x == 0 {
            0
        } else {
            self.width.min(x + self.radius)
        }
    }
}

// The records of a grid's cells, and a band of it.
#[derive(Drop)]
pub(crate) struct Strip<'a, H> {
    pub(crate) records: &'a [CellRecord<H>],
    pub(crate) band: Band,
    ghost whole: { length records.now ≡ band.width * band.rows },
}

impl<'a, H: Copy> Strip<'a, H> {
    ghost use Rattle.std.specs.Prelude.{◌≡◌, ◌<◌, Some};
    ghost use Rattle.grid.specs.Terrain.{height_at};
    ghost use Rattle.sweep.specs.Inner.{terrain};

    // The height of the cell at column x and row y.
    pub(crate) fn height_at(&self, x: usize, y: usize) -> H
        requires { (x < self.now.band.width) × (y < self.now.band.rows) }
        ensures { height_at (terrain self.now.band self.now.records.now) (record { x = x; y = y }) ≡ Some result }
    {
        self.records[y * self.band.width + x].height
    }
}
