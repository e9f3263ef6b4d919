//! The search for the nearest higher cell.
ghost use Rattle.std.specs.Prelude.{◌≡◌, ℕ, ◌*◌, ◌^◌, ◌<◌, ◌≤◌, map, length, slice_index_or};
ghost use Rattle.grid.specs.Terrain.{heights_of};
ghost use Rattle.grid.specs.Nearest.{Nearest, squared_distance};
ghost use Rattle.siting_box.specs.Searching.{place_of, nearer_of};

use grid::{CellRecord, Higher, Place, Plan};
use heights::height::Height;

// The place of the cell at an index of reading order.
pub(crate) fn place_of(width: usize, index: usize) -> Place
    requires { 0 < width }
    ensures { result ≡ place_of width index }
{
    Place {
        x: index % width,
        y: index / width,
    }
}

// The squared distance of two places.
fn squared_distance(from: Place, to: Place) -> u64
    requires from_small { (from.x < 2 ^ 20) × (from.y < 2 ^ 20) }
    requires to_small { (to.x < 2 ^ 20) × (to.y < 2 ^ 20) }
    ensures { result ≡ squared_distance from to }
{
    let columns = from.x.abs_diff(to.x) as u64;
    let rows = from.y.abs_diff(to.y) as u64;
    columns * columns + rows * rows
}

// The nearer of the best so far and a cell that comes later in reading order.
fn nearer(best: Option<Higher>, later: Higher) -> Option<Higher>
    ensures { result ≡ nearer_of best later }
{
    match best {
        Some(found) if found.distance <= later.distance => best,
        _ => Some(later),
    }
}

// The nearest cell of a grid that is strictly higher than the one at a place.
// It is a loop, since a chain with `min_by_key`, or with `fold`, takes a fifth more time or more.
pub(crate) fn nearest<H: Height>(
    records: &[CellRecord<H>],
    plan: Plan,
    from: Place,
) -> Option<Higher>
    requires whole { length records.now ≡ plan.width * plan.rows }
    requires sizes { (plan.width ≤ 1024) × (plan.rows ≤ 1024) }
    requires inside { (from.x < plan.width) × (from.y < plan.rows) }
    ensures { Nearest H.Height.not_higher (record { width = plan.width; rows = plan.rows; heights = heights_of records.now }) from result }
{
    let own = records[from.y * plan.width + from.x].height;
    let mut best = None;
    for (index, record) in records.iter().enumerate() {
        if !record.height.is_not_higher(own) {
            let place = place_of(plan.width, index);
            let distance = squared_distance(from, place);
            best = nearer(best, Higher { place, distance });
        }
    }
    best
}
