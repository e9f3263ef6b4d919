//! The turn of one cell of the row.
ghost use Rattle.std.specs.Prelude.{◌≡◌, ◌*◌, ◌<◌, ◌≤◌, length};
ghost use Rattle.counters.specs.Held.{Same};
ghost use Rattle.sweep.specs.Inner.{terrain, Turned};
ghost use Rattle.sweep.specs.Sweeping.{places_needed};
ghost use Rattle.sweep.specs.Walk.{columns_heights, taken_before, put_before};

use crate::band::{Band, Strip};
use crate::column::{Change, change_columns};
use counters::counter::Counter;
use grid::{CellRecord, near};
use heights::height::Height;

// The turn of x: takes the columns that fall behind, puts those that come near, asks the height and records the count.
pub(crate) fn take_turn<H: Height, C: Counter<Kind = H>>(
    counter: &mut C,
    records: &mut [CellRecord<H>],
    band: Band,
    x: usize,
)
    requires sound { C.Counter.sound counter.old }
    requires whole { length records.old ≡ band.width * band.rows }
    requires inside { x < band.width }
    requires places { places_needed band.width band.rows band.radius ≤ (C.Counter.view counter.old).places }
    requires held { Same H.Height.not_higher (C.Counter.view counter.old).held (columns_heights (terrain band records.old) band.radius band.y (taken_before band.radius x) (put_before band.width band.radius x)) }
    ensures sound { C.Counter.sound counter.new }
    ensures turned { Turned H.Height.not_higher (terrain band records.old) band.radius band.y x records.old records.new (C.Counter.view counter.old) (C.Counter.view counter.new) }
{
    let reach = near(x, band.radius, band.width);
    let taken = band.taken_before(x);
    let put = band.put_before(x);
    let strip = Strip {
        records: &*records,
        band,
    };
    change_columns(counter, &strip, taken, reach.start, Change::Take);
    change_columns(counter, &strip, put, reach.end, Change::Put);
    let answer = counter.ask(strip.height_at(x, band.y));
    records[band.y * band.width + x].count = answer.count;
}
