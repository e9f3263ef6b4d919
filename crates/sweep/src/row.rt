//! The sweep of one row.
ghost use Rattle.std.specs.Prelude.{◌≡◌, ◌*◌, ◌<◌, ◌≤◌, length, is_ok, MatchResult};
ghost use Rattle.sweep.specs.Inner.{terrain};
ghost use Rattle.sweep.specs.Sweeping.{places_needed, can_sweep, terrain_of, Swept};

use crate::band::{Band, Strip};
use crate::turn::take_turn;
use counters::counter::Counter;
use grid::{CellRecord, Plan, Unfit};
use heights::height::Height;

// Whether a counter of so many places can sweep the next row of a plan whose records are so many.
fn can_sweep(places: usize, fitted: usize, plan: Plan) -> bool
    ensures { result ≡ can_sweep places fitted plan.width plan.rows plan.radius plan.swept }
{
    plan.has_lawful_sizes()
        && plan.swept < plan.rows
        && fitted == plan.width * plan.rows
        && plan.width.min(2 * plan.radius + 1) * plan.rows.min(2 * plan.radius + 1) <= places
}

// Sweeps the row of a band and answers the mileage.
fn sweep_band<H: Height, C: Counter<Kind = H>>(
    counter: &mut C,
    records: &mut [CellRecord<H>],
    band: Band,
) -> u64
    requires whole { length records.old ≡ band.width * band.rows }
    requires places { places_needed band.width band.rows band.radius ≤ (C.Counter.view counter.old).places }
    ensures sound { C.Counter.sound counter.new }
    ensures swept { Swept H.Height.not_higher (terrain band records.old) band.radius band.y records.old records.new (C.Counter.view counter.old) (C.Counter.view counter.new) result }
{
    let strip = Strip {
        records: &*records,
        band,
    };
    let first = strip.height_at(0, band.top());
    let asked = strip.height_at(0, band.y);
    counter.begin(first, asked);
    // Over columns, which are no indices of a slice.
    for x in 0..band.width {
        take_turn(counter, records, band, x);
    }
    counter.mileage()
}

// Sweeps the next row of a plan whose cells have these records, and answers the counter's mileage; nothing is done where
// that cannot be.
pub fn sweep_row<H: Height, C: Counter<Kind = H>>(
    counter: &mut C,
    records: &mut [CellRecord<H>],
    plan: Plan,
) -> Result<u64, Unfit>
    ensures fits { is_ok result ≡ can_sweep (C.Counter.view counter.old).places (length records.old) plan.width plan.rows plan.radius plan.swept }
    ensures leaves { MatchResult result
        (λ mileage. (C.Counter.sound counter.new) × Swept H.Height.not_higher (terrain_of plan.width plan.rows records.old) plan.radius plan.swept records.old records.new (C.Counter.view counter.old) (C.Counter.view counter.new) mileage)
        (λ _. (records.new ≡ records.old) × (counter.new ≡ counter.old)) }
{
    if !can_sweep(counter.places(), records.len(), plan) {
        return Err(Unfit);
    }
    Ok(sweep_band(
        counter,
        records,
        Band {
            width: plan.width,
            rows: plan.rows,
            radius: plan.radius,
            y: plan.swept,
        },
    ))
}
