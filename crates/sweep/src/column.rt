//! The columns of a band, put or taken as they are walked.
ghost use Rattle.std.specs.Prelude.{◌≡◌, ◌<◌, ◌≤◌, [], ◌∷◌, map};
ghost use Rattle.counters.specs.Calls.{Ran};
ghost use Rattle.sweep.specs.Inner.{terrain, call_of, Ready};
ghost use Rattle.sweep.specs.Walk.{column_heights, columns_heights};

use crate::band::Strip;
use counters::counter::Counter;
use heights::height::Height;

// How a height changes what a counter holds.
// A closure is no plainer here: each clause would have to say what its calls do, where `call_of change` does.
#[derive(Clone, Copy)]
pub(crate) enum Change {
    Put,
    Take,
}

// Puts or takes one height.
// A struct round a sound counter is no plainer: each other clause would still name what the counter holds before and after.
pub(crate) fn change_one<H: Height, C: Counter<Kind = H>>(
    counter: &mut C,
    height: H,
    change: Change,
)
    requires sound { C.Counter.sound counter.old }
    requires ready { Ready H.Height.not_higher (C.Counter.view counter.old) change (height ∷ []) }
    ensures sound { C.Counter.sound counter.new }
    ensures ran { Ran H.Height.not_higher (C.Counter.view counter.old) (call_of change height ∷ []) (C.Counter.view counter.new) }
{
    match change {
        Change::Put => {
            let _ = counter.put(height);
        }
        Change::Take => {
            let _ = counter.take(height);
        }
    }
}

// Puts or takes the heights of a column of the band, as they are walked.
pub(crate) fn change_column<H: Height, C: Counter<Kind = H>>(
    counter: &mut C,
    strip: &Strip<'_, H>,
    x: usize,
    change: Change,
)
    requires sound { C.Counter.sound counter.old }
    requires inside { x < strip.now.band.width }
    requires ready { Ready H.Height.not_higher (C.Counter.view counter.old) change (column_heights (terrain strip.now.band strip.now.records.now) strip.now.band.radius strip.now.band.y x) }
    ensures sound { C.Counter.sound counter.new }
    ensures ran { Ran H.Height.not_higher (C.Counter.view counter.old) (map (call_of change) (column_heights (terrain strip.now.band strip.now.records.now) strip.now.band.radius strip.now.band.y x)) (C.Counter.view counter.new) }
{
    // Over the steps of the walk, which are no indices of a slice.
    for j in 0..strip.band.depth() {
        let y = strip.band.walked_row(x, j);
        let height = strip.height_at(x, y);
        change_one(counter, height, change);
    }
}

// Puts or takes the columns of the band from one to just before another, as they are walked.
pub(crate) fn change_columns<H: Height, C: Counter<Kind = H>>(
    counter: &mut C,
    strip: &Strip<'_, H>,
    start: usize,
    end: usize,
    change: Change,
)
    requires sound { C.Counter.sound counter.old }
    requires inside { (start ≤ end) × (end ≤ strip.now.band.width) }
    requires ready { Ready H.Height.not_higher (C.Counter.view counter.old) change (columns_heights (terrain strip.now.band strip.now.records.now) strip.now.band.radius strip.now.band.y start end) }
    ensures sound { C.Counter.sound counter.new }
    ensures ran { Ran H.Height.not_higher (C.Counter.view counter.old) (map (call_of change) (columns_heights (terrain strip.now.band strip.now.records.now) strip.now.band.radius strip.now.band.y start end)) (C.Counter.view counter.new) }
{
    // Over columns, which are no indices of a slice.
    for x in start..end {
        change_column(counter, strip, x, change);
    }
}
