//! The limits of a counter's places and mileage.
ghost use Rattle.std.specs.Prelude.{◌≡◌};
ghost use Rattle.counters.specs.Calls.{places_of, mileage_after};

// How many entries a counter keeps for its own use, so that they hold no height.
const KEPT: usize = 3;
// The most places that a counter has.
const MOST_PLACES: usize = 1_048_576;
// The mileage that no sum of steps passes.
const MOST_MILEAGE: u64 = 1 << 62;

// The places of a memory of so many entries.
pub fn places_of(entries: usize) -> usize
    ensures { result ≡ places_of entries }
{
    entries.saturating_sub(KEPT).min(MOST_PLACES)
}

// The mileage after more steps.
pub fn mileage_after(mileage: u64, steps: u64) -> u64
    ensures { result ≡ mileage_after mileage steps }
{
    mileage.saturating_add(steps).min(MOST_MILEAGE)
}
