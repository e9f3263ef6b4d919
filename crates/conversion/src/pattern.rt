//! Whole metres as a binary32 pattern.
ghost use Rattle.std.specs.Prelude.{◌<◌};
ghost use Rattle.conversion.specs.Metres.{Normal, IsMetres};

use heights::finite::FRACTIONS;
use heights::float::SIGN;

// The exponent bits of a number whose significand counts ones.
const ONES: u32 = 150;
// Where a significand has its highest bit.
const HIGHEST: u32 = 23;

// The pattern of a magnitude other than 0: its significand is doubled until its highest bit is in place.
#[tactic(auto, using(crate::proofs::Significands::in_place, crate::proofs::Significands::normal))]
fn normal_pattern(magnitude: u16) -> u32
    requires { 0 < magnitude }
    ensures { (result < 2147483648) × (Normal result magnitude) }
{
    let doublings = HIGHEST - magnitude.ilog2();
    let significand = (magnitude as u32) << doublings;
    (ONES - doublings) * FRACTIONS + (significand - FRACTIONS)
}

// The binary32 pattern of a number of whole metres.
pub fn float_pattern(metres: i16) -> u32
    ensures { IsMetres result metres }
{
    if metres == 0 {
        return 0;
    }
    let pattern = normal_pattern(metres.unsigned_abs());
    if metres < 0 { SIGN + pattern } else { pattern }
}
