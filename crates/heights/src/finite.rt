//! Finite binary32 numbers, made from checked patterns.
ghost use Rattle.std.specs.Prelude.{◌≡◌, ◌<◌, MatchResult, to_bits};
ghost use Rattle.std.specs.Float.{binary32};
ghost use Rattle.heights.specs.Patterns.{exponent, unread_cause, cause_number};

// Eight exponent bits, all ones.
const ALL_ONES: u32 = 255;
// How many patterns have the same sign and exponent.
pub const FRACTIONS: u32 = 0x80_0000;

// Why a pattern is no finite number.
#[derive(Clone, Copy, PartialEq, Eq, Debug)]
pub enum FloatCause {
    Infinite = 1,
    NotANumber = 2,
}

impl FloatCause {
    // The cause's number: 1 infinite, 2 not a number.
    pub fn number(self) -> u8
        ensures { result ≡ cause_number self }
    {
        self as u8
    }
}

// A finite number: its exponent bits are not all ones, so its bits can be taken.
#[derive(Clone, Copy)]
pub struct Finite {
    value: f32,
    ghost finite: { exponent (to_bits binary32 value) < 255 },
}

impl TryFrom<u32> for Finite {
    type Error = FloatCause;

    ghost try_from_gives = { λ pattern outcome. MatchResult outcome (λ number. (to_bits binary32 number.value ≡ pattern) × (exponent pattern < 255)) (λ cause. (exponent pattern ≡ 255) × (cause ≡ unread_cause pattern)) };

    // The number that a pattern writes, or why it writes none.
    #[tactic(auto, using(std::proofs::lemmas::Float::not_nan_f32_bits, crate::proofs::Exponents::bits_back))]
    fn try_from(pattern: u32) -> Result<Finite, FloatCause> {
        match (pattern / FRACTIONS % 256, pattern % FRACTIONS) {
            (ALL_ONES, 0) => Err(FloatCause::Infinite),
            (ALL_ONES, _) => Err(FloatCause::NotANumber),
            _ => Ok(Finite {
                value: f32::from_bits(pattern),
            }),
        }
    }
}

impl Finite {
    // The number's pattern.
    #[tactic(auto, using(crate::proofs::Exponents::not_nan))]
    pub fn bits(self) -> u32
        ensures { result ≡ to_bits binary32 self.value }
    {
        self.value.to_bits()
    }
}
