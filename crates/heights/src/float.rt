//! Kind F: metres as an IEEE 754 binary32 number.
ghost use Rattle.std.specs.Prelude.{◌≡◌, ℕ, to_bits};
ghost use Rattle.std.specs.Float.{binary32};
ghost use Rattle.heights.specs.Float.{float_reads, float_not_higher, key};
ghost use Rattle.std.proofs.Common.{rules};

use crate::finite::{Finite, FloatCause};
use crate::height::{Height, HeightKind, Unread};

// The first pattern with its sign bit set.
pub const SIGN: u32 = 0x8000_0000;

// A float height as records and counters keep it: the plain 32 bits. It has no `==`, since both zeros are level and their bits differ.
#[derive(Clone, Copy)]
pub struct FloatBits {
    pub bits: u32,
}

impl From<Finite> for FloatBits {
    ghost from_gives = { λ number height. height.bits ≡ to_bits binary32 number.value };

    // The bits of a finite number.
    fn from(number: Finite) -> FloatBits {
        FloatBits {
            bits: number.bits(),
        }
    }
}

impl FloatBits {
    // Where these bits stand in the order: both zeros stand at 0.
    pub fn rank(self) -> i64
        ensures { result ≡ key self.bits }
    {
        if self.bits < SIGN {
            i64::from(self.bits)
        } else {
            -i64::from(self.bits % SIGN)
        }
    }
}

impl Height for FloatBits {
    ghost not_higher = { float_not_higher };

    ghost ordered = { Prim.search rules };

    fn is_not_higher(self, other: FloatBits) -> bool {
        self.rank() <= other.rank()
    }
}

impl HeightKind for FloatBits {
    const WIDTH: usize = 4;

    type Cause = FloatCause;

    ghost wide = { 4 };

    ghost reads = { float_reads };

    ghost narrow = { Prim.search rules };

    fn stored_width() -> usize {
        Self::WIDTH
    }

    fn read(bytes: &[u8]) -> Result<FloatBits, Unread<FloatCause>> {
        let stored = bytes.try_into().map_err(|_| Unread::Length)?;
        let number = Finite::try_from(u32::from_be_bytes(stored)).map_err(Unread::Cause)?;
        Ok(number.into())
    }
}
