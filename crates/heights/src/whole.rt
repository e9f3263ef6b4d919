//! Kind W: signed 16-bit whole metres.
ghost use Rattle.std.specs.Prelude.{int_le};
ghost use Rattle.heights.specs.Whole.{whole_reads};
ghost use Rattle.std.proofs.Common.{rules};

use crate::height::{Height, HeightKind, Unread};

// No cause: every pattern reads. It derives no `==` and no `Debug`: no call of them could meet its contract.
#[derive(Clone, Copy)]
pub enum NoCause {}

impl Height for i16 {
    ghost not_higher = { int_le };

    ghost ordered = { Prim.search rules };

    fn is_not_higher(self, other: i16) -> bool {
        self <= other
    }
}

impl HeightKind for i16 {
    const WIDTH: usize = 2;

    type Cause = NoCause;

    ghost wide = { 2 };

    ghost reads = { whole_reads };

    ghost narrow = { Prim.search rules };

    fn stored_width() -> usize {
        Self::WIDTH
    }

    fn read(bytes: &[u8]) -> Result<i16, Unread<NoCause>> {
        let stored = bytes.try_into().map_err(|_| Unread::Length)?;
        Ok(i16::from_be_bytes(stored))
    }
}
