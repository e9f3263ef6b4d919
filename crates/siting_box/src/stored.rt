//! Stored heights: bytes in which one height follows another.
ghost use Rattle.std.specs.Prelude.{◌≡◌, ℕ, ◌+◌, ◌*◌, ◌^◌, ◌<◌, ◌≤◌, true, map, length, is_ok, Ok, Err, MatchResult};
ghost use Rattle.heights.specs.Meaning.{storage};
ghost use Rattle.siting_box.specs.Stored.{stored_at, read_first};
ghost use Rattle.siting_box.specs.Fresh.{fresh, heights_read};

use grid::CellRecord;
use heights::height::{HeightKind, Unread};

// A stored height that does not read: its index and its cause.
#[derive(Clone, Copy)]
pub(crate) struct Failure<C> {
    pub(crate) index: usize,
    pub(crate) cause: C,
}

// The height that so many bytes store.
fn read_whole<H: HeightKind>(bytes: &[u8]) -> Result<H, H::Cause>
    requires { length bytes.now ≡ H.HeightKind.wide }
    ensures { result ≡ H.HeightKind.reads bytes.now }
{
    H::read(bytes).map_err(|unread| match unread {
        Unread::Cause(cause) => cause,
        Unread::Length => unreachable(),
    })
}

// Checks that the stored heights read; the first that does not is the error.
pub(crate) fn check_all<H: HeightKind>(bytes: &[u8]) -> Result<(), Failure<H::Cause>>
    ensures { (count : ℕ) → length bytes.now ≡ count * H.HeightKind.wide → MatchResult result (λ _. is_ok (read_first (storage H.HeightKind.wide H.HeightKind.reads) bytes.now count) ≡ true) (λ f. (f.index < count) × (read_first (storage H.HeightKind.wide H.HeightKind.reads) bytes.now count ≡ Err (f.index, f.cause))) }
{
    for (index, stored) in bytes.chunks_exact(H::stored_width()).enumerate() {
        read_whole::<H>(stored).map_err(|cause| Failure { index, cause })?;
    }
    Ok(())
}

// Stores the heights in the records, with counts 0.
pub(crate) fn fill<H: HeightKind>(records: &mut [CellRecord<H>], bytes: &[u8])
    requires enough { length bytes.now ≡ length records.old * H.HeightKind.wide }
    requires all_read { is_ok (read_first (storage H.HeightKind.wide H.HeightKind.reads) bytes.now (length records.old)) ≡ true }
    ensures { records.new ≡ map fresh (heights_read (storage H.HeightKind.wide H.HeightKind.reads) bytes.now (length records.old)) }
{
    for (index, stored) in bytes.chunks_exact(H::stored_width()).enumerate() {
        let height = read_whole::<H>(stored).unwrap();
        // Written by index: what a zipped `iter_mut` writes is not known after the loop.
        records[index] = CellRecord { height, count: 0 };
    }
}
