//! How much a call brings.
ghost use Rattle.std.specs.Prelude.{◌≡◌, length};
ghost use Rattle.runs.specs.Calling.{brought};

use crate::call::Call;

// How many bytes a call brings.
pub fn bytes_brought(call: &Call<'_>) -> usize
    ensures { result ≡ length (brought call.now) }
{
    match *call {
        Call::Open { bytes, .. } | Call::Alter { bytes, .. } => bytes.len(),
        _ => 0,
    }
}
