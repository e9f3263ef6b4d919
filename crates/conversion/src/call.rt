//! Calls in whole metres, converted to calls in binary32 numbers.
ghost use Rattle.std.specs.Prelude.{◌<◌, length, MatchOption};
ghost use Rattle.runs.specs.Calling.{brought};
ghost use Rattle.conversion.specs.Calls.{ConvertedCall};
ghost use Rattle.conversion.specs.Converting.{converted_length, Converted};

use crate::store::store_as_float;
use runs::Call;

// The front of `out`, with the stored heights converted; `None` where `out` is too short.
fn converted_bytes<'a>(whole: &[u8], out: &'a mut [u8]) -> Option<&'a [u8]>
    ensures { MatchOption result (length out.old < converted_length (length whole.now)) (λ bytes. Converted whole.now bytes.now) }
{
    let size = store_as_float(whole, out)?;
    Some(&out[..size])
}

// The call with its stored heights converted into the front of `out`; `None` where `out` is too short.
pub fn convert_call<'a>(call: &Call<'_>, out: &'a mut [u8]) -> Option<Call<'a>>
    ensures { MatchOption result (length out.old < converted_length (length (brought call.now))) (λ converted. ConvertedCall call.now converted) }
{
    Some(match *call {
        Call::Open {
            width,
            rows,
            radius,
            bytes,
        } => Call::Open {
            width,
            rows,
            radius,
            bytes: converted_bytes(bytes, out)?,
        },
        Call::Alter { x, y, bytes } => Call::Alter {
            x,
            y,
            bytes: converted_bytes(bytes, out)?,
        },
        Call::Sweep => Call::Sweep,
        Call::Tell { x, y } => Call::Tell { x, y },
        Call::Share { x, y } => Call::Share { x, y },
        Call::Nearest { x, y } => Call::Nearest { x, y },
        Call::Total => Call::Total,
    })
}
