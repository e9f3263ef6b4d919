//! Bytes written as pairs of hexadecimal digits, the big digit first.

ghost use Rattle.std.specs.Prelude.{◌≡◌, ◌/◌, ◌<◌, ◌≤◌, ◌++◌, length, drop, Decides, MatchOption};
ghost use Rattle.console_text.specs.Hexadecimal.{HexDigit, HexPairs, hex_value, bytes_of};

// Whether a byte is a hexadecimal digit, of which the letters are capitals.
fn is_hex_digit(byte: u8) -> bool
    ensures { Decides result (HexDigit byte) }
{
    matches!(byte as char, '0'..='9' | 'A'..='F')
}

// The value of a hexadecimal digit.
fn hex_value(digit: u8) -> u8
    requires { HexDigit digit }
    ensures value { result ≡ hex_value digit }
    ensures small { result < 16 }
{
    match digit {
        b'0'..=b'9' => digit - b'0',
        _ => digit - b'A' + 10,
    }
}

// Whether a text is pairs of hexadecimal digits, at least one.
pub(crate) fn is_hex_pairs(digits: &[u8]) -> bool
    ensures { Decides result (HexPairs digits.now) }
{
    !digits.is_empty() && digits.len() % 2 == 0 && digits.iter().all(|digit| is_hex_digit(*digit))
}

// Writes what pairs of digits say into the front of `out`; by its places, since std tells nothing of what a zip with `iter_mut` writes.
fn write_pairs(digits: &[u8], out: &mut [u8])
    requires digits { HexPairs digits.now }
    requires room { length digits.now / 2 ≤ length out.old }
    ensures { out.new ≡ bytes_of digits.now ++ drop (length digits.now / 2) out.old }
{
    let (pairs, _) = digits.as_chunks::<2>();
    for (i, [high, low]) in pairs.iter().enumerate() {
        out[i] = 16 * hex_value(*high) + hex_value(*low);
    }
}

// Decodes pairs of digits into the front of `out` and answers how many bytes they write; where it refuses, it writes none. A number and
// no slice, since a caller may go on to write behind it.
pub fn unhex(digits: &[u8], out: &mut [u8]) -> Option<usize>
    ensures answer { MatchOption result (HexPairs digits.now → length digits.now / 2 ≤ length out.old → ⊥) (λ n. HexPairs digits.now × (n ≤ length out.old) × (n ≡ length digits.now / 2)) }
    ensures bytes { MatchOption result (out.new ≡ out.old) (λ n. out.new ≡ bytes_of digits.now ++ drop n out.old) }
    ensures len { length out.new ≡ length out.old }
{
    let count = digits.len() / 2;
    if count > out.len() || !is_hex_pairs(digits) {
        return None;
    }
    write_pairs(digits, out);
    Some(count)
}
