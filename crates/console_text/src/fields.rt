//! The fields of a line: numbers and hexadecimal digits, each after one space.

ghost use Rattle.std.specs.Prelude.{◌≡◌, ℕ, List, ◌∷◌, MatchOption};
ghost use Rattle.console_text.specs.Fields.{word, after_word, NumberThen};
ghost use Rattle.console_text.specs.Hexadecimal.{HexPairs};
ghost use Rattle.console_text.specs.Numerals.{Numeral, value_of};
ghost use Rattle.std.specs.Option.{SomeIff};

use crate::hexadecimal::is_hex_pairs;

// The most digits that a number may have.
const MAX_DIGITS: usize = 7;

// The number that one to seven decimal digits write.
fn number(field: &[u8]) -> Option<u32>
    ensures { SomeIff result (Numeral field.now) (value_of field.now) }
{
    if field.is_empty() || field.len() > MAX_DIGITS {
        return None;
    }
    let mut value = 0;
    for byte in field {
        value = 10 * value + (*byte as char).to_digit(10)?;
    }
    Some(value)
}

// The text up to its first space, and from there on.
fn cut(text: &[u8]) -> (&[u8], &[u8])
    ensures front { result.0.now ≡ word text.now }
    ensures back { result.1.now ≡ after_word text.now }
{
    let end = text.iter().position(|byte| *byte == b' ');
    text.split_at(end.unwrap_or(text.len()))
}

// A space and a number, and what follows them.
pub(crate) fn number_field(text: &[u8]) -> Option<(u32, &[u8])>
    ensures { MatchOption result ((n : ℕ) (rest : List ℕ) → NumberThen text.now n rest → ⊥) (λ p. NumberThen text.now p.0 p.1.now) }
{
    let [b' ', after @ ..] = text else {
        return None;
    };
    let (field, rest) = cut(after);
    Some((number(field)?, rest))
}

// A space and pairs of hexadecimal digits, up to the end.
pub(crate) fn hex_field(text: &[u8]) -> Option<&[u8]>
    ensures { MatchOption result ((ds : List ℕ) → text.now ≡ 32 ∷ ds → HexPairs ds → ⊥) (λ digits. (text.now ≡ 32 ∷ digits.now) × HexPairs digits.now) }
{
    let [b' ', digits @ ..] = text else {
        return None;
    };
    is_hex_pairs(digits).then_some(digits)
}
