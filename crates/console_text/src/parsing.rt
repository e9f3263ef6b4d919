//! Which command a line writes.

ghost use Rattle.std.specs.Prelude.{ℕ, MatchOption};
ghost use Rattle.console_text.specs.Commands.{Spells, Tail, TwoNumbers};

use crate::commands::{Command, CounterLetter, KindLetter};
use crate::fields::{hex_field, number_field};

// Two numbers, each after a space, and no more.
fn two_numbers(text: &[u8]) -> Option<(u32, u32)>
    ensures { MatchOption result ((x y : ℕ) → TwoNumbers text.now x y → ⊥) (λ p. TwoNumbers text.now p.0 p.1) }
{
    let (first, rest) = number_field(text)?;
    let (second, rest) = number_field(rest)?;
    rest.is_empty().then_some((first, second))
}

// What follows the letter K: a kind and a counter.
fn choose_command(text: &[u8]) -> Option<Command<'_>>
    ensures { Tail 75 text.now result }
{
    let [b' ', kind, b' ', counter] = text else {
        return None;
    };
    let kind = KindLetter::try_from(*kind).ok()?;
    let counter = CounterLetter::try_from(*counter).ok()?;
    Some(Command::Choose { kind, counter })
}

// What follows the letter O: the plan's width, rows and radius, and its stored heights.
fn open_command(text: &[u8]) -> Option<Command<'_>>
    ensures { Tail 79 text.now result }
{
    let (width, text) = number_field(text)?;
    let (rows, text) = number_field(text)?;
    let (radius, text) = number_field(text)?;
    let digits = hex_field(text)?;
    Some(Command::Open {
        width,
        rows,
        radius,
        digits,
    })
}

// What follows the letter A: a place and one stored height.
fn alter_command(text: &[u8]) -> Option<Command<'_>>
    ensures { Tail 65 text.now result }
{
    let (x, text) = number_field(text)?;
    let (y, text) = number_field(text)?;
    let digits = hex_field(text)?;
    Some(Command::Alter { x, y, digits })
}

// The command that a line writes, if it writes one. Its letter is told by a match of the byte as a char.
pub fn parse(line: &[u8]) -> Option<Command<'_>>
    ensures { MatchOption result ((x : Command) → Spells x line.now → ⊥) (λ x. Spells x line.now) }
{
    let [letter, text @ ..] = line else {
        return None;
    };
    match *letter as char {
        'K' => choose_command(text),
        'O' => open_command(text),
        'A' => alter_command(text),
        'S' => text.is_empty().then_some(Command::Sweep),
        'T' => two_numbers(text).map(|(x, y)| Command::Tell { x, y }),
        'H' => two_numbers(text).map(|(x, y)| Command::Share { x, y }),
        'N' => two_numbers(text).map(|(x, y)| Command::Nearest { x, y }),
        _ => None,
    }
}
