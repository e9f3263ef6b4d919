//! The commands that a line of the console can write.

// A byte that is none of the letters.
#[derive(Clone, Copy, PartialEq, Eq, Debug)]
pub struct NoLetter;

// The letter of a kind of heights.
#[derive(Clone, Copy, PartialEq, Eq, Debug)]
pub enum KindLetter {
    Whole,
    Float,
}

// The kind of heights that a letter means.
impl TryFrom<u8> for KindLetter {
    ghost use Rattle.std.specs.Prelude.{◌≡◌, ◌≢◌, MatchResult};
    ghost use Rattle.console_text.specs.Commands.{kind_byte};
    ghost use Rattle.console_text.specs.declared.commands.KindLetter.{KindLetter};

    type Error = NoLetter;

    ghost try_from_gives = { λ byte r. MatchResult r (λ kind. kind_byte kind ≡ byte) (λ none. (kind : KindLetter) → kind_byte kind ≢ byte) };

    fn try_from(byte: u8) -> Result<KindLetter, NoLetter> {
        match byte as char {
            'W' => Ok(KindLetter::Whole),
            'F' => Ok(KindLetter::Float),
            _ => Err(NoLetter),
        }
    }
}

// The letter of a counter.
#[derive(Clone, Copy, PartialEq, Eq, Debug)]
pub enum CounterLetter {
    FingerList,
    ShiftArray,
}

// The counter that a letter means.
impl TryFrom<u8> for CounterLetter {
    ghost use Rattle.std.specs.Prelude.{◌≡◌, ◌≢◌, MatchResult};
    ghost use Rattle.console_text.specs.Commands.{counter_byte};
    ghost use Rattle.console_text.specs.declared.commands.CounterLetter.{CounterLetter};

    type Error = NoLetter;

    ghost try_from_gives = { λ byte r. MatchResult r (λ counter. counter_byte counter ≡ byte) (λ none. (counter : CounterLetter) → counter_byte counter ≢ byte) };

    fn try_from(byte: u8) -> Result<CounterLetter, NoLetter> {
        match byte as char {
            'L' => Ok(CounterLetter::FingerList),
            'A' => Ok(CounterLetter::ShiftArray),
            _ => Err(NoLetter),
        }
    }
}

// One command; numbers and digits of stored heights are as the line has them, so it is no call of a box, which holds sizes and bytes.
#[derive(Clone, Copy, PartialEq, Eq, Debug)]
pub enum Command<'a> {
    Choose {
        kind: KindLetter,
        counter: CounterLetter,
    },
    Open {
        width: u32,
        rows: u32,
        radius: u32,
        digits: &'a [u8],
    },
    Alter {
        x: u32,
        y: u32,
        digits: &'a [u8],
    },
    Sweep,
    Tell {
        x: u32,
        y: u32,
    },
    Share {
        x: u32,
        y: u32,
    },
    Nearest {
        x: u32,
        y: u32,
    },
}
