//! What the console does with a line.
ghost use Rattle.std.specs.Prelude.{◌≡◌, ◌≤◌, length};
ghost use Rattle.heights.specs.Meaning.{storage};
ghost use Rattle.heights.specs.declared.layer.Layer.TheVariants.{Console};
ghost use Rattle.console_text.specs.Hexadecimal.{HexPairs, bytes_of};
ghost use Rattle.siting_box.specs.Boxes.{box_contents};
ghost use Rattle.siting_box.specs.Contents.{Counted};
ghost use Rattle.console.specs.declared.session.NotDone.TheVariants.{Denied};
ghost use Rattle.console.specs.Refusals.{question, refusal, answer_of};
ghost use Rattle.console.specs.Sessions.{OpenCarried, AlterCarried, Carried, Served, Decodable, WrittenBy, ChosenBy};

use crate::line::Line;
use console_text::{Answer, Command, CounterLetter, KindLetter, parse, unhex};
use counters::counter::Counter;
use grid::Place;
use heights::height::HeightKind;
use heights::layer::Layer;
use siting_box::{Denial, SitingBox};

// The number that denies a line that is none of the console's forms.
pub const NO_FORM: u64 = 13;

// The layer that denies such a line.
pub fn no_form_layer() -> Layer
    ensures { result ≡ Console }
{
    Layer::Console
}

// Why a line was not carried out: it is none of the console's forms, or the box denied what it asks. An enum of its own, since in an
// `Option` of a denial nothing would say what `None` is.
#[derive(Clone, Copy)]
enum NotDone<C> {
    NoForm,
    Denied(Denial<C>),
}

impl<C: Copy> From<Denial<C>> for NotDone<C> {
    ghost from_gives = { λ denial reason. reason ≡ Denied denial };

    // The box denied it.
    fn from(denial: Denial<C>) -> NotDone<C> {
        NotDone::Denied(denial)
    }
}

impl<C: Copy> NotDone<C> {
    // The number of the question that was answered no.
    fn number(self) -> u64
        ensures { result ≡ question self }
    {
        match self {
            NotDone::NoForm => NO_FORM,
            NotDone::Denied(denial) => u64::from(denial.number()),
        }
    }
}

impl<C: Copy> From<NotDone<C>> for Answer {
    ghost from_gives = { λ reason answer. answer ≡ refusal reason };

    // The answer that tells it: the number, and of a stored height that did not read the cell.
    fn from(reason: NotDone<C>) -> Answer {
        let number = reason.number();
        match reason {
            NotDone::Denied(Denial::Unread { at, .. }) => Answer::DeniedAt {
                number,
                x: at.x as u64,
                y: at.y as u64,
            },
            _ => Answer::Denied { number },
        }
    }
}

// The place in this column and this row.
fn place(x: u32, y: u32) -> Place
    ensures { result ≡ record { x = x; y = y } }
{
    Place {
        x: x as usize,
        y: y as usize,
    }
}

// The digits of a line write at most so many bytes. They are decoded on the stack: a vector could fail for want of memory.
const MOST_STORED: usize = 4500;

// The stored heights that pairs of hexadecimal digits write, at the front of `stored`.
fn decode<'a>(digits: &[u8], stored: &'a mut [u8; MOST_STORED]) -> &'a [u8]
    requires pairs { HexPairs digits.now }
    requires short { length digits.now ≤ 9000 }
    ensures { result.now ≡ bytes_of digits.now }
{
    let count = unhex(digits, stored).unwrap();
    &stored[..count]
}

// Opens a plan whose stored heights are written as hexadecimal digits. It and `alter_height` are functions of their own, since the memory
// for the decoded bytes is cleared where a function begins, and no other command needs it.
fn open_plan<H: HeightKind>(
    siting: &mut SitingBox<'_, H>,
    width: u32,
    rows: u32,
    radius: u32,
    digits: &[u8],
) -> Result<Answer, NotDone<H::Cause>>
    requires pairs { HexPairs digits.now }
    requires short { length digits.now ≤ 9000 }
    ensures carried { OpenCarried (storage H.HeightKind.wide H.HeightKind.reads) width rows radius digits.now (box_contents siting.old) (box_contents siting.new) (answer_of result) }
    ensures counts { Counted H.Height.not_higher (box_contents siting.old) → Counted H.Height.not_higher (box_contents siting.new) }
    ensures lent { siting.new.records.ghost_name ≡ siting.old.records.ghost_name }
{
    let mut stored = [0; MOST_STORED];
    siting.open(
        width as usize,
        rows as usize,
        radius as usize,
        decode(digits, &mut stored),
    )?;
    Ok(Answer::Done)
}

// Gives a cell another stored height, written as hexadecimal digits.
fn alter_height<H: HeightKind>(
    siting: &mut SitingBox<'_, H>,
    x: u32,
    y: u32,
    digits: &[u8],
) -> Result<Answer, NotDone<H::Cause>>
    requires pairs { HexPairs digits.now }
    requires short { length digits.now ≤ 9000 }
    ensures carried { AlterCarried (storage H.HeightKind.wide H.HeightKind.reads) H.Height.not_higher x y digits.now (box_contents siting.old) (box_contents siting.new) (answer_of result) }
    ensures counts { Counted H.Height.not_higher (box_contents siting.old) → Counted H.Height.not_higher (box_contents siting.new) }
    ensures lent { siting.new.records.ghost_name ≡ siting.old.records.ghost_name }
{
    let mut stored = [0; MOST_STORED];
    siting.alter(place(x, y), decode(digits, &mut stored))?;
    Ok(Answer::Done)
}

// Carries out a command on a box with a counter and tells what came of it.
fn carry_out<H: HeightKind, C: Counter<Kind = H>>(
    siting: &mut SitingBox<'_, H>,
    counter: &mut C,
    command: Command<'_>,
) -> Result<Answer, NotDone<H::Cause>>
    requires { Decodable command }
    ensures carried { Carried (storage H.HeightKind.wide H.HeightKind.reads) H.Height.not_higher command.entry (box_contents siting.old) (box_contents siting.new) (C.Counter.view counter.old) (C.Counter.view counter.new) (answer_of result) }
    ensures counts { Counted H.Height.not_higher (box_contents siting.old) → Counted H.Height.not_higher (box_contents siting.new) }
    ensures sound { C.Counter.sound counter.old → C.Counter.sound counter.new }
    ensures lent { siting.new.records.ghost_name ≡ siting.old.records.ghost_name }
{
    match command {
        Command::Choose { .. } => Err(NotDone::NoForm),
        Command::Open {
            width,
            rows,
            radius,
            digits,
        } => open_plan(siting, width, rows, radius, digits),
        Command::Alter { x, y, digits } => alter_height(siting, x, y, digits),
        Command::Sweep => Ok(Answer::Steps(siting.sweep(counter)?)),
        Command::Tell { x, y } => {
            let told = siting.tell(place(x, y))?;
            Ok(Answer::Told {
                count: u64::from(told.count),
                cells: u64::from(told.cells),
            })
        }
        Command::Share { x, y } => Ok(Answer::Share(siting.share(place(x, y))?)),
        Command::Nearest { x, y } => Ok(Answer::Nearest(siting.nearest(place(x, y))?)),
    }
}

// The command that a line writes, if it writes one.
#[tactic(auto, using(crate::proofs::Digits::decodable))]
fn command_of(line: &Line) -> Option<Command<'_>>
    ensures { WrittenBy line.now result }
{
    parse(line.text()?)
}

// Serves a line: what it asks of the box and the counter, and the answer.
pub fn serve<H: HeightKind, C: Counter<Kind = H>>(
    siting: &mut SitingBox<'_, H>,
    counter: &mut C,
    line: &Line,
) -> Answer
    ensures served { Served (storage H.HeightKind.wide H.HeightKind.reads) H.Height.not_higher line.now (box_contents siting.old) (box_contents siting.new) (C.Counter.view counter.old) (C.Counter.view counter.new) result }
    ensures counts { Counted H.Height.not_higher (box_contents siting.old) → Counted H.Height.not_higher (box_contents siting.new) }
    ensures sound { C.Counter.sound counter.old → C.Counter.sound counter.new }
    ensures lent { siting.new.records.ghost_name ≡ siting.old.records.ghost_name }
{
    let Some(command) = command_of(line) else {
        return Answer::from(NotDone::<H::Cause>::NoForm);
    };
    carry_out(siting, counter, command).unwrap_or_else(Answer::from)
}

// The kind and the counter that a line chooses.
pub fn choose(line: &Line) -> Option<(KindLetter, CounterLetter)>
    ensures { ChosenBy line.now result }
{
    match command_of(line)? {
        Command::Choose { kind, counter } => Some((kind, counter)),
        _ => None,
    }
}
