//! The siting console: reads lines of standard input and answers each as it comes.
#![tactic(auto)]

ghost use Rattle.siting.specs.Rooms.{HaveRoom};

mod reader;

use console::session::{NO_FORM, choose, serve};
use console_text::{Answer, CounterLetter, KindLetter, render};
use counters::counter::Counter;
use finger_list::list::FingerList;
use flat_layer::layer::FlatLayer;
use grid::CellRecord;
use heights::float::FloatBits;
use heights::height::HeightKind;
use reader::Lines;
use shift_array::array::ShiftArray;
use siting_box::SitingBox;
use std::io;
use std::io::Write;

// Writes an answer.
fn tell(rt: &HostRuntime, answer: Answer) -> io::Result<()> {
    let line = render(answer);
    let mut output = rt.stdout();
    output.write_all(line.as_bytes())
}

// Answers lines until one chooses a kind and a counter.
fn wait_for_choice(
    rt: &HostRuntime,
    lines: &mut Lines,
) -> io::Result<Option<(KindLetter, CounterLetter)>> {
    for _ in 0..u64::MAX {
        if !lines.read_line()? {
            break;
        }
        if let Some(choice) = choose(lines.line()) {
            tell(rt, Answer::Done)?;
            return Ok(Some(choice));
        }
        tell(rt, Answer::Denied { number: NO_FORM })?;
    }
    Ok(None)
}

// Answers lines from a box over these records, with the flat layer over this counter.
fn serve_lines<H: HeightKind, C: Counter<Kind = H> + Drop>(
    rt: &HostRuntime,
    lines: &mut Lines,
    records: &mut [CellRecord<H>],
    counter: C,
) -> io::Result<()> {
    let mut siting = SitingBox::new(records);
    let mut layer = FlatLayer::over(counter);
    for _ in 0..u64::MAX {
        if !lines.read_line()? {
            break;
        }
        tell(rt, serve(&mut siting, &mut layer, lines.line()))?;
    }
    Ok(())
}

// Serves heights of one kind, with 1,024 records and 1,024 places, all of this height as they are made.
fn serve_kind<H: HeightKind>(
    rt: &HostRuntime,
    lines: &mut Lines,
    counter: CounterLetter,
    height: H,
) -> io::Result<()>
    requires { HaveRoom H.row }
{
    let mut records = [CellRecord { height, count: 0 }; 1024];
    match counter {
        CounterLetter::FingerList => {
            let mut entries = [finger_list::entry::Entry {
                height,
                number: 0,
                next: 0,
                prev: 0,
            }; 1027];
            serve_lines(rt, lines, &mut records, FingerList::over(&mut entries))
        }
        CounterLetter::ShiftArray => {
            let mut entries = [shift_array::entry::Entry { height, number: 0 }; 1027];
            serve_lines(rt, lines, &mut records, ShiftArray::over(&mut entries))
        }
    }
}

fn main(rt: HostRuntime) -> io::Result<()> {
    let mut lines = Lines::of(rt.stdin());
    match wait_for_choice(&rt, &mut lines)? {
        Some((KindLetter::Whole, counter)) => serve_kind(&rt, &mut lines, counter, 0i16),
        Some((KindLetter::Float, counter)) => {
            serve_kind(&rt, &mut lines, counter, FloatBits { bits: 0 })
        }
        None => Ok(()),
    }
}
