//! One session: lines in, answers compared.
ghost use Rattle.siting_tests.specs.Rooms.{RecordsFit, ArrayFits, FingersFit};

use console::line::Line;
use console::session::serve;
use console_text::render;
use counters::counter::Counter;
use finger_list::list::FingerList;
use flat_layer::layer::FlatLayer;
use grid::CellRecord;
use heights::height::HeightKind;
use shift_array::array::ShiftArray;
use siting_box::SitingBox;
use std::process::Abort;
use std::test::Fail;

// The line whose bytes are those of the text.
pub fn line_of(text: &str) -> Line {
    let mut line = Line::new();
    for byte in text.bytes() {
        line.add(byte);
    }
    line
}

// Serves the lines one after another, with the flat layer over a counter.
fn talk<H: HeightKind, C: Counter<Kind = H> + Drop>(
    rt: &impl Abort,
    records: &mut [CellRecord<H>],
    counter: C,
    turns: &[(&str, &str)],
) -> Result<(), Fail> {
    let mut siting = SitingBox::new(records);
    let mut layer = FlatLayer::over(counter);
    for (line, answer) in turns {
        let told = render(serve(&mut siting, &mut layer, &line_of(line)));
        assert!(rt; told.as_bytes() == answer.as_bytes(), "{line}");
    }
    Ok(())
}

// A session with so many records, counted by a shift array over so many entries.
pub fn talk_with_array<H: HeightKind, const RECORDS: usize, const ENTRIES: usize>(
    rt: &impl Abort,
    height: H,
    turns: &[(&str, &str)],
) -> Result<(), Fail>
    requires records { RecordsFit H.row RECORDS }
    requires entries { ArrayFits H.row ENTRIES }
{
    let mut records = [CellRecord { height, count: 0 }; RECORDS];
    let mut entries = [shift_array::entry::Entry { height, number: 0 }; ENTRIES];
    talk(rt, &mut records, ShiftArray::over(&mut entries), turns)
}

// A session with so many records, counted by a finger list over so many entries.
pub fn talk_with_fingers<H: HeightKind, const RECORDS: usize, const ENTRIES: usize>(
    rt: &impl Abort,
    height: H,
    turns: &[(&str, &str)],
) -> Result<(), Fail>
    requires records { RecordsFit H.row RECORDS }
    requires entries { FingersFit H.row ENTRIES }
{
    let mut records = [CellRecord { height, count: 0 }; RECORDS];
    let mut entries = [finger_list::entry::Entry {
        height,
        number: 0,
        next: 0,
        prev: 0,
    }; ENTRIES];
    talk(rt, &mut records, FingerList::over(&mut entries), turns)
}
