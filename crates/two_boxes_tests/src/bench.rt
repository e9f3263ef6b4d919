//! Two boxes over small memories, and what comes of two lists of calls.
use counters::counter::Counter;
use finger_list::list::FingerList;
use flat_layer::layer::FlatLayer;
use grid::CellRecord;
use heights::float::FloatBits;
use heights::height::HeightKind;
use runs::Call;
use shift_array::array::ShiftArray;
use siting_box::SitingBox;
use std::alloc::{AllocError, Global};
use two_boxes::comparing::run_both;
use two_boxes::{Answer, Comparison};

// What came of two lists: how the comparison ended, and the answers of both boxes.
#[derive(Clone, Copy)]
pub struct Ended {
    pub comparison: Comparison,
    pub left: [Answer; 24],
    pub right: [Answer; 24],
}

// The answer that tells a denial by a question that is not about stored heights.
pub fn denied(number: u8) -> Answer {
    Answer::Denied { number, cell: None }
}

// Memory for a finger list.
pub fn finger_entries<H: Copy, const N: usize>(height: H) -> [finger_list::entry::Entry<H>; N] {
    [finger_list::entry::Entry {
        height,
        number: 0,
        next: 0,
        prev: 0,
    }; N]
}

// Memory for a shift array.
pub fn shift_entries<H: Copy, const N: usize>(height: H) -> [shift_array::entry::Entry<H>; N] {
    [shift_array::entry::Entry { height, number: 0 }; N]
}

// Has two lists come to two new boxes over these records, in the order of `run_both`, each with one counter, in a vector: the
// check covers no array of counters that hold a `&mut`.
fn come_to_both<
    K: HeightKind,
    L: HeightKind,
    C: Counter<Kind = K> + Drop,
    D: Counter<Kind = L> + Drop,
    const N: usize,
>(
    heap: Global,
    mut left_records: [CellRecord<K>; N],
    counter: C,
    left_calls: &[Call<'_>],
    mut right_records: [CellRecord<L>; N],
    other: D,
    right_calls: &[Call<'_>],
) -> Result<Ended, AllocError> {
    let mut left_counters = Vec::new(heap);
    left_counters.push(counter)?;
    let mut right_counters = Vec::new(heap);
    right_counters.push(other)?;
    let mut left = SitingBox::new(&mut left_records);
    let mut right = SitingBox::new(&mut right_records);
    let mut left_answers = [Answer::Done; 24];
    let mut right_answers = [Answer::Done; 24];
    let comparison = run_both(
        &mut left,
        left_counters.as_mut_slice(),
        left_calls,
        &mut left_answers,
        &mut right,
        right_counters.as_mut_slice(),
        right_calls,
        &mut right_answers,
    );
    Ok(Ended {
        comparison,
        left: left_answers,
        right: right_answers,
    })
}

// Has two lists come to boxes of 12 records each, over whole metres and over floating-point metres.
pub fn whole_and_float<C: Counter<Kind = i16> + Drop, D: Counter<Kind = FloatBits> + Drop>(
    heap: Global,
    counter: C,
    other: D,
    left_calls: &[Call<'_>],
    right_calls: &[Call<'_>],
) -> Result<Ended, AllocError> {
    let record = CellRecord {
        height: 0i16,
        count: 9,
    };
    let other_record = CellRecord {
        height: FloatBits { bits: 1 },
        count: 0,
    };
    come_to_both(
        heap,
        [record; 12],
        counter,
        left_calls,
        [other_record; 12],
        other,
        right_calls,
    )
}

// Has two lists come to boxes of 4 records each over floating-point metres, a finger list under the layer in the one and a bare
// shift array in the other.
pub fn float_twice(
    heap: Global,
    left_calls: &[Call<'_>],
    right_calls: &[Call<'_>],
) -> Result<Ended, AllocError> {
    let height = FloatBits { bits: 0 };
    let record = CellRecord { height, count: 0 };
    let mut entries: [_; 7] = finger_entries(height);
    let mut others: [_; 7] = shift_entries(height);
    come_to_both(
        heap,
        [record; 4],
        FlatLayer::over(FingerList::over(&mut entries)),
        left_calls,
        [record; 4],
        ShiftArray::over(&mut others),
        right_calls,
    )
}
