//! Calls of counters.
use crate::chance::next_number;
use counters::counter::{Counter, Refusal};
use finger_list::list::FingerList;
use flat_layer::layer::FlatLayer;
use heights::float::FloatBits;
use shift_array::array::ShiftArray;
use shift_array::entry::Entry;
use std::process::Abort;

// The steps of an accepted call, or the number of its refusal.
fn numbered(answer: Result<u64, Refusal>) -> Result<u64, u8> {
    answer.map_err(Refusal::number)
}

// Fewer than three entries give no places, and three give none either: such a counter refuses each put and answers 0.
#[test]
fn no_places(rt: HostRuntime) {
    let mut entries = [Entry {
        height: 0i16,
        number: 0,
    }; 2];
    let mut counter = ShiftArray::over(&mut entries);
    assert_eq!(rt; counter.places(), 0);
    assert_eq!(rt; numbered(counter.put(5)), Err(11));
    assert_eq!(rt; numbered(counter.take(5)), Err(12));
    assert_eq!(rt; counter.ask(5).count, 0);
    let mut kept = [Entry {
        height: 0i16,
        number: 0,
    }; 3];
    assert_eq!(rt; ShiftArray::over(&mut kept).places(), 0);
}

// Steps are the distinct heights above; refused calls change nothing.
#[test]
fn exact_steps(rt: HostRuntime) {
    let mut entries = [Entry {
        height: 0i16,
        number: 0,
    }; 7];
    let mut counter = ShiftArray::over(&mut entries);
    assert_eq!(rt; counter.places(), 4);
    assert_eq!(rt; numbered(counter.put(7)), Ok(0));
    assert_eq!(rt; numbered(counter.put(3)), Ok(1));
    assert_eq!(rt; numbered(counter.put(7)), Ok(0));
    assert_eq!(rt; numbered(counter.put(5)), Ok(1));
    assert_eq!(rt; numbered(counter.put(9)), Err(11));
    assert_eq!(rt; numbered(counter.take(4)), Err(12));
    assert_eq!(rt; counter.ask(6).count, 2);
    assert_eq!(rt; counter.ask(7).count, 4);
    assert_eq!(rt; counter.ask(2).count, 0);
    assert_eq!(rt; counter.mileage(), 2);
    assert_eq!(rt; numbered(counter.take(7)), Ok(0));
    assert_eq!(rt; numbered(counter.take(3)), Ok(2));
    assert_eq!(rt; counter.mileage(), 4);
    counter.begin(0, 0);
    assert_eq!(rt; counter.mileage(), 0);
    assert_eq!(rt; counter.ask(9).count, 0);
    assert_eq!(rt; numbered(counter.take(7)), Err(12));
}

// The two float zeros are one height: one is taken for the other.
#[test]
fn level_zeros(rt: HostRuntime) {
    let plus = FloatBits { bits: 0 };
    let minus = FloatBits { bits: 0x8000_0000 };
    let mut entries = [Entry {
        height: plus,
        number: 0,
    }; 8];
    let mut counter = ShiftArray::over(&mut entries);
    assert_eq!(rt; numbered(counter.put(plus)), Ok(0));
    assert_eq!(rt; numbered(counter.put(minus)), Ok(0));
    assert_eq!(rt; counter.ask(minus).count, 2);
    assert_eq!(rt; numbered(counter.take(minus)), Ok(0));
    assert_eq!(rt; counter.ask(plus).count, 1);
    assert_eq!(rt; numbered(counter.take(minus)), Ok(0));
    assert_eq!(rt; numbered(counter.take(plus)), Err(12));
}

// Moves of the three fingers: each call goes from where its own finger stands, also where that height is gone.
#[test]
fn finger_steps(rt: HostRuntime) {
    let mut entries = [finger_list::entry::Entry {
        height: 0i16,
        number: 0,
        next: 0,
        prev: 0,
    }; 7];
    let mut list = FingerList::over(&mut entries);
    assert_eq!(rt; list.places(), 4);
    list.begin(5, 3);
    assert_eq!(rt; numbered(list.put(5)), Ok(0));
    assert_eq!(rt; numbered(list.put(3)), Ok(1));
    assert_eq!(rt; numbered(list.put(9)), Ok(1));
    assert_eq!(rt; numbered(list.put(7)), Ok(1));
    assert_eq!(rt; numbered(list.put(1)), Err(11));
    assert_eq!(rt; list.ask(3).steps, 0);
    let top = list.ask(9);
    assert!(rt; top.count == 4 && top.steps == 3);
    assert_eq!(rt; numbered(list.take(4)), Err(12));
    assert_eq!(rt; numbered(list.take(9)), Ok(2));
    assert_eq!(rt; numbered(list.take(3)), Ok(2));
    let low = list.ask(0);
    assert!(rt; low.count == 0 && low.steps == 2);
    assert_eq!(rt; list.mileage(), 12);
    assert_eq!(rt; numbered(list.put(8)), Ok(0));
    assert_eq!(rt; numbered(list.put(1)), Ok(3));
    list.begin(0, 0);
    assert_eq!(rt; list.mileage(), 0);
    assert_eq!(rt; list.ask(9).count, 0);
}

// Makes the same calls of two counters, by a running number, and compares all they tell but the steps.
fn alike<A: Counter<Kind = i16>, B: Counter<Kind = i16>>(
    rt: &impl Abort,
    one: &mut A,
    other: &mut B,
    calls: u32,
    heights: u32,
) {
    let mut seed = 7;
    one.begin(0, 0);
    other.begin(0, 0);
    for _ in 0..calls {
        seed = next_number(seed);
        let height = (seed / 65536 % 16).min(heights) as i16;
        match seed / 1048576 % 4 {
            0 | 1 => assert_eq!(rt;
                numbered(one.put(height)).err(),
                numbered(other.put(height)).err()
            ),
            2 => assert_eq!(rt;
                numbered(one.take(height)).err(),
                numbered(other.take(height)).err()
            ),
            _ => assert_eq!(rt; one.ask(height).count, other.ask(height).count),
        }
    }
}

// The same with the flat layer over the second.
fn alike_layered<A: Counter<Kind = i16>, B: Counter<Kind = i16> + Drop>(
    rt: &impl Abort,
    one: &mut A,
    below: B,
    calls: u32,
    heights: u32,
) {
    let mut layer = FlatLayer::over(below);
    alike(rt, one, &mut layer, calls, heights);
}

// Long runs in few places: a finger list answers as a shift array does, and so does the flat layer over it.
#[test]
fn long_runs(rt: HostRuntime) {
    let mut left = [Entry {
        height: 0i16,
        number: 0,
    }; 12];
    let mut right = [finger_list::entry::Entry {
        height: 0i16,
        number: 0,
        next: 0,
        prev: 0,
    }; 12];
    let mut array = ShiftArray::over(&mut left);
    alike(&rt, &mut array, &mut FingerList::over(&mut right), 4000, 15);
    alike(&rt, &mut array, &mut FingerList::over(&mut right), 4000, 3);
    alike_layered(&rt, &mut array, FingerList::over(&mut right), 4000, 15);
    alike_layered(&rt, &mut array, FingerList::over(&mut right), 4000, 2);
}
