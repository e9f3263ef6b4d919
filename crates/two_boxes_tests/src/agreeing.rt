//! Lists that match.
use crate::bench::{denied, finger_entries, float_twice, shift_entries, whole_and_float};
use finger_list::list::FingerList;
use grid::Place;
use heights::float::FloatBits;
use runs::Call;
use shift_array::array::ShiftArray;
use std::alloc::AllocError;
use two_boxes::{Answer, Comparison};

// A list with all seven calls, some of them denied.
fn script<'a>(plan: &'a [u8], altered: &'a [u8], wrong: &'a [u8]) -> [Call<'a>; 20] {
    [
        Call::Tell { x: 0, y: 0 },
        Call::Open {
            width: 3,
            rows: 2,
            radius: 1,
            bytes: wrong,
        },
        Call::Open {
            width: 3,
            rows: 2,
            radius: 1,
            bytes: plan,
        },
        Call::Total,
        Call::Tell { x: 0, y: 0 },
        Call::Sweep,
        Call::Alter {
            x: 3,
            y: 0,
            bytes: altered,
        },
        Call::Sweep,
        Call::Total,
        Call::Tell { x: 1, y: 0 },
        Call::Share { x: 1, y: 0 },
        Call::Nearest { x: 1, y: 0 },
        Call::Nearest { x: 2, y: 1 },
        Call::Alter {
            x: 0,
            y: 1,
            bytes: altered,
        },
        Call::Total,
        Call::Tell { x: 0, y: 0 },
        Call::Sweep,
        Call::Open {
            width: 3,
            rows: 2,
            radius: 256,
            bytes: plan,
        },
        Call::Share { x: 2, y: 2 },
        Call::Total,
    ]
}

// The worked heights 5 7 7 and 3 5 9, the height 9, in kind W and in kind F: the same answers, and equal steps of finger lists.
#[test]
fn finger_lists_agree_with_equal_steps(rt: HostRuntime) -> Result<(), AllocError> {
    let whole = script(
        &[0, 5, 0, 7, 0, 7, 0, 3, 0, 5, 0, 9],
        &[0, 9],
        &[0, 5, 0, 7, 0, 7, 0, 3, 0, 5],
    );
    let float = script(
        &[
            0x40, 0xA0, 0, 0, 0x40, 0xE0, 0, 0, 0x40, 0xE0, 0, 0, 0x40, 0x40, 0, 0, 0x40, 0xA0, 0,
            0, 0x41, 0x10, 0, 0,
        ],
        &[0x41, 0x10, 0, 0],
        &[0x40, 0xA0, 0, 0],
    );
    let mut entries: [_; 9] = finger_entries(0i16);
    let mut others: [_; 9] = finger_entries(FloatBits { bits: 0 });
    let ended = whole_and_float(
        rt.alloc(),
        FingerList::over(&mut entries),
        FingerList::over(&mut others),
        &whole,
        &float,
    )?;
    assert_eq!(rt; ended.comparison, Comparison::Agree);
    assert_eq!(rt; ended.left[5], Answer::Swept { steps: 4 });
    assert_eq!(rt; ended.right[5], Answer::Swept { steps: 4 });
    assert_eq!(rt; ended.left[7], Answer::Swept { steps: 6 });
    assert_eq!(rt; ended.right[7], Answer::Swept { steps: 6 });
    assert_eq!(rt; ended.right[8], Answer::Total { sum: 19 });
    assert_eq!(rt; ended.right[14], Answer::Total { sum: 19 });
    Ok(())
}

// A shift array in one box and a finger list in the other: the same answers less the steps.
#[test]
fn other_counters_agree(rt: HostRuntime) -> Result<(), AllocError> {
    let whole = script(
        &[0xFF, 0xFF, 0, 0, 0, 1, 0x80, 0, 0x7F, 0xFF, 0, 0],
        &[0xFF, 0xFE],
        &[],
    );
    let float = script(
        &[
            0xBF, 0x80, 0, 0, 0, 0, 0, 0, 0x3F, 0x80, 0, 0, 0xC7, 0, 0, 0, 0x46, 0xFF, 0xFE, 0,
            0x80, 0, 0, 0,
        ],
        &[0xC0, 0, 0, 0],
        &[],
    );
    let mut entries: [_; 9] = shift_entries(0i16);
    let mut others: [_; 9] = finger_entries(FloatBits { bits: 0 });
    let ended = whole_and_float(
        rt.alloc(),
        ShiftArray::over(&mut entries),
        FingerList::over(&mut others),
        &whole,
        &float,
    )?;
    assert_eq!(rt; ended.comparison, Comparison::Agree);
    assert_eq!(rt; ended.left[8], Answer::Total { sum: 18 });
    assert_eq!(rt; ended.right[8], Answer::Total { sum: 18 });
    assert_eq!(rt; ended.left[0], denied(1));
    assert_eq!(rt; ended.left[1], denied(5));
    assert_eq!(rt; ended.left[3], denied(10));
    assert_eq!(rt; ended.left[4], denied(9));
    assert_eq!(rt; ended.left[6], denied(4));
    assert_eq!(rt; ended.left[16], denied(7));
    assert_eq!(rt; ended.left[17], denied(2));
    Ok(())
}

// Stored heights that do not read: both boxes deny by question 6 and name the first such cell.
#[test]
fn unread_heights_named(rt: HostRuntime) -> Result<(), AllocError> {
    let calls = [
        Call::Open {
            width: 2,
            rows: 2,
            radius: 1,
            bytes: &[0, 0, 0, 0, 0, 0, 0, 0, 0x7F, 0x80, 0, 0, 0xFF, 0xC0, 0, 0],
        },
        Call::Open {
            width: 1,
            rows: 1,
            radius: 255,
            bytes: &[0x80, 0, 0, 0],
        },
        Call::Sweep,
        Call::Alter {
            x: 0,
            y: 0,
            bytes: &[0x7F, 0xC0, 0, 0],
        },
        Call::Total,
    ];
    let ended = float_twice(rt.alloc(), &calls, &calls)?;
    assert_eq!(rt; ended.comparison, Comparison::Agree);
    assert_eq!(rt;
        ended.left[0],
        Answer::Denied {
            number: 6,
            cell: Some(Place { x: 0, y: 1 }),
        }
    );
    assert_eq!(rt;
        ended.right[3],
        Answer::Denied {
            number: 6,
            cell: Some(Place { x: 0, y: 0 }),
        }
    );
    assert_eq!(rt; ended.right[4], Answer::Total { sum: 1 });
    Ok(())
}
