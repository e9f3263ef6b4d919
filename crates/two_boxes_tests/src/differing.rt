//! Lists that do not match.
use crate::bench::float_twice;
use runs::Call;
use std::alloc::AllocError;
use two_boxes::{Answer, Comparison};

// The call that opens a plan of two cells side by side.
fn open_two(bytes: &[u8]) -> Call<'_> {
    Call::Open {
        width: 2,
        rows: 1,
        radius: 1,
        bytes,
    }
}

// Two cells of which the second is higher in the one list and lower in the other: the counts of the row differ after its sweep.
#[test]
fn first_difference_told(rt: HostRuntime) -> Result<(), AllocError> {
    let rising = [
        open_two(&[0, 0, 0, 0, 0x3F, 0x80, 0, 0]),
        Call::Sweep,
        Call::Tell { x: 0, y: 0 },
    ];
    let falling = [
        open_two(&[0, 0, 0, 0, 0xBF, 0x80, 0, 0]),
        Call::Sweep,
        Call::Tell { x: 0, y: 0 },
    ];
    let ended = float_twice(rt.alloc(), &rising, &falling)?;
    assert_eq!(rt; ended.comparison, Comparison::Differ { call: 1 });
    assert_eq!(rt; ended.left[2], Answer::Told { count: 1, cells: 2 });
    assert_eq!(rt; ended.right[2], Answer::Told { count: 2, cells: 2 });
    Ok(())
}

// Level heights with different bits, the two zeros, are no difference; a height just below them is.
#[test]
fn level_heights_agree(rt: HostRuntime) -> Result<(), AllocError> {
    let zeros = [
        open_two(&[0, 0, 0, 0, 0, 0, 0, 0]),
        Call::Sweep,
        Call::Nearest { x: 0, y: 0 },
        Call::Total,
    ];
    let mixed = [
        open_two(&[0x80, 0, 0, 0, 0, 0, 0, 0]),
        Call::Sweep,
        Call::Nearest { x: 0, y: 0 },
        Call::Total,
    ];
    let ended = float_twice(rt.alloc(), &zeros, &mixed)?;
    assert_eq!(rt; ended.comparison, Comparison::Agree);
    assert_eq!(rt; ended.left[2], Answer::Nearest { found: None });
    assert_eq!(rt; ended.right[3], Answer::Total { sum: 4 });
    Ok(())
}

// Lists of different lengths, and lists longer than the memory for their answers, are not compared, and nothing is called.
#[test]
fn not_comparable(rt: HostRuntime) -> Result<(), AllocError> {
    let ended = float_twice(rt.alloc(), &[Call::Sweep], &[Call::Sweep, Call::Total])?;
    assert_eq!(rt; ended.comparison, Comparison::NotComparable);
    assert_eq!(rt; ended.left[0], Answer::Done);
    let long = [Call::Total; 25];
    let over = float_twice(rt.alloc(), &long, &long)?;
    assert_eq!(rt; over.comparison, Comparison::NotComparable);
    let none = float_twice(rt.alloc(), &[], &[])?;
    assert_eq!(rt; none.comparison, Comparison::Agree);
    Ok(())
}
