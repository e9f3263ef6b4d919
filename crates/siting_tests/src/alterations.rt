//! Long runs of alterations and sweeps.
use crate::chance::next_number;
use grid::{CellRecord, Place};
use shift_array::array::ShiftArray;
use shift_array::entry::Entry;
use siting_box::SitingBox;

// The columns of the plan, and the radius of its windows.
const WIDTH: usize = 6;

const RADIUS: usize = 2;

// How many cells of the window around a place are not higher than its own height, counted anew.
fn recount(heights: &[i16], around: Place, own: i16) -> usize {
    heights
        .iter()
        .enumerate()
        .filter(|(at, height)| {
            (at % WIDTH).abs_diff(around.x) <= RADIUS
                && (at / WIDTH).abs_diff(around.y) <= RADIUS
                && **height <= own
        })
        .count()
}

// After each of many alterations, with sweeps between them, a told count is the one counted anew.
#[test]
fn counts_stay_true(rt: HostRuntime) {
    let mut records = [CellRecord {
        height: 0i16,
        count: 0,
    }; 40];
    let mut entries = [Entry {
        height: 0i16,
        number: 0,
    }; 28];
    let mut counter = ShiftArray::over(&mut entries);
    let mut siting = SitingBox::new(&mut records);
    let mut heights = [0i16; 30];
    assert!(rt; siting.open(WIDTH, 5, RADIUS, &[0; 60]).is_ok());
    let mut seed = 11;
    for turn in 0..3000u32 {
        seed = next_number(seed);
        if turn % 500 == 0 {
            let _ = siting.sweep(&mut counter);
        }
        let altered = Place {
            x: (seed / 65536 % 6) as usize,
            y: (seed / 1048576 % 5) as usize,
        };
        let height = (seed / 256 % 7) as i16;
        assert!(rt; siting.alter(altered, &height.to_be_bytes()).is_ok());
        heights[altered.y * WIDTH + altered.x] = height;
        let told = Place {
            x: (seed / 4096 % 6) as usize,
            y: (seed / 16777216 % 5) as usize,
        };
        if let Ok(answer) = siting.tell(told) {
            let own = heights[told.y * WIDTH + told.x];
            assert_eq!(rt; answer.count as usize, recount(&heights, told, own));
        }
    }
    assert!(rt; siting.tell(Place { x: 5, y: 4 }).is_ok());
}
