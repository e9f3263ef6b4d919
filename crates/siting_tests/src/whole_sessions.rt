//! Sessions over whole heights.
use crate::talk::{talk_with_array, talk_with_fingers};
use std::test::Fail;

// The worked plan in the fewest records and places; calls before the plan, and after the last row.
#[test]
fn worked_plan(rt: HostRuntime) -> Result<(), Fail> {
    talk_with_array::<i16, 6, 9>(
        &rt,
        0,
        &[
            ("T 0 0", "no 1\n"),
            ("S", "no 1\n"),
            ("N 0 0", "no 1\n"),
            ("O 3 2 1 000500070007000300050009", "ok\n"),
            ("T 0 0", "no 9\n"),
            ("S", "ok 4\n"),
            ("T 0 1", "no 9\n"),
            ("S", "ok 4\n"),
            ("S", "no 7\n"),
            ("T 0 0", "3 4\n"),
            ("T 1 0", "5 6\n"),
            ("T 2 0", "3 4\n"),
            ("T 0 1", "1 4\n"),
            ("T 1 1", "3 6\n"),
            ("T 2 1", "4 4\n"),
            ("N 0 0", "1 0 1\n"),
            ("N 1 0", "2 1 2\n"),
            ("N 2 0", "2 1 1\n"),
            ("N 0 1", "0 0 1\n"),
            ("N 1 1", "1 0 1\n"),
            ("N 2 1", "no higher ground\n"),
        ],
    )
}

// One record too few denies the plan; a smaller one is opened.
#[test]
fn a_record_too_few(rt: HostRuntime) -> Result<(), Fail> {
    talk_with_array::<i16, 5, 9>(
        &rt,
        0,
        &[
            ("O 3 2 1 000500070007000300050009", "no 3\n"),
            ("S", "no 1\n"),
            ("N 0 0", "no 1\n"),
            ("O 5 1 1 00010002000300040005", "ok\n"),
            ("S", "ok 6\n"),
            ("T 4 0", "2 2\n"),
        ],
    )
}

// One place too few denies the sweep; a smaller plan is swept.
#[test]
fn a_place_too_few(rt: HostRuntime) -> Result<(), Fail> {
    talk_with_array::<i16, 6, 8>(
        &rt,
        0,
        &[
            ("O 3 2 1 000500070007000300050009", "ok\n"),
            ("S", "no 8\n"),
            ("T 0 0", "no 9\n"),
            ("N 1 0", "2 1 2\n"),
            ("O 5 1 1 00010002000300040005", "ok\n"),
            ("S", "ok 6\n"),
            ("T 2 0", "2 3\n"),
        ],
    )
}

// Sizes at and past their limits; a denied open leaves the plan that was there.
#[test]
fn limits_of_sizes(rt: HostRuntime) -> Result<(), Fail> {
    talk_with_array::<i16, 1024, 1027>(
        &rt,
        0,
        &[
            ("O 1 1 255 0001", "ok\n"),
            ("O 1 1 256 0001", "no 2\n"),
            ("O 1 1 0 0001", "no 2\n"),
            ("O 0 1 1 0001", "no 2\n"),
            ("O 1 0 1 0001", "no 2\n"),
            ("O 1025 1 1 0001", "no 2\n"),
            ("O 1 1025 1 0001", "no 2\n"),
            ("O 1024 2 1 0001", "no 3\n"),
            ("O 1024 1 1 0001", "no 5\n"),
            ("S", "ok 0\n"),
            ("T 0 0", "1 1\n"),
            ("N 0 0", "no higher ground\n"),
        ],
    )
}

// One cell with the largest radius.
#[test]
fn one_cell(rt: HostRuntime) -> Result<(), Fail> {
    talk_with_array::<i16, 1024, 1027>(
        &rt,
        0,
        &[
            ("O 1 1 255 8000", "ok\n"),
            ("N 0 0", "no higher ground\n"),
            ("S", "ok 0\n"),
            ("T 0 0", "1 1\n"),
            ("T 1 0", "no 4\n"),
            ("T 0 1", "no 4\n"),
            ("N 0 1", "no 4\n"),
            ("S", "no 7\n"),
        ],
    )
}

// Grids that are narrower than a window.
#[test]
fn narrower_than_the_window(rt: HostRuntime) -> Result<(), Fail> {
    talk_with_array::<i16, 1024, 1027>(
        &rt,
        0,
        &[
            ("O 2 5 3 00010002000200010003000300000005FFFFFFFF", "ok\n"),
            ("S", "ok 3\n"),
            ("S", "ok 7\n"),
            ("S", "ok 7\n"),
            ("S", "ok 7\n"),
            ("S", "ok 8\n"),
            ("S", "no 7\n"),
            ("T 0 0", "3 8\n"),
            ("T 1 0", "5 8\n"),
            ("T 0 1", "7 10\n"),
            ("T 1 1", "5 10\n"),
            ("T 0 2", "9 10\n"),
            ("T 1 2", "9 10\n"),
            ("T 0 3", "3 10\n"),
            ("T 1 3", "10 10\n"),
            ("T 0 4", "2 8\n"),
            ("T 1 4", "2 8\n"),
            ("O 5 1 255 00030001000200010003", "ok\n"),
            ("S", "ok 2\n"),
            ("T 0 0", "5 5\n"),
            ("T 1 0", "2 5\n"),
            ("T 2 0", "3 5\n"),
            ("T 3 0", "2 5\n"),
            ("T 4 0", "5 5\n"),
            ("N 0 0", "no higher ground\n"),
            ("N 1 0", "0 0 1\n"),
            ("N 2 0", "0 0 4\n"),
            ("N 3 0", "2 0 1\n"),
            ("N 4 0", "no higher ground\n"),
        ],
    )
}

// Level ground: every cell of a window counts, and no cell is higher.
#[test]
fn flat_ground(rt: HostRuntime) -> Result<(), Fail> {
    talk_with_array::<i16, 1024, 1027>(
        &rt,
        0,
        &[
            ("O 3 3 1 000700070007000700070007000700070007", "ok\n"),
            ("S", "ok 0\n"),
            ("S", "ok 0\n"),
            ("S", "ok 0\n"),
            ("T 0 0", "4 4\n"),
            ("T 1 0", "6 6\n"),
            ("T 2 0", "4 4\n"),
            ("T 0 1", "6 6\n"),
            ("T 1 1", "9 9\n"),
            ("T 2 1", "6 6\n"),
            ("T 0 2", "4 4\n"),
            ("T 1 2", "6 6\n"),
            ("T 2 2", "4 4\n"),
            ("N 0 0", "no higher ground\n"),
            ("N 1 0", "no higher ground\n"),
            ("N 2 0", "no higher ground\n"),
            ("N 0 1", "no higher ground\n"),
            ("N 1 1", "no higher ground\n"),
            ("N 2 1", "no higher ground\n"),
            ("N 0 2", "no higher ground\n"),
            ("N 1 2", "no higher ground\n"),
            ("N 2 2", "no higher ground\n"),
        ],
    )
}

// Of equally near cells the first in reading order is answered.
#[test]
fn ties_of_distance(rt: HostRuntime) -> Result<(), Fail> {
    talk_with_array::<i16, 1024, 1027>(
        &rt,
        0,
        &[
            ("O 3 3 1 000000010000000100000001000000010000", "ok\n"),
            ("N 1 1", "1 0 1\n"),
            ("N 0 0", "1 0 1\n"),
            ("N 2 2", "2 1 1\n"),
            ("O 3 3 1 000100000001000000000000000100000001", "ok\n"),
            ("N 1 1", "0 0 2\n"),
            ("O 3 3 1 000000000000000000000001000000010000", "ok\n"),
            ("N 1 1", "2 1 1\n"),
            ("O 3 3 1 000000000000000100000001000000010000", "ok\n"),
            ("N 1 1", "0 1 1\n"),
            ("O 5 1 1 00020001000000010002", "ok\n"),
            ("N 2 0", "1 0 1\n"),
            ("N 1 0", "0 0 1\n"),
            ("N 3 0", "4 0 1\n"),
            ("N 0 0", "no higher ground\n"),
        ],
    )
}

// Negative heights lie below positive ones.
#[test]
fn below_sea_level(rt: HostRuntime) -> Result<(), Fail> {
    talk_with_array::<i16, 1024, 1027>(
        &rt,
        0,
        &[
            ("O 3 1 1 FFFF80007FFF", "ok\n"),
            ("S", "ok 2\n"),
            ("T 0 0", "2 2\n"),
            ("T 1 0", "1 3\n"),
            ("T 2 0", "2 2\n"),
            ("N 0 0", "2 0 4\n"),
            ("N 1 0", "0 0 1\n"),
            ("N 2 0", "no higher ground\n"),
        ],
    )
}

// Denied calls between others change nothing; a new plan starts unswept.
#[test]
fn denied_calls_between(rt: HostRuntime) -> Result<(), Fail> {
    talk_with_array::<i16, 6, 9>(
        &rt,
        0,
        &[
            ("O 3 2 1 000500070007000300050009", "ok\n"),
            ("S", "ok 4\n"),
            ("O 3 2 1 00", "no 5\n"),
            ("T 0 0", "3 4\n"),
            ("O 4 2 1 00000001000200030004000500060007", "no 3\n"),
            ("T 1 0", "5 6\n"),
            ("T 3 0", "no 4\n"),
            ("T 0 2", "no 4\n"),
            ("N 3 0", "no 4\n"),
            ("N 0 2", "no 4\n"),
            ("X", "no 13\n"),
            ("K W A", "no 13\n"),
            ("S", "ok 4\n"),
            ("Z", "no 13\n"),
            ("T 2 1", "4 4\n"),
            ("S", "no 7\n"),
            ("O 3 2 0 00", "no 2\n"),
            ("T 2 1", "4 4\n"),
            ("O 3 2 1 000500070007000300050009", "ok\n"),
            ("T 2 1", "no 9\n"),
            ("S", "ok 4\n"),
            ("T 2 0", "3 4\n"),
        ],
    )
}

// Lines that are none of the forms.
#[test]
fn no_form(rt: HostRuntime) -> Result<(), Fail> {
    talk_with_array::<i16, 6, 9>(
        &rt,
        0,
        &[
            ("", "no 13\n"),
            (" ", "no 13\n"),
            ("S ", "no 13\n"),
            (" S", "no 13\n"),
            ("SS", "no 13\n"),
            ("s", "no 13\n"),
            ("O", "no 13\n"),
            ("O 3", "no 13\n"),
            ("O 3 2", "no 13\n"),
            ("O 3 2 1", "no 13\n"),
            ("O 3 2 1 ", "no 13\n"),
            ("O 3 2 1 0", "no 13\n"),
            ("O 3 2 1 00050", "no 13\n"),
            ("O 3 2 1 000g", "no 13\n"),
            ("O 3 2 1 000a", "no 13\n"),
            ("O 3 2 1 0005 0007", "no 13\n"),
            ("O  3 2 1 0005", "no 13\n"),
            ("O 3,2,1 0005", "no 13\n"),
            ("T", "no 13\n"),
            ("T 0", "no 13\n"),
            ("T 0 0 0", "no 13\n"),
            ("T 0  0", "no 13\n"),
            ("T  0 0", "no 13\n"),
            ("T 0 0 ", "no 13\n"),
            ("t 0 0", "no 13\n"),
            ("T 00000000 0", "no 13\n"),
            ("T -1 0", "no 13\n"),
            ("T +1 0", "no 13\n"),
            ("T 0x1 0", "no 13\n"),
            ("N", "no 13\n"),
            ("N 1", "no 13\n"),
            ("N a b", "no 13\n"),
            ("N 12345678 0", "no 13\n"),
            ("K", "no 13\n"),
            ("K W", "no 13\n"),
            ("K W A", "no 13\n"),
            ("K F A", "no 13\n"),
            ("K X A", "no 13\n"),
            ("K W B", "no 13\n"),
            ("H 0", "no 13\n"),
            ("H 0 0 0", "no 13\n"),
            ("A", "no 13\n"),
            ("A 0 0", "no 13\n"),
            ("A 0 0 ", "no 13\n"),
            ("A 0 0 0", "no 13\n"),
            ("A 0 0 000g", "no 13\n"),
            ("A 0 0 0001 0002", "no 13\n"),
            ("A 0  0 0001", "no 13\n"),
            ("Z", "no 13\n"),
            ("?", "no 13\n"),
        ],
    )
}

// Numbers of one to seven digits.
#[test]
fn leading_zeros(rt: HostRuntime) -> Result<(), Fail> {
    talk_with_array::<i16, 6, 9>(
        &rt,
        0,
        &[
            ("O 0000003 02 001 000500070007000300050009", "ok\n"),
            ("T 0000000 0000000", "no 9\n"),
            ("S", "ok 4\n"),
            ("T 0000001 0000000", "5 6\n"),
            ("N 1 0000000", "2 1 2\n"),
            ("T 9999999 0", "no 4\n"),
            ("T 0 9999999", "no 4\n"),
        ],
    )
}

// The worked plan, counted by a finger list.
#[test]
fn finger_list_under_the_layer(rt: HostRuntime) -> Result<(), Fail> {
    talk_with_fingers::<i16, 6, 9>(
        &rt,
        0,
        &[
            ("O 3 2 1 000500070007000300050009", "ok\n"),
            ("T 0 0", "no 9\n"),
            ("S", "ok 4\n"),
            ("S", "ok 6\n"),
            ("S", "no 7\n"),
            ("T 0 0", "3 4\n"),
            ("T 1 0", "5 6\n"),
            ("T 2 0", "3 4\n"),
            ("T 0 1", "1 4\n"),
            ("T 1 1", "3 6\n"),
            ("T 2 1", "4 4\n"),
            ("H 1 0", "555\n"),
            ("H 0 0", "333\n"),
            ("N 1 0", "2 1 2\n"),
            ("N 2 1", "no higher ground\n"),
            ("A 0 1 0009", "ok\n"),
            ("T 0 0", "2 4\n"),
            ("T 1 0", "4 6\n"),
            ("T 2 0", "3 4\n"),
            ("T 0 1", "4 4\n"),
            ("T 1 1", "2 6\n"),
            ("T 2 1", "4 4\n"),
            ("S", "no 7\n"),
        ],
    )
}

// Ground that goes up and down, counted by a finger list.
#[test]
fn broken_ground(rt: HostRuntime) -> Result<(), Fail> {
    talk_with_fingers::<i16, 1024, 1027>(
        &rt,
        0,
        &[
            (
                "O 6 5 2 000200010000FFFFFFFEFFFDFFFCFFFBFFFAFFF9FFF8FFF70009000800070006000500040003000200010000FFFFFFFEFFFDFFFCFFFBFFFAFFF9FFF8",
                "ok\n",
            ),
            ("S", "ok 98\n"),
            ("S", "ok 139\n"),
            ("S", "ok 192\n"),
            ("S", "ok 136\n"),
            ("S", "ok 68\n"),
            ("S", "no 7\n"),
            ("T 0 0", "6 9\n"),
            ("T 1 0", "7 12\n"),
            ("T 2 0", "8 15\n"),
            ("T 3 0", "8 15\n"),
            ("T 4 0", "6 12\n"),
            ("T 5 0", "4 9\n"),
            ("T 0 1", "3 12\n"),
            ("T 1 1", "3 16\n"),
            ("T 2 1", "3 20\n"),
            ("T 3 1", "3 20\n"),
            ("T 4 1", "2 16\n"),
            ("T 5 1", "1 12\n"),
            ("T 0 2", "15 15\n"),
            ("T 1 2", "19 20\n"),
            ("T 2 2", "23 25\n"),
            ("T 3 2", "23 25\n"),
            ("T 4 2", "18 20\n"),
            ("T 5 2", "13 15\n"),
            ("T 0 3", "9 12\n"),
            ("T 1 3", "11 16\n"),
            ("T 2 3", "13 20\n"),
            ("T 3 3", "13 20\n"),
            ("T 4 3", "10 16\n"),
            ("T 5 3", "7 12\n"),
            ("T 0 4", "3 9\n"),
            ("T 1 4", "3 12\n"),
            ("T 2 4", "3 15\n"),
            ("T 3 4", "3 15\n"),
            ("T 4 4", "2 12\n"),
            ("T 5 4", "1 9\n"),
        ],
    )
}

// Two heights far apart.
#[test]
fn cliffs(rt: HostRuntime) -> Result<(), Fail> {
    talk_with_fingers::<i16, 1024, 1027>(
        &rt,
        0,
        &[
            (
                "O 5 4 1 80007FFF80007FFF800080007FFF80007FFF800080007FFF80007FFF800080007FFF80007FFF8000",
                "ok\n",
            ),
            ("S", "ok 9\n"),
            ("S", "ok 9\n"),
            ("S", "ok 9\n"),
            ("S", "ok 9\n"),
            ("T 0 0", "2 4\n"),
            ("T 1 0", "6 6\n"),
            ("T 2 0", "2 6\n"),
            ("T 3 0", "6 6\n"),
            ("T 4 0", "2 4\n"),
            ("T 0 1", "3 6\n"),
            ("T 1 1", "9 9\n"),
            ("T 2 1", "3 9\n"),
            ("T 3 1", "9 9\n"),
            ("T 4 1", "3 6\n"),
            ("T 0 2", "3 6\n"),
            ("T 1 2", "9 9\n"),
            ("T 2 2", "3 9\n"),
            ("T 3 2", "9 9\n"),
            ("T 4 2", "3 6\n"),
            ("T 0 3", "2 4\n"),
            ("T 1 3", "6 6\n"),
            ("T 2 3", "2 6\n"),
            ("T 3 3", "6 6\n"),
            ("T 4 3", "2 4\n"),
            ("A 2 2 0000", "ok\n"),
            ("T 0 0", "2 4\n"),
            ("T 1 0", "6 6\n"),
            ("T 2 0", "2 6\n"),
            ("T 3 0", "6 6\n"),
            ("T 4 0", "2 4\n"),
            ("T 0 1", "3 6\n"),
            ("T 1 1", "9 9\n"),
            ("T 2 1", "2 9\n"),
            ("T 3 1", "9 9\n"),
            ("T 4 1", "3 6\n"),
            ("T 0 2", "3 6\n"),
            ("T 1 2", "9 9\n"),
            ("T 2 2", "3 9\n"),
            ("T 3 2", "9 9\n"),
            ("T 4 2", "3 6\n"),
            ("T 0 3", "2 4\n"),
            ("T 1 3", "6 6\n"),
            ("T 2 3", "1 6\n"),
            ("T 3 3", "6 6\n"),
            ("T 4 3", "2 4\n"),
        ],
    )
}

// Heights altered upward and downward in unswept, half swept and swept plans, corners too.
#[test]
fn alter_before_between_and_after(rt: HostRuntime) -> Result<(), Fail> {
    talk_with_array::<i16, 1024, 1027>(
        &rt,
        0,
        &[
            ("A 0 0 0001", "no 1\n"),
            (
                "O 4 4 1 0000000100020003000400050006000700080009000A000B000C000D000E000F",
                "ok\n",
            ),
            ("A 1 1 0064", "ok\n"),
            ("S", "ok 20\n"),
            ("S", "ok 48\n"),
            ("T 0 0", "1 4\n"),
            ("T 1 0", "2 6\n"),
            ("T 2 0", "2 6\n"),
            ("T 3 0", "2 4\n"),
            ("T 0 1", "3 6\n"),
            ("T 1 1", "9 9\n"),
            ("T 2 1", "4 9\n"),
            ("T 3 1", "4 6\n"),
            ("A 1 1 0000", "ok\n"),
            ("T 0 0", "2 4\n"),
            ("T 1 0", "3 6\n"),
            ("T 2 0", "3 6\n"),
            ("T 3 0", "2 4\n"),
            ("T 0 1", "4 6\n"),
            ("T 1 1", "2 9\n"),
            ("T 2 1", "5 9\n"),
            ("T 3 1", "4 6\n"),
            ("A 2 2 FFFF", "ok\n"),
            ("T 0 0", "2 4\n"),
            ("T 1 0", "3 6\n"),
            ("T 2 0", "3 6\n"),
            ("T 3 0", "2 4\n"),
            ("T 0 1", "4 6\n"),
            ("T 1 1", "3 9\n"),
            ("T 2 1", "6 9\n"),
            ("T 3 1", "5 6\n"),
            ("S", "ok 48\n"),
            ("S", "ok 20\n"),
            ("T 0 0", "2 4\n"),
            ("T 1 0", "3 6\n"),
            ("T 2 0", "3 6\n"),
            ("T 3 0", "2 4\n"),
            ("T 0 1", "4 6\n"),
            ("T 1 1", "3 9\n"),
            ("T 2 1", "6 9\n"),
            ("T 3 1", "5 6\n"),
            ("T 0 2", "3 6\n"),
            ("T 1 2", "6 9\n"),
            ("T 2 2", "1 9\n"),
            ("T 3 2", "4 6\n"),
            ("T 0 3", "3 4\n"),
            ("T 1 3", "5 6\n"),
            ("T 2 3", "5 6\n"),
            ("T 3 3", "4 4\n"),
            ("A 0 0 0064", "ok\n"),
            ("T 0 0", "4 4\n"),
            ("T 1 0", "2 6\n"),
            ("T 2 0", "3 6\n"),
            ("T 3 0", "2 4\n"),
            ("T 0 1", "3 6\n"),
            ("T 1 1", "2 9\n"),
            ("T 2 1", "6 9\n"),
            ("T 3 1", "5 6\n"),
            ("T 0 2", "3 6\n"),
            ("T 1 2", "6 9\n"),
            ("T 2 2", "1 9\n"),
            ("T 3 2", "4 6\n"),
            ("T 0 3", "3 4\n"),
            ("T 1 3", "5 6\n"),
            ("T 2 3", "5 6\n"),
            ("T 3 3", "4 4\n"),
            ("A 3 3 8000", "ok\n"),
            ("A 0 3 7FFF", "ok\n"),
            ("A 3 0 0005", "ok\n"),
            ("T 0 0", "4 4\n"),
            ("T 1 0", "2 6\n"),
            ("T 2 0", "3 6\n"),
            ("T 3 0", "2 4\n"),
            ("T 0 1", "3 6\n"),
            ("T 1 1", "2 9\n"),
            ("T 2 1", "6 9\n"),
            ("T 3 1", "5 6\n"),
            ("T 0 2", "3 6\n"),
            ("T 1 2", "6 9\n"),
            ("T 2 2", "2 9\n"),
            ("T 3 2", "5 6\n"),
            ("T 0 3", "4 4\n"),
            ("T 1 3", "4 6\n"),
            ("T 2 3", "6 6\n"),
            ("T 3 3", "1 4\n"),
        ],
    )
}

// A cell altered to the same height, to a level one, and back.
#[test]
fn alter_to_a_level_height(rt: HostRuntime) -> Result<(), Fail> {
    talk_with_array::<i16, 1024, 1027>(
        &rt,
        0,
        &[
            ("O 3 3 2 000100020003000200020002000300020001", "ok\n"),
            ("S", "ok 0\n"),
            ("S", "ok 0\n"),
            ("S", "ok 0\n"),
            ("T 0 0", "2 9\n"),
            ("T 1 0", "7 9\n"),
            ("T 2 0", "9 9\n"),
            ("T 0 1", "7 9\n"),
            ("T 1 1", "7 9\n"),
            ("T 2 1", "7 9\n"),
            ("T 0 2", "9 9\n"),
            ("T 1 2", "7 9\n"),
            ("T 2 2", "2 9\n"),
            ("A 1 1 0002", "ok\n"),
            ("T 0 0", "2 9\n"),
            ("T 1 0", "7 9\n"),
            ("T 2 0", "9 9\n"),
            ("T 0 1", "7 9\n"),
            ("T 1 1", "7 9\n"),
            ("T 2 1", "7 9\n"),
            ("T 0 2", "9 9\n"),
            ("T 1 2", "7 9\n"),
            ("T 2 2", "2 9\n"),
            ("A 0 0 0002", "ok\n"),
            ("T 0 0", "7 9\n"),
            ("T 1 0", "7 9\n"),
            ("T 2 0", "9 9\n"),
            ("T 0 1", "7 9\n"),
            ("T 1 1", "7 9\n"),
            ("T 2 1", "7 9\n"),
            ("T 0 2", "9 9\n"),
            ("T 1 2", "7 9\n"),
            ("T 2 2", "1 9\n"),
            ("A 0 0 0001", "ok\n"),
            ("T 0 0", "2 9\n"),
            ("T 1 0", "7 9\n"),
            ("T 2 0", "9 9\n"),
            ("T 0 1", "7 9\n"),
            ("T 1 1", "7 9\n"),
            ("T 2 1", "7 9\n"),
            ("T 0 2", "9 9\n"),
            ("T 1 2", "7 9\n"),
            ("T 2 2", "2 9\n"),
        ],
    )
}

// Denied alters and shares leave the counts.
#[test]
fn denied_alters(rt: HostRuntime) -> Result<(), Fail> {
    talk_with_array::<i16, 6, 9>(
        &rt,
        0,
        &[
            ("O 3 2 1 000500070007000300050009", "ok\n"),
            ("S", "ok 4\n"),
            ("A 3 0 0001", "no 4\n"),
            ("A 0 2 0001", "no 4\n"),
            ("A 0 0 00", "no 5\n"),
            ("A 0 0 000001", "no 5\n"),
            ("A 0 0 0001000200", "no 5\n"),
            ("T 0 0", "3 4\n"),
            ("T 1 0", "5 6\n"),
            ("H 3 0", "no 4\n"),
            ("H 0 1", "no 9\n"),
            ("H 0 0", "333\n"),
        ],
    )
}

// Shares of the full window, rounded down.
#[test]
fn shares(rt: HostRuntime) -> Result<(), Fail> {
    talk_with_array::<i16, 1024, 1027>(
        &rt,
        0,
        &[
            ("H 0 0", "no 1\n"),
            ("O 3 2 1 000500070007000300050009", "ok\n"),
            ("H 0 0", "no 9\n"),
            ("S", "ok 4\n"),
            ("S", "ok 4\n"),
            ("H 0 0", "333\n"),
            ("H 1 0", "555\n"),
            ("H 2 0", "333\n"),
            ("H 0 1", "111\n"),
            ("H 1 1", "333\n"),
            ("H 2 1", "444\n"),
            ("O 1 1 255 0000", "ok\n"),
            ("S", "ok 0\n"),
            ("H 0 0", "0\n"),
            ("O 2 1 7 00000000", "ok\n"),
            ("S", "ok 0\n"),
            ("H 0 0", "8\n"),
        ],
    )
}
