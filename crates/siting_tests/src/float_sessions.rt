//! Sessions over float heights.
use crate::talk::{talk_with_array, talk_with_fingers};
use heights::float::FloatBits;
use std::test::Fail;

// The two zeros are level; the smallest numbers beside them are not.
#[test]
fn both_zeros(rt: HostRuntime) -> Result<(), Fail> {
    talk_with_array::<FloatBits, 1024, 1027>(
        &rt,
        FloatBits { bits: 0 },
        &[
            ("O 3 1 1 000000008000000000000000", "ok\n"),
            ("S", "ok 0\n"),
            ("T 0 0", "2 2\n"),
            ("T 1 0", "3 3\n"),
            ("T 2 0", "2 2\n"),
            ("N 0 0", "no higher ground\n"),
            ("N 1 0", "no higher ground\n"),
            ("N 2 0", "no higher ground\n"),
            ("O 3 1 1 800000000000000180000001", "ok\n"),
            ("S", "ok 3\n"),
            ("T 0 0", "1 2\n"),
            ("T 1 0", "3 3\n"),
            ("T 2 0", "1 2\n"),
            ("N 0 0", "1 0 1\n"),
            ("N 1 0", "no higher ground\n"),
            ("N 2 0", "1 0 1\n"),
        ],
    )
}

// Floats from the lowest to the highest, in reading order.
#[test]
fn order_of_floats(rt: HostRuntime) -> Result<(), Fail> {
    talk_with_array::<FloatBits, 1024, 1027>(
        &rt,
        FloatBits { bits: 0 },
        &[
            (
                "O 4 2 2 FF7FFFFFC2C80000BF80000080000001000000013F80000042C800007F7FFFFF",
                "ok\n",
            ),
            ("S", "ok 18\n"),
            ("S", "ok 18\n"),
            ("T 0 0", "1 6\n"),
            ("T 1 0", "2 8\n"),
            ("T 2 0", "3 8\n"),
            ("T 3 0", "3 6\n"),
            ("T 0 1", "4 6\n"),
            ("T 1 1", "6 8\n"),
            ("T 2 1", "7 8\n"),
            ("T 3 1", "6 6\n"),
            ("N 0 0", "1 0 1\n"),
            ("N 1 0", "2 0 1\n"),
            ("N 2 0", "3 0 1\n"),
            ("N 3 0", "3 1 1\n"),
            ("N 0 1", "1 1 1\n"),
            ("N 1 1", "2 1 1\n"),
            ("N 2 1", "3 1 1\n"),
            ("N 3 1", "no higher ground\n"),
        ],
    )
}

// Infinities and NaNs are denied with the first such cell; the plan before stands.
#[test]
fn unreadable_floats(rt: HostRuntime) -> Result<(), Fail> {
    talk_with_array::<FloatBits, 1024, 1027>(
        &rt,
        FloatBits { bits: 0 },
        &[
            ("O 2 2 1 00000000000000007F800000FF800000", "no 6 0 1\n"),
            ("O 2 2 1 00000000FF8000000000000000000000", "no 6 1 0\n"),
            ("O 2 2 1 7FC00000000000000000000000000000", "no 6 0 0\n"),
            ("O 2 2 1 0000000000000000000000007F800001", "no 6 1 1\n"),
            ("O 2 2 1 000000000000000000000000FFFFFFFF", "no 6 1 1\n"),
            ("N 0 0", "no 1\n"),
            ("O 2 2 1 0000000000000000000000007F7FFFFF", "ok\n"),
            ("N 0 0", "1 1 2\n"),
            ("O 2 2 1 0000", "no 5\n"),
            ("O 2 2 1 7F8000000000000000000000", "no 5\n"),
            ("N 0 0", "1 1 2\n"),
        ],
    )
}

// Float heights with both zeros, counted by a finger list.
#[test]
fn fingers_over_floats(rt: HostRuntime) -> Result<(), Fail> {
    talk_with_fingers::<FloatBits, 1024, 1027>(
        &rt,
        FloatBits { bits: 0 },
        &[
            (
                "O 4 3 1 00000000BF8000008000000042C800003F80000000000000BF8000008000000042C800003F80000000000000BF800000",
                "ok\n",
            ),
            ("S", "ok 10\n"),
            ("S", "ok 16\n"),
            ("S", "ok 10\n"),
            ("T 0 0", "3 4\n"),
            ("T 1 0", "2 6\n"),
            ("T 2 0", "5 6\n"),
            ("T 3 0", "4 4\n"),
            ("T 0 1", "5 6\n"),
            ("T 1 1", "6 9\n"),
            ("T 2 1", "3 9\n"),
            ("T 3 1", "5 6\n"),
            ("T 0 2", "4 4\n"),
            ("T 1 2", "5 6\n"),
            ("T 2 2", "5 6\n"),
            ("T 3 2", "2 4\n"),
            ("A 1 1 80000000", "ok\n"),
            ("T 0 0", "3 4\n"),
            ("T 1 0", "2 6\n"),
            ("T 2 0", "5 6\n"),
            ("T 3 0", "4 4\n"),
            ("T 0 1", "5 6\n"),
            ("T 1 1", "6 9\n"),
            ("T 2 1", "3 9\n"),
            ("T 3 1", "5 6\n"),
            ("T 0 2", "4 4\n"),
            ("T 1 2", "5 6\n"),
            ("T 2 2", "5 6\n"),
            ("T 3 2", "2 4\n"),
            ("A 1 1 7F800000", "no 6 1 1\n"),
            ("A 1 1 7FC00001", "no 6 1 1\n"),
            ("A 1 1 00", "no 5\n"),
            ("T 1 1", "6 9\n"),
        ],
    )
}
