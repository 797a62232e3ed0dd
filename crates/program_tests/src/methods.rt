// Runs by shortest paths.
use crate::reports::Worked;
use crate::starts::{TWO, neighbours_of, report_of};
use crate::watched::run_with;
use std::alloc::{AllocError, Global};
use std::sync::Wait;
use std::test::Fail;
use std::thread::Threads;

// Prices that differ by 6: person 1 would pay up to 3 more for object 1, and person 2 up to 6.
const APART: &[u8] = b"sense min\ncost 5\nassign 1 2 2\nassign 2 1 3\nprice 1 306\nprice 2 300\n";

/// Each has only one answer, except for its prices; the options of the auction are read and not
/// used. The last three show by their prices the method that answered and where it began: an auction
/// ends at 14 and 12. Prices by shortest paths are multiples of one more than the number of persons,
/// at which each own object has the best value. First prices at which each person has a best object
/// of its own stay, except for what all of them have in common.
pub const BY_PATHS: [Worked; 11] = [
    (
        "solve --method paths",
        b"1 7",
        TWO,
        0,
        "sense min\ncost 7\nassign 1 1 7\n",
    ),
    (
        "solve --method paths",
        b"2 1 2 3 5",
        TWO,
        0,
        "sense min\ncost 5\nassign 1 2 2\nassign 2 1 3\n",
    ),
    (
        "solve --method paths --max --mode workers",
        b"2 1 2 3 5",
        TWO,
        0,
        "sense max\ncost 6\nassign 1 1 1\nassign 2 2 5\n",
    ),
    (
        "solve --method paths --start report",
        b"2 1 2 3 5",
        TWO,
        0,
        "sense min\ncost 5\nassign 1 2 2\nassign 2 1 3\n",
    ),
    (
        "solve --method paths --workers 64 --refresh 0",
        b"2 1000000000000 -1000000000000 -1000000000000 1000000000000",
        TWO,
        0,
        "sense min\ncost -2000000000000\nassign 1 2 -1000000000000\nassign 2 1 -1000000000000\n",
    ),
    (
        "solve --method paths --sparse",
        b"3 1 1 4 2 1 6 3 2 1 3 3 2",
        TWO,
        1,
        "sense min\ninfeasible\npersons 2 1 2\nobjects 1 1\n",
    ),
    (
        "solve --method paths --sparse --prices",
        b"3",
        TWO,
        1,
        "sense min\ninfeasible\npersons 1 1\nobjects 0\n",
    ),
    (
        "solve --method paths --sparse --max",
        b"2 1 1 9 1 1 3 1 2 4 2 1 5 2 2 8",
        TWO,
        0,
        "sense max\ncost 11\nassign 1 1 3\nassign 2 2 8\n",
    ),
    (
        "solve --prices --method auction",
        b"2 1 2 3 5",
        APART,
        0,
        "sense min\ncost 5\nassign 1 2 2\nassign 2 1 3\nprice 1 14\nprice 2 12\n",
    ),
    (
        "solve --prices --method paths",
        b"2 1 2 3 5",
        APART,
        0,
        "sense min\ncost 5\nassign 1 2 2\nassign 2 1 3\nprice 1 3\nprice 2 0\n",
    ),
    (
        "solve --prices --method paths --start report",
        b"2 1 2 3 5",
        APART,
        0,
        "sense min\ncost 5\nassign 1 2 2\nassign 2 1 3\nprice 1 6\nprice 2 0\n",
    ),
];

// Whether two runs of a line on one text write the same report, which is verified.
fn writes_the_same(
    rt: &(impl Threads + Wait + Sync),
    alloc: Global,
    line: &str,
    text: &[u8],
) -> Result<bool, AllocError> {
    let first = report_of(rt, alloc, line, text, b"")?;
    let second = report_of(rt, alloc, line, text, b"")?;
    let seen = run_with(rt, alloc, "verify report", text, first.as_slice(), 4096)?;
    Ok(first.as_slice() == second.as_slice() && seen.status == 0)
}

#[test]
fn the_same_bytes_twice(rt: HostRuntime) -> Result<(), Fail> {
    let mut seed: u64 = 29;
    for _ in 0..50 {
        let (text, _) = neighbours_of(rt.alloc(), &mut seed)?;
        for line in [
            "solve --prices --method paths",
            "solve --prices --method paths --max",
        ] {
            assert!(rt; writes_the_same(&rt, rt.alloc(), line, text.as_bytes())?);
        }
    }
    Ok(())
}
