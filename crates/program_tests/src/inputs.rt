// Runs whose problem is in a file that the words name.
use crate::watched::{Seen, Shelf, assert_failed, assert_reported, run_on, whole_devices};
use std::alloc::{AllocError, Global};
use std::process::Abort;
use std::sync::Wait;
use std::test::Fail;
use std::thread::Threads;
use test_helpers::{Pieces, whole_text};

// A problem on standard input, which these runs don't read.
const STANDARD: &[u8] = b"1 7";

const PROBLEM: &[u8] = b"2 1 2 3 5";

const REPORT: &[u8] = b"sense min\ncost 5\nassign 1 2 2\nassign 2 1 3\nprice 1 14\nprice 2 12\n";

// A run with the words of a line and this file, all in pieces of at most `most` bytes.
fn run_on_file(
    rt: &(impl Threads + Wait + Sync),
    alloc: Global,
    line: &str,
    fails: bool,
    most: usize,
) -> Result<Seen, AllocError> {
    let mut devices = whole_devices(alloc, STANDARD, REPORT, most);
    devices.files = Shelf {
        report: whole_text(REPORT, most),
        problem: Pieces {
            text: PROBLEM,
            most,
            fails,
        },
    };
    run_on(rt, alloc, line, devices)
}

// The run read nothing from standard input.
fn assert_left_alone(rt: &impl Abort, seen: &Seen) {
    assert_eq!(rt; seen.left, STANDARD.len());
}

#[test]
fn problems_in_files(rt: HostRuntime) -> Result<(), Fail> {
    let least = "sense min\ncost 5\nassign 1 2 2\nassign 2 1 3\n";
    let table = [
        ("solve --input problem", least),
        ("solve --method paths --input=problem", least),
        ("solve --start report --input problem", least),
        (
            "solve --input problem --max",
            "sense max\ncost 6\nassign 1 1 1\nassign 2 2 5\n",
        ),
        ("verify --input problem report", "verified cost 5\n"),
        ("verify report --input=problem", "verified cost 5\n"),
    ];
    for (line, out) in table {
        for most in [1, 65536] {
            let seen = run_on_file(&rt, rt.alloc(), line, false, most)?;
            assert_reported(&rt, &seen, 0, out);
            assert_left_alone(&rt, &seen);
        }
    }
    Ok(())
}

// The words are judged first. Then the report is opened, and then the problem's file; nothing is
// read before.
#[test]
fn files_that_cannot_be_read(rt: HostRuntime) -> Result<(), Fail> {
    let no_report = "device: cannot open the report\n";
    let no_input = "device: cannot open the input\n";
    let refused = "memory refused\n";
    let table = [
        ("solve --input none", 4, no_input),
        ("solve --input=", 4, no_input),
        ("solve --input refused", 4, refused),
        ("solve --start report --input none", 4, no_input),
        ("solve --start none --input none", 4, no_report),
        ("solve --start none --input refused", 4, no_report),
        ("solve --start refused --input none", 4, refused),
        ("verify --input none report", 4, no_input),
        ("verify --input refused report", 4, refused),
        ("verify --input none none", 4, no_report),
        ("verify --input problem none", 4, no_report),
        ("verify --input none refused", 4, refused),
        ("solve --input problem", 4, "device: read failed\n"),
        ("verify --input problem report", 4, "device: read failed\n"),
        (
            "solve --sparse --input report",
            3,
            "input: bad number at byte 0\n",
        ),
        (
            "solve --mode round --input none",
            2,
            "usage: mode is rounds or workers\n",
        ),
        (
            "verify --sense most --input none none",
            2,
            "usage: sense is min or max\n",
        ),
    ];
    for (line, status, told) in table {
        let seen = run_on_file(&rt, rt.alloc(), line, true, 2)?;
        assert_failed(&rt, &seen, status, told);
        assert_left_alone(&rt, &seen);
    }
    Ok(())
}
