// Runs that fail, with their expected lines and statuses.
use crate::starts::TWO;
use crate::watched::{assert_failed, leaves, run_on, run_with, watched_run, whole_devices};
use assign_core::{Object, Person};
use auction_command::{CliFault, NoWords, Outputs, status_of};
use orlib_reader::InputFault;
use report::{ReportFault, StartFault};
use std::alloc::{AllocError, Global};
use std::process::Abort;
use std::sync::Wait;
use std::test::Fail;
use std::thread::Threads;
use test_helpers::failing_writer;

// The words of a run, the problem, the report for the first prices, and the line that refuses one of
// the two.
type Refused = (&'static str, &'static [u8], &'static [u8], &'static str);

const REFUSED: [Refused; 22] = [
    ("solve", b"", b"", "input: empty\n"),
    ("solve", b" \t\r\n\x0b\x0c", b"", "input: empty\n"),
    ("solve", b"8193 1", b"", "input: size out of range\n"),
    ("solve", b"0", b"", "input: size out of range\n"),
    ("solve", b"x", b"", "input: bad number at byte 0\n"),
    ("solve", b"1 3.0", b"", "input: bad number at byte 2\n"),
    (
        "solve",
        b"1 1000000000001",
        b"",
        "input: cost out of range at byte 2\n",
    ),
    ("solve", b"2 1 2", b"", "input: truncated after 3 numbers\n"),
    (
        "solve",
        b"2 1 2 3",
        b"",
        "input: truncated after 4 numbers\n",
    ),
    ("solve", b"1 7 8", b"", "input: extra data at byte 4\n"),
    ("solve", b"1 7 x", b"", "input: extra data at byte 4\n"),
    (
        "solve --sparse",
        b"2 1 1 5 2 1",
        b"",
        "input: truncated after 6 numbers\n",
    ),
    (
        "solve --sparse",
        b"2 3 1 5",
        b"",
        "input: index out of range at byte 2\n",
    ),
    (
        "solve --start report",
        b"1 7",
        b"sense min\ncost 7\nassign 1 1 7\nprice 1 1000000000000000000001\n",
        "start: price of object 1 too great\n",
    ),
    (
        "solve --start report",
        b"2 1 2 3 5",
        b"sense min\ncost 6\nassign 1 1 2\nassign 2 2 2\nassign 3 3 2\nprice 1 1\nprice 2 1\nprice 3 2\n",
        "start: 3 prices\n",
    ),
    ("solve --start report", b"1 7", TWO, "start: 2 prices\n"),
    (
        "solve --start report",
        b"2 1 2 3 5",
        b"sense min\ninfeasible\npersons 2 1 2\nobjects 1 1\n",
        "start: no prices\n",
    ),
    (
        "solve --start report",
        b"2 1 2 3 5",
        b"sense min\ncost 5\nassign 1 2 2\nassign 2 1 3\n",
        "start: no prices\n",
    ),
    (
        "solve --start report",
        b"2 1 2 3 5",
        b"cost 5\nass",
        "report: bad line 2\n",
    ),
    (
        "solve --start report",
        b"2 1 2 3 5",
        b"",
        "report: ends before line 1\n",
    ),
    (
        "solve --start report",
        b"2 1 2 3",
        b"cost 5\nass",
        "input: truncated after 4 numbers\n",
    ),
    (
        "solve --start report",
        b"2 1 2 3",
        TWO,
        "input: truncated after 4 numbers\n",
    ),
];

// Both methods refuse the same texts, in bytes and at once.
#[test]
fn refused_texts(rt: HostRuntime) -> Result<(), Fail> {
    let runs = [
        ("", 1),
        ("", 65536),
        (" --method auction", 100),
        (" --method paths", 100),
    ];
    for (words, text, report, fault) in REFUSED {
        for (method, most) in runs {
            let line = format!(in rt.alloc(); "{words}{method}")?;
            let seen = run_with(&rt, rt.alloc(), line.as_str(), text, report, most)?;
            assert_failed(&rt, &seen, 3, fault);
        }
    }
    Ok(())
}

#[test]
fn input_that_fails(rt: HostRuntime) -> Result<(), Fail> {
    let alloc = rt.alloc();
    let texts: [&[u8]; 3] = [b"", b"2 1 2", b"2 1 2 3 5"];
    for text in texts {
        let mut devices = whole_devices(alloc, text, b"", 2);
        devices.input.fails = true;
        let seen = run_on(&rt, alloc, "solve", devices)?;
        assert_failed(&rt, &seen, 4, "device: read failed\n");
    }
    Ok(())
}

// The report is opened before the problem is read, and read after it.
#[test]
fn reports_that_cannot_be_read(rt: HostRuntime) -> Result<(), Fail> {
    let alloc = rt.alloc();
    let unopened = "device: cannot open the report\n";
    let cut_off = "input: truncated after 2 numbers\n";
    let two: &[u8] = b"2 1 2 3 5";
    let table: [(&str, &[u8], u8, &str); 11] = [
        ("verify none", b"x", 4, unopened),
        ("verify refused", b"x", 4, "memory refused\n"),
        ("verify report", b"x", 3, "input: bad number at byte 0\n"),
        ("verify report", two, 4, "device: read failed\n"),
        ("verify ", b"x", 4, unopened),
        ("verify report --sparse", b"2 1", 3, cut_off),
        ("solve --start none", b"x", 4, unopened),
        ("solve --start refused", b"x", 4, "memory refused\n"),
        (
            "solve --start report",
            b"x",
            3,
            "input: bad number at byte 0\n",
        ),
        ("solve --start report", two, 4, "device: read failed\n"),
        ("solve --sparse --start=report", b"2 1", 3, cut_off),
    ];
    for (line, text, status, told) in table {
        let mut devices = whole_devices(alloc, text, b"cost 5\nass", 2);
        devices.files.report.fails = true;
        let seen = run_on(&rt, alloc, line, devices)?;
        assert_failed(&rt, &seen, status, told);
    }
    Ok(())
}

// Whether a run with room for only these bytes writes just them, and reports that the write failed.
fn is_cut_off(
    rt: &(impl Threads + Wait + Sync),
    alloc: Global,
    line: &str,
    front: &[u8],
    most: usize,
    fails: bool,
) -> Result<bool, AllocError> {
    let mut devices = whole_devices(
        alloc,
        b"2 1 2 3 5",
        b"infeasible\npersons 1 1\nobjects 0\n",
        100,
    );
    devices.outputs = Outputs {
        output: failing_writer(alloc, front.len(), most, fails),
        errors: failing_writer(alloc, 1 << 20, 100, true),
    };
    let seen = run_on(rt, alloc, line, devices)?;
    Ok(leaves(&seen, 4, front, b"device: write failed\n"))
}

// With room for fewer bytes than the text has, just its beginning is written.
fn assert_cut_off(
    rt: &(impl Threads + Wait + Sync + Abort + AllocGlobal),
    line: &str,
    text: &[u8],
) -> Result<(), Fail> {
    for room in 0..text.len() {
        let (front, _) = text.split_at(room);
        for (most, fails) in [(1, true), (1, false), (100, true), (100, false)] {
            assert!(rt;
                is_cut_off(rt, rt.alloc(), line, front, most, fails)?,
                "{line}"
            );
        }
    }
    Ok(())
}

#[test]
fn output_that_fails(rt: HostRuntime) -> Result<(), Fail> {
    assert_cut_off(
        &rt,
        "solve --prices",
        b"sense min\ncost 5\nassign 1 2 2\nassign 2 1 3\nprice 1 14\nprice 2 12\n",
    )?;
    assert_cut_off(
        &rt,
        "verify report",
        b"not verified: object 1 missing for person 1\n",
    )?;
    assert_cut_off(&rt, "--help", b"Solve as")
}

// Whether a run with room for only these bytes on standard error writes just them, and has this
// status.
fn is_written_in_part(
    rt: &(impl Threads + Wait + Sync),
    alloc: Global,
    line: &str,
    status: u8,
    front: &[u8],
) -> Result<bool, AllocError> {
    let mut devices = whole_devices(alloc, b"x", b"", 100);
    devices.outputs = Outputs {
        output: failing_writer(alloc, 1 << 20, 100, true),
        errors: failing_writer(alloc, front.len(), 3, false),
    };
    let seen = run_on(rt, alloc, line, devices)?;
    Ok(leaves(&seen, status, b"", front) && !seen.whole)
}

// If standard error fails, the status stays the same.
#[test]
fn errors_that_fail(rt: HostRuntime) -> Result<(), Fail> {
    let table: [(&str, u8, &[u8]); 4] = [
        ("solve", 3, b"input: bad"),
        ("verify", 2, b"error: the"),
        ("verify none", 4, b"device: ca"),
        ("solve --fast", 2, b"error: une"),
    ];
    for (line, status, start) in table {
        for room in [0, 10] {
            let (front, _) = start.split_at(room);
            assert!(rt;
                is_written_in_part(&rt, rt.alloc(), line, status, front)?,
                "{line}"
            );
        }
    }
    Ok(())
}

#[test]
fn no_words(rt: HostRuntime) -> Result<(), Fail> {
    let alloc = rt.alloc();
    let table = [
        (NoWords::NoText, 2, "error: the words are no text\n"),
        (NoWords::Memory, 4, "memory refused\n"),
    ];
    for (none, status, line) in table {
        let devices = whole_devices(alloc, b"1 7", b"", 100);
        let seen = watched_run(&rt, alloc, Err(none), devices);
        assert_failed(&rt, &seen, status, line);
    }
    Ok(())
}

// Whether a fault has this status and this line.
fn has_line(alloc: Global, fault: &CliFault, status: u8, line: &str) -> Result<bool, AllocError> {
    let text = format!(in alloc; "{fault}")?;
    Ok(status_of(fault) == status && text.as_str() == line)
}

#[test]
fn lines_of_faults(rt: HostRuntime) -> Result<(), Fail> {
    let great = StartFault::Price(Object(7));
    let table = [
        (CliFault::Input(InputFault::Empty), 3, "input: empty"),
        (
            CliFault::Input(InputFault::BadToken(12)),
            3,
            "input: bad number at byte 12",
        ),
        (
            CliFault::Input(InputFault::Size),
            3,
            "input: size out of range",
        ),
        (
            CliFault::Input(InputFault::Cost(7)),
            3,
            "input: cost out of range at byte 7",
        ),
        (
            CliFault::Input(InputFault::Index(7)),
            3,
            "input: index out of range at byte 7",
        ),
        (
            CliFault::Input(InputFault::Truncated(3)),
            3,
            "input: truncated after 3 numbers",
        ),
        (
            CliFault::Input(InputFault::Extra(9)),
            3,
            "input: extra data at byte 9",
        ),
        (
            CliFault::Input(InputFault::TooLong),
            3,
            "input: longer than 1073741824 bytes",
        ),
        (CliFault::Input(InputFault::Read), 4, "device: read failed"),
        (CliFault::Input(InputFault::Memory), 4, "memory refused"),
        (
            CliFault::Report(ReportFault::Line(12)),
            3,
            "report: bad line 12",
        ),
        (
            CliFault::Report(ReportFault::TooLong),
            3,
            "report: longer than 1048576 bytes",
        ),
        (
            CliFault::Report(ReportFault::Ends(7)),
            3,
            "report: ends before line 7",
        ),
        (
            CliFault::Report(ReportFault::Read),
            4,
            "device: read failed",
        ),
        (CliFault::Report(ReportFault::Memory), 4, "memory refused"),
        (CliFault::Start(StartFault::NoPrices), 3, "start: no prices"),
        (
            CliFault::Start(StartFault::Length(12)),
            3,
            "start: 12 prices",
        ),
        (
            CliFault::Start(great),
            3,
            "start: price of object 7 too great",
        ),
        (CliFault::Write, 4, "device: write failed"),
        (CliFault::Memory, 4, "memory refused"),
        (CliFault::Stuck(Person(12)), 5, "stuck at person 12"),
    ];
    for (fault, status, line) in &table {
        assert!(rt; has_line(rt.alloc(), fault, *status, line)?, "{line}");
    }
    Ok(())
}
