// Command lines, with the statuses and the first lines that they give.
use crate::watched::{assert_begins, assert_words_refused, run_with, watched_run, whole_devices};
use std::test::Fail;

// Valid in both layouts.
const TEXT: &[u8] = b"3 1 1 3 2 2 3 3 3 3";

const REPORT: &[u8] =
    b"sense max\ncost 9\nassign 1 1 3\nassign 2 2 3\nassign 3 3 3\nprice 1 0\nprice 2 0\nprice 3 0\n";

const HELP: &str =
    "Solve assignment problems and check reports; the problem comes on standard input";

const SOLVE_HELP: &str =
    "Read a problem from standard input, and write a best assignment or why there is none";

const VERIFY_HELP: &str = "Read a problem from standard input, and check a report on it";

// None of these end in refused memory, which no clause rules out.
#[test]
fn lines_that_are_taken(rt: HostRuntime) -> Result<(), Fail> {
    let slack = "not verified: slack of person 1 at object 3";
    let table = [
        ("solve", 0, "sense min"),
        ("solve --sparse", 0, "sense min"),
        ("solve --prices --max", 0, "sense max"),
        ("solve --progress", 0, "sense min"),
        ("solve --start report", 0, "sense min"),
        ("solve --start=report --max", 0, "sense max"),
        ("verify report", 5, slack),
        ("verify --sparse report", 0, "verified max cost 9"),
        ("verify report --sparse", 0, "verified max cost 9"),
        ("verify -- report", 5, slack),
        (
            "verify --sparse --sense max report",
            0,
            "verified max cost 9",
        ),
        ("verify report --sense=min", 5, "not verified: sense"),
        ("--help", 0, HELP),
        ("solve --help", 0, SOLVE_HELP),
        ("verify --help", 0, VERIFY_HELP),
        ("help verify", 0, VERIFY_HELP),
        ("--version", 0, "auction_cli 5.13.0"),
        ("--version solve", 0, "auction_cli 5.13.0"),
    ];
    for (line, status, out) in table {
        let seen = run_with(&rt, rt.alloc(), line, TEXT, REPORT, 100)?;
        assert_begins(&rt, &seen, status, out, "");
    }
    Ok(())
}

#[test]
fn lines_that_are_refused(rt: HostRuntime) -> Result<(), Fail> {
    let mode = "usage: mode is rounds or workers";
    let table = [
        ("solve --mode round", mode),
        ("solve --mode=", mode),
        ("solve --mode Workers --workers 64", mode),
        ("solve --method paths --mode round", mode),
        (
            "solve --mode rounds --mode rounds",
            "error: the argument '--mode <MODE>' cannot be used multiple times",
        ),
        (
            "solve --workers 0",
            "error: invalid value '0' for '--workers <K>': 0 is not in 1..=64",
        ),
        (
            "solve --workers=65 --mode=rounds",
            "error: invalid value '65' for '--workers <K>': 65 is not in 1..=64",
        ),
        (
            "solve --workers four",
            "error: invalid value 'four' for '--workers <K>': invalid digit found in string",
        ),
        (
            "solve --method paths --workers 0",
            "error: invalid value '0' for '--workers <K>': 0 is not in 1..=64",
        ),
        (
            "solve --refresh 1000001",
            "error: invalid value '1000001' for '--refresh <R>': 1000001 is not in 0..=1000000",
        ),
        (
            "solve --method paths --refresh 1000001",
            "error: invalid value '1000001' for '--refresh <R>': 1000001 is not in 0..=1000000",
        ),
        (
            "solve --method path",
            "error: invalid value 'path' for '--method <METHOD>'",
        ),
        (
            "solve --method Paths",
            "error: invalid value 'Paths' for '--method <METHOD>'",
        ),
        (
            "solve --method=rounds",
            "error: invalid value 'rounds' for '--method <METHOD>'",
        ),
        (
            "solve --method=",
            "error: a value is required for '--method <METHOD>' but none was supplied",
        ),
        (
            "solve --method paths --method paths",
            "error: the argument '--method <METHOD>' cannot be used multiple times",
        ),
        (
            "verify --method paths report",
            "error: unexpected argument '--method' found",
        ),
        (
            "solve --start",
            "error: a value is required for '--start <REPORT>' but none was supplied",
        ),
        (
            "solve --start a --start b",
            "error: the argument '--start <REPORT>' cannot be used multiple times",
        ),
        (
            "solve --input",
            "error: a value is required for '--input <FILE>' but none was supplied",
        ),
        (
            "verify --input a report --input b",
            "error: the argument '--input <FILE>' cannot be used multiple times",
        ),
        (
            "solve --sparse=yes",
            "error: unexpected value 'yes' for '--sparse' found; no more were expected",
        ),
        (
            "",
            "error: 'auction_cli' requires a subcommand but one was not provided",
        ),
        (
            "verify",
            "error: the following required arguments were not provided:",
        ),
        (
            "verify report report",
            "error: unexpected argument 'report' found",
        ),
        (
            "verify --max report",
            "error: unexpected argument '--max' found",
        ),
        ("verify --sense most report", "usage: sense is min or max"),
        (
            "verify report --sense",
            "error: a value is required for '--sense <SENSE>' but none was supplied",
        ),
        (
            "solve --progress=no",
            "error: unexpected value 'no' for '--progress' found; no more were expected",
        ),
        (
            "verify --progress report",
            "error: unexpected argument '--progress' found",
        ),
        (
            "solve --sense min",
            "error: unexpected argument '--sense' found",
        ),
        ("solve --fast", "error: unexpected argument '--fast' found"),
        ("--fast solve", "error: unexpected argument '--fast' found"),
        ("-V", "error: unexpected argument '-V' found"),
        (
            "solve --version",
            "error: unexpected argument '--version' found",
        ),
    ];
    for (line, errors) in table {
        let seen = run_with(&rt, rt.alloc(), line, TEXT, REPORT, 100)?;
        assert_words_refused(&rt, &seen, errors);
    }
    Ok(())
}

const FILE_HINT: &[u8] = b"\n\nTo read the problem from a file, write '--input' before its name.\n";

// A hint at the option follows clap's words if one of the words may be the problem's file.
#[test]
fn a_file_without_its_option(rt: HostRuntime) -> Result<(), Fail> {
    for (line, is_hinted) in [
        ("solve costs.txt", true),
        ("solve --max costs.txt --prices", true),
        ("verify report costs.txt", true),
        ("solve --fast", false),
        ("solve --input", false),
        ("costs.txt", false),
        ("verify", false),
    ] {
        let seen = run_with(&rt, rt.alloc(), line, TEXT, REPORT, 100)?;
        assert_eq!(rt; seen.status, 2);
        assert!(rt;
            seen.errors.as_slice().ends_with(FILE_HINT) == is_hinted,
            "{line}"
        );
    }
    Ok(())
}

// The length of the longest line.
fn width(text: &[u8]) -> usize {
    let (mut most, mut columns) = (0usize, 0usize);
    for byte in text {
        columns = if *byte == b'\n' {
            0
        } else {
            columns.saturating_add(1)
        };
        most = most.max(columns);
    }
    most
}

#[test]
fn help_has_short_lines(rt: HostRuntime) -> Result<(), Fail> {
    for line in ["--help", "solve --help", "verify --help"] {
        let seen = run_with(&rt, rt.alloc(), line, TEXT, REPORT, 100)?;
        let columns = width(seen.out.as_slice());
        assert!(rt; columns > 50 && columns <= 100, "{line}: {columns}");
    }
    Ok(())
}

// The program's own name may be any text.
#[test]
fn no_name(rt: HostRuntime) -> Result<(), Fail> {
    let words = Vec::from_slice(rt.alloc(), &["", "solve", "--sparse", "--max"])?;
    let devices = whole_devices(rt.alloc(), TEXT, REPORT, 100);
    let seen = watched_run(&rt, rt.alloc(), Ok(words), devices);
    assert_begins(&rt, &seen, 0, "sense max", "");
    Ok(())
}
