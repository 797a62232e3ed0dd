// Texts with their expected reports and statuses.
use crate::methods::BY_PATHS;
use crate::starts::FROM_REPORTS;
use crate::texts::problem_in;
use crate::watched::{assert_reported, run_with};
use assign_core::Sense;
use std::alloc::{AllocError, Global};
use std::process::Abort;
use std::sync::Wait;
use std::test::Fail;
use std::thread::Threads;
use test_helpers::{next_number, plain_best};

/// The words of a run, the problem, the report that is named `report`, and the expected status and
/// report.
pub type Worked = (&'static str, &'static [u8], &'static [u8], u8, &'static str);

const ROSTER: &[u8] = b"3 1 1 4 2 1 6 3 2 1 3 3 2";

// The pair that is given twice counts once, at 3.
const TWICE: &[u8] = b"2 1 1 9 1 1 3 1 2 4 2 1 5 2 2 8";

const LEAST_OF_TWO: &str = "sense min\ncost 5\nassign 1 2 2\nassign 2 1 3\n";

const REPORTS: [Worked; 21] = [
    ("solve", b"1 7", b"", 0, "sense min\ncost 7\nassign 1 1 7\n"),
    (
        "solve",
        b"1 -7",
        b"",
        0,
        "sense min\ncost -7\nassign 1 1 -7\n",
    ),
    ("solve", b"1 0", b"", 0, "sense min\ncost 0\nassign 1 1 0\n"),
    ("solve", b"2 1 2 3 5", b"", 0, LEAST_OF_TWO),
    (
        "solve",
        b"02\r\n\t1\n\n002\n+3\n\x0c\n\x0b5\n\n",
        b"",
        0,
        LEAST_OF_TWO,
    ),
    (
        "solve",
        b"1 1000000000000",
        b"",
        0,
        "sense min\ncost 1000000000000\nassign 1 1 1000000000000\n",
    ),
    (
        "solve",
        b"1 -1000000000000",
        b"",
        0,
        "sense min\ncost -1000000000000\nassign 1 1 -1000000000000\n",
    ),
    (
        "solve --prices",
        b"1 7",
        b"",
        0,
        "sense min\ncost 7\nassign 1 1 7\nprice 1 1\n",
    ),
    (
        "solve --prices",
        b"2 1 2 3 5",
        b"",
        0,
        "sense min\ncost 5\nassign 1 2 2\nassign 2 1 3\nprice 1 14\nprice 2 12\n",
    ),
    (
        "solve --prices",
        b"3 2 2 2 2 2 2 2 2 2",
        b"",
        0,
        "sense min\ncost 6\nassign 1 1 2\nassign 2 2 2\nassign 3 3 2\nprice 1 1\nprice 2 1\nprice 3 2\n",
    ),
    (
        "solve --prices",
        b"2 1000000 -1000000 -1000000 1000000",
        b"",
        0,
        "sense min\ncost -2000000\nassign 1 2 -1000000\nassign 2 1 -1000000\nprice 1 61499999\nprice 2 61499999\n",
    ),
    (
        "solve --prices",
        b"2 1000000000000 -1000000000000 -1000000000000 1000000000000",
        b"",
        0,
        "sense min\ncost -2000000000000\nassign 1 2 -1000000000000\nassign 2 1 -1000000000000\n\
         price 1 109499999999997\nprice 2 109499999999997\n",
    ),
    (
        "solve --max",
        b"1 7",
        b"",
        0,
        "sense max\ncost 7\nassign 1 1 7\n",
    ),
    (
        "solve --max",
        b"2 1 2 3 5",
        b"",
        0,
        "sense max\ncost 6\nassign 1 1 1\nassign 2 2 5\n",
    ),
    (
        "solve --max --prices",
        b"2 1 2 3 5",
        b"",
        0,
        "sense max\ncost 6\nassign 1 1 1\nassign 2 2 5\nprice 1 12\nprice 2 14\n",
    ),
    (
        "solve --sparse",
        ROSTER,
        b"",
        1,
        "sense min\ninfeasible\npersons 2 1 2\nobjects 1 1\n",
    ),
    (
        "solve --sparse",
        b"2 1 1 5 1 2 6",
        b"",
        1,
        "sense min\ninfeasible\npersons 1 2\nobjects 0\n",
    ),
    (
        "solve --sparse",
        b"3",
        b"",
        1,
        "sense min\ninfeasible\npersons 1 1\nobjects 0\n",
    ),
    (
        "solve --sparse --max",
        ROSTER,
        b"",
        1,
        "sense max\ninfeasible\npersons 2 1 2\nobjects 1 1\n",
    ),
    (
        "solve --sparse",
        TWICE,
        b"",
        0,
        "sense min\ncost 9\nassign 1 2 4\nassign 2 1 5\n",
    ),
    (
        "solve --sparse --max",
        TWICE,
        b"",
        0,
        "sense max\ncost 11\nassign 1 1 3\nassign 2 2 8\n",
    ),
];

// Runs in bytes and at once end with these statuses and reports.
fn assert_reports(
    rt: &(impl Threads + Wait + Sync + Abort + AllocGlobal),
    table: &[Worked],
) -> Result<(), Fail> {
    for (line, text, report, status, out) in table {
        for most in [1, 65536] {
            let seen = run_with(rt, rt.alloc(), line, text, report, most)?;
            assert_reported(rt, &seen, *status, out);
        }
    }
    Ok(())
}

#[test]
fn reports(rt: HostRuntime) -> Result<(), Fail> {
    let tables: [&[Worked]; 3] = [&REPORTS, &FROM_REPORTS, &BY_PATHS];
    for table in tables {
        assert_reports(&rt, table)?;
    }
    Ok(())
}

// A dense text of at most four persons with costs from -2 to 2.
fn small_text(alloc: Global, seed: &mut u64) -> Result<String, AllocError> {
    let n = next_number(seed) % 4 + 1;
    let mut text = format!(in alloc; "{n}")?;
    for _ in 0..n * n {
        let cost = (next_number(seed) % 5) as i64 - 2;
        write!(text, " {cost}")?;
    }
    Ok(text)
}

// A sparse text of at most four persons, with costs from -2 to 2.
fn small_sparse_text(alloc: Global, seed: &mut u64) -> Result<String, AllocError> {
    let n = next_number(seed) % 4 + 1;
    let mut text = format!(in alloc; "{n}")?;
    for _ in 0..next_number(seed) % (2 * n * n + 1) {
        let person = next_number(seed) % n + 1;
        let object = next_number(seed) % n + 1;
        let cost = (next_number(seed) % 5) as i64 - 2;
        write!(text, " {person} {object} {cost}")?;
    }
    Ok(text)
}

// The status and the first lines of the report on a text, found by trying all assignments.
fn plain_start(
    alloc: Global,
    text: &str,
    sparse: bool,
    sense: Sense,
) -> Result<Option<(u8, String)>, AllocError> {
    let problem = match problem_in(alloc, text.as_bytes(), sparse) {
        Ok(problem) => problem,
        Err(_) => return Ok(None),
    };
    let word = match sense {
        Sense::Min => "min",
        Sense::Max => "max",
    };
    match plain_best(alloc, &problem, sense)? {
        Some(best) => {
            let cost = problem.total(&best);
            Ok(Some((0, format!(in alloc; "sense {word}\ncost {cost}\n")?)))
        }
        None => Ok(Some((1, format!(in alloc; "sense {word}\ninfeasible\n")?))),
    }
}

// The words for solving a text of this layout under this sense.
fn sense_words(sparse: bool, sense: Sense) -> &'static str {
    match (sparse, sense) {
        (false, Sense::Min) => "solve",
        (false, Sense::Max) => "solve --max",
        (true, Sense::Min) => "solve --sparse",
        (true, Sense::Max) => "solve --max --sparse",
    }
}

// The text that a turn draws.
fn text_of(alloc: Global, sparse: bool, seed: &mut u64) -> Result<String, AllocError> {
    if sparse {
        small_sparse_text(alloc, seed)
    } else {
        small_text(alloc, seed)
    }
}

// Whether the report on a text begins as the best of all assignments requires.
fn is_best(
    rt: &(impl Threads + Wait + Sync),
    alloc: Global,
    text: &str,
    sparse: bool,
    sense: Sense,
) -> Result<bool, AllocError> {
    let Some((status, start)) = plain_start(alloc, text, sparse, sense)? else {
        return Ok(false);
    };
    let line = sense_words(sparse, sense);
    let seen = run_with(rt, alloc, line, text.as_bytes(), b"", 65536)?;
    Ok(seen.status == status && seen.out.as_slice().starts_with(start.as_bytes()))
}

#[test]
fn small_problems(rt: HostRuntime) -> Result<(), Fail> {
    let alloc = rt.alloc();
    let mut seed: u64 = 2026;
    for turn in 0..800 {
        let sparse = turn % 2 == 1;
        let sense = if turn % 4 < 2 { Sense::Min } else { Sense::Max };
        let text = text_of(alloc, sparse, &mut seed)?;
        assert!(rt;
            is_best(&rt, alloc, text.as_str(), sparse, sense)?,
            "on {text}"
        );
    }
    Ok(())
}
