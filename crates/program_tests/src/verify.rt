// Reports checked against problems, with their expected lines.
use assign_core::{Object, Sense};
use auction_command::{CliFault, Finding, Verified, Verifier, run_verify, run_verify_under};
use dual_checker::{HallVerdict, Verdict};
use std::alloc::{AllocError, Global};
use std::test::Fail;
use test_helpers::{Pieces, failing_writer, whole_text};

// The result of a run, and what it wrote.
#[derive(Drop)]
struct Seen {
    answer: Result<Verified, CliFault>,
    out: Vec<u8>,
}

fn watched_run(
    alloc: Global,
    mut problem: Pieces<'_>,
    mut report: Pieces<'_>,
    sparse: bool,
    room: usize,
    fails: bool,
) -> Seen {
    let mut writer = failing_writer(alloc, room, 1 << 20, fails);
    let answer = run_verify(alloc, &mut problem, &mut report, sparse, &mut writer);
    Seen {
        answer,
        out: writer.taken,
    }
}

// A run on whole texts, with room for what it writes.
fn held(alloc: Global, problem: &[u8], report: &[u8], sparse: bool, most: usize) -> Seen {
    watched_run(
        alloc,
        whole_text(problem, most),
        whole_text(report, most),
        sparse,
        1 << 20,
        true,
    )
}

// Whether a run answered Yes exactly where the line says so, and wrote the line.
fn tells(run: &Seen, line: &str) -> bool {
    let yes = matches!(run.answer, Ok(Verified::Yes));
    let no = matches!(run.answer, Ok(Verified::No));
    let text = run.out.as_slice().strip_suffix(b"\n");
    text == Some(line.as_bytes()) && yes == line.starts_with("verified ") && yes != no
}

// Whether runs on these texts, byte by byte and at once, write this line.
fn told_both_ways(alloc: Global, problem: &[u8], report: &[u8], sparse: bool, line: &str) -> bool {
    tells(&held(alloc, problem, report, sparse, 1), line)
        && tells(&held(alloc, problem, report, sparse, 65536), line)
}

// The number of these reports, each after this text, that have the expected lines.
fn told(
    alloc: Global,
    problem: &[u8],
    sparse: bool,
    front: &str,
    table: &[(&str, &str)],
) -> Result<usize, AllocError> {
    let mut count: usize = 0;
    for (body, line) in table {
        let report = format!(in alloc; "{front}{body}")?;
        if told_both_ways(alloc, problem, report.as_bytes(), sparse, line) {
            count = count.wrapping_add(1);
        }
    }
    Ok(count)
}

const TWO: &[u8] = b"2 1 2 3 5";

// The rest of a report, and the line on it.
type Line = (&'static str, &'static str);

// Worked by hand: with benefits -3, -6, -9, -15 and prices 14, 12 both persons have slackness 1.
const LEAST: [Line; 12] = [
    (
        "cost 5\nassign 1 2 2\nassign 2 1 3\nprice 1 14\nprice 2 12\n",
        "verified cost 5",
    ),
    (
        "cost 5\nassign 1 2 2\nassign 2 1 3\n",
        "not verified: no prices",
    ),
    ("cost 2\nassign 1 2 2\n", "not verified: no prices"),
    ("cost 2\nassign 1 2 2\nprice 1 14\n", "not verified: length"),
    (
        "cost 5\nassign 1 3 2\nassign 2 3 3\nprice 1 14\nprice 2 12\n",
        "not verified: person 1 unlisted",
    ),
    (
        "cost 5\nassign 1 2 2\nassign 2 8192 3\nprice 1 14\nprice 2 12\n",
        "not verified: person 2 unlisted",
    ),
    (
        "cost 5\nassign 1 2 2\nassign 2 2 5\nprice 1 14\nprice 2 12\n",
        "not verified: object 2 twice",
    ),
    (
        "cost 5\nassign 1 2 2\nassign 2 1 3\nprice 1 11\nprice 2 12\n",
        "not verified: slack of person 1 at object 1",
    ),
    (
        "cost 6\nassign 1 1 1\nassign 2 2 5\nprice 1 14\nprice 2 12\n",
        "not verified: slack of person 2 at object 1",
    ),
    (
        "cost 5\nassign 1 2 3\nassign 2 1 2\nprice 1 14\nprice 2 12\n",
        "not verified: cost of person 1",
    ),
    (
        "cost 5\nassign 1 2 2\nassign 2 1 -3\nprice 1 14\nprice 2 12\n",
        "not verified: cost of person 2",
    ),
    (
        "cost -5\nassign 1 2 2\nassign 2 1 3\nprice 1 14\nprice 2 12\n",
        "not verified: total",
    ),
];

const GREATEST: [Line; 8] = [
    (
        "cost 6\nassign 1 1 1\nassign 2 2 5\nprice 1 12\nprice 2 14\n",
        "verified max cost 6",
    ),
    (
        "cost 6\nassign 1 1 1\nassign 2 2 5\n",
        "not verified: no prices",
    ),
    ("cost 1\nassign 1 1 1\nprice 1 12\n", "not verified: length"),
    (
        "cost 6\nassign 1 1 1\nassign 2 3 5\nprice 1 12\nprice 2 14\n",
        "not verified: person 2 unlisted",
    ),
    (
        "cost 6\nassign 1 1 1\nassign 2 1 3\nprice 1 12\nprice 2 14\n",
        "not verified: object 1 twice",
    ),
    (
        "cost 5\nassign 1 2 2\nassign 2 1 3\nprice 1 14\nprice 2 12\n",
        "not verified: slack of person 2 at object 2",
    ),
    (
        "cost 6\nassign 1 1 0\nassign 2 2 5\nprice 1 12\nprice 2 14\n",
        "not verified: cost of person 1",
    ),
    (
        "cost 7\nassign 1 1 1\nassign 2 2 5\nprice 1 12\nprice 2 14\n",
        "not verified: total",
    ),
];

const GREATEST_FOR_LEAST: [Line; 1] = [(
    "cost 6\nassign 1 1 1\nassign 2 2 5\nprice 1 12\nprice 2 14\n",
    "not verified: slack of person 2 at object 1",
)];

// If a pair is given twice, its least cost counts.
const TWICE: &[u8] = b"2 1 1 9 1 1 3 1 2 4 2 1 5 2 2 8";

const LEAST_OF_TWICE: [Line; 2] = [
    (
        "cost 9\nassign 1 2 4\nassign 2 1 5\nprice 1 5\nprice 2 0\n",
        "verified cost 9",
    ),
    (
        "cost 9\nassign 1 2 4\nassign 2 1 5\n",
        "not verified: no prices",
    ),
];

const GREATEST_OF_TWICE: [Line; 2] = [
    (
        "cost 11\nassign 1 1 3\nassign 2 2 8\nprice 1 0\nprice 2 5\n",
        "verified max cost 11",
    ),
    (
        "cost 17\nassign 1 1 9\nassign 2 2 8\nprice 1 0\nprice 2 5\n",
        "not verified: cost of person 1",
    ),
];

const ROSTER: &[u8] = b"3 1 1 4 2 1 6 3 2 1 3 3 2";

const HALL_SETS: [Line; 7] = [
    (
        "infeasible\npersons 2 1 2\nobjects 1 1\n",
        "verified infeasible",
    ),
    (
        "infeasible\npersons 2 1 4\nobjects 1 1\n",
        "not verified: number out of range",
    ),
    (
        "infeasible\npersons 2 1 2\nobjects 2 1 8192\n",
        "not verified: number out of range",
    ),
    (
        "infeasible\npersons 2 1 2\nobjects 0\n",
        "not verified: object 1 missing for person 1",
    ),
    (
        "infeasible\npersons 1 3\nobjects 1 2\n",
        "not verified: object 3 missing for person 3",
    ),
    (
        "infeasible\npersons 2 1 2\nobjects 3 1 2 3\n",
        "not verified: object 2 extra",
    ),
    (
        "infeasible\npersons 1 2\nobjects 1 1\n",
        "not verified: not fewer",
    ),
];

// Persons who list nothing are one more than their objects.
const SECOND_ALONE: [Line; 1] = [(
    "infeasible\npersons 1 2\nobjects 0\n",
    "verified infeasible",
)];

const FIRST_ALONE: [Line; 1] = [(
    "infeasible\npersons 1 1\nobjects 0\n",
    "verified infeasible",
)];

const WIDEST: [Line; 1] = [(
    "cost -2000000000000\nassign 1 2 -1000000000000\nassign 2 1 -1000000000000\nprice 1 109499999999997\nprice 2 109499999999997\n",
    "verified cost -2000000000000",
)];

const WIDE: [Line; 1] = [(
    "cost -2000000\nassign 1 2 -1000000\nassign 2 1 -1000000\nprice 1 61499999\nprice 2 61499999\n",
    "verified cost -2000000",
)];

const WIDEST_PRICE: [Line; 1] = [(
    "cost 1000000000000\nassign 1 1 1000000000000\nprice 1 9999999999999999999999\n",
    "verified cost 1000000000000",
)];

// A problem, whether it lists pairs, the beginning of reports on it, and their rest with its lines.
type Checked = (&'static [u8], bool, &'static str, &'static [Line]);

const CHECKED: [Checked; 14] = [
    (TWO, false, "", &LEAST),
    (TWO, false, "sense min\n", &LEAST),
    (TWO, false, "sense max\n", &GREATEST),
    (TWO, false, "sense min\n", &GREATEST_FOR_LEAST),
    (TWICE, true, "", &LEAST_OF_TWICE),
    (TWICE, true, "sense max\n", &GREATEST_OF_TWICE),
    (ROSTER, true, "", &HALL_SETS),
    (ROSTER, true, "sense min\n", &HALL_SETS),
    (ROSTER, true, "sense max\n", &HALL_SETS),
    (b"2 1 1 5 1 2 6", true, "", &SECOND_ALONE),
    (b"3", true, "", &FIRST_ALONE),
    (
        b"2 1000000000000 -1000000000000 -1000000000000 1000000000000",
        false,
        "sense min\n",
        &WIDEST,
    ),
    (b"2 1000000 -1000000 -1000000 1000000", false, "", &WIDE),
    (b"1 1000000000000", false, "sense min\n", &WIDEST_PRICE),
];

#[test]
fn reports_with_their_lines(rt: HostRuntime) -> Result<(), Fail> {
    for (problem, sparse, front, table) in CHECKED {
        let right = told(rt.alloc(), problem, sparse, front, table)?;
        assert_eq!(rt; right, table.len());
    }
    Ok(())
}

// The run with this requested sense.
fn asked(alloc: Global, problem: &[u8], report: &[u8], wanted: Sense) -> Seen {
    let mut problem = whole_text(problem, 16);
    let mut report = whole_text(report, 16);
    let mut writer = failing_writer(alloc, 1 << 20, 1 << 20, true);
    let verifier = Verifier {
        sparse: true,
        sense: Some(wanted),
    };
    let answer = run_verify_under(alloc, &mut problem, &mut report, &mut writer, verifier);
    Seen {
        answer,
        out: writer.taken,
    }
}

// Whether a run writes this line if the least cost is requested, and that line if the greatest is.
fn tell(alloc: Global, problem: &[u8], report: &[u8], min: &str, max: &str) -> bool {
    tells(&asked(alloc, problem, report, Sense::Min), min)
        && tells(&asked(alloc, problem, report, Sense::Max), max)
}

// Each report with its lines if the least cost is requested, and if the greatest is.
#[test]
fn senses_that_are_asked_for(rt: HostRuntime) -> Result<(), Fail> {
    let roster = b"2 1 1 1 1 2 2 2 1 3 2 2 5";
    let nothing = b"3 1 1 4 2 1 6 3 2 1 3 3 2";
    let least = "assign 1 2 2\nassign 2 1 3\nprice 1 14\nprice 2 12\n";
    let greatest = "assign 1 1 1\nassign 2 2 5\nprice 1 12\nprice 2 14\n";
    let hall = "infeasible\npersons 2 1 2\nobjects 1 1\n";
    let other = "not verified: sense";
    let none = "verified infeasible";
    let slack = "not verified: slack of person 2 at object 1";
    let unproved = "not verified: no prices";
    let table: [(&[u8], &str, &str, &str, &str); 9] = [
        (roster, "cost 5\n", least, "verified cost 5", other),
        (
            roster,
            "sense min\ncost 5\n",
            least,
            "verified cost 5",
            other,
        ),
        (
            roster,
            "sense max\ncost 6\n",
            greatest,
            other,
            "verified max cost 6",
        ),
        (roster, "sense min\ncost 6\n", greatest, slack, other),
        (roster, "cost 2\n", "assign 1 2 2\n", unproved, other),
        (nothing, "", hall, none, other),
        (nothing, "sense min\n", hall, none, other),
        (nothing, "sense max\n", hall, other, none),
        (
            nothing,
            "sense max\n",
            "infeasible\npersons 1 2\nobjects 1 1\n",
            other,
            "not verified: not fewer",
        ),
    ];
    for (problem, front, body, min, max) in table {
        let report = format!(in rt.alloc(); "{front}{body}")?;
        assert!(rt;
            tell(rt.alloc(), problem, report.as_bytes(), min, max),
            "{front}{body}"
        );
    }
    Ok(())
}

// The report is read whole before its sense is compared.
#[test]
fn a_sense_before_a_bad_line(rt: HostRuntime) -> Result<(), Fail> {
    let problem = b"2 1 1 1 1 2 2 2 1 3 2 2 5";
    let run = asked(rt.alloc(), problem, b"sense max\ncost 6", Sense::Min);
    assert!(rt; matches!(run.answer, Err(CliFault::Report(_))));
    Ok(())
}

// Whether a finding has this line.
fn has_line(alloc: Global, finding: Finding, line: &str) -> Result<bool, AllocError> {
    Ok(format!(in alloc; "{finding}")?.as_str() == line)
}

// Lines of findings that no report that was read gives.
#[test]
fn lines_of_lists(rt: HostRuntime) -> Result<(), Fail> {
    for (finding, line) in [
        (
            Finding::Unproved(Verdict::PriceRange(Object(7))),
            "not verified: price of object 7 out of range",
        ),
        (Finding::Hall(HallVerdict::Order), "not verified: order"),
    ] {
        assert!(rt; has_line(rt.alloc(), finding, line)?, "{line}");
    }
    Ok(())
}

// The line of the fault of a run that wrote nothing.
fn fault_line(alloc: Global, run: &Seen) -> Result<Option<String>, AllocError> {
    match &run.answer {
        Err(fault) if run.out.is_empty() => Ok(Some(format!(in alloc; "{fault}")?)),
        _ => Ok(None),
    }
}

// This line of a run on whole texts, or nothing if the run failed otherwise.
fn refused(alloc: Global, problem: &[u8], report: &[u8]) -> Result<Option<String>, AllocError> {
    fault_line(alloc, &held(alloc, problem, report, false, 65536))
}

#[test]
fn refused_texts(rt: HostRuntime) -> Result<(), Fail> {
    let alloc = rt.alloc();
    let table: [(&[u8], &[u8], &str); 7] = [
        (b"2 1 2 3", b"", "input: truncated after 4 numbers"),
        (b"", b"cost 5", "input: empty"),
        (TWO, b"", "report: ends before line 1"),
        (TWO, b"cost 5", "report: bad line 1"),
        (TWO, b"cost 5\n", "report: ends before line 2"),
        (
            TWO,
            b"cost 5\nassign 1 2 2\nassign 2 1 3\n\n",
            "report: bad line 4",
        ),
        (TWO, b"sense min\n", "report: ends before line 2"),
    ];
    for (problem, report, line) in table {
        let fault = refused(alloc, problem, report)?;
        assert_eq!(rt; fault.as_ref().map(|text| text.as_str()), Some(line));
    }
    Ok(())
}

const PROVED: &[u8] = b"cost 5\nassign 1 2 2\nassign 2 1 3\nprice 1 14\nprice 2 12\n";

// The line of the fault of a run whose report's reader fails after this text, if that is the fault.
fn broken_report(alloc: Global, text: &[u8]) -> Result<Option<String>, AllocError> {
    let failing = Pieces {
        text,
        most: 16,
        fails: true,
    };
    let run = watched_run(alloc, whole_text(TWO, 3), failing, false, 100, true);
    match run.answer {
        Err(CliFault::Report(_)) => fault_line(alloc, &run),
        _ => Ok(None),
    }
}

// The reader may fail after a whole text or in the middle of one.
#[test]
fn reports_whose_readers_fail(rt: HostRuntime) -> Result<(), Fail> {
    for at in 0..PROVED.len() + 1 {
        let (front, _) = PROVED.split_at(at);
        let line = broken_report(rt.alloc(), front)?;
        assert_eq!(rt;
            line.as_ref().map(|text| text.as_str()),
            Some("device: read failed")
        );
    }
    Ok(())
}

// A fault of the problem comes before those of the report.
#[test]
fn problems_whose_readers_fail(rt: HostRuntime) -> Result<(), Fail> {
    let failing = Pieces {
        text: TWO,
        most: 3,
        fails: true,
    };
    let run = watched_run(rt.alloc(), failing, whole_text(b"", 16), false, 100, true);
    assert!(rt; matches!(run.answer, Err(CliFault::Input(_))) && run.out.is_empty());
    Ok(())
}

// A run on a right report, with room for `room` bytes.
fn written(alloc: Global, room: usize, fails: bool) -> Seen {
    let (problem, report) = (whole_text(TWO, 16), whole_text(PROVED, 16));
    watched_run(alloc, problem, report, false, room, fails)
}

// A writer with room for some bytes takes just these.
#[test]
fn writers_that_fail(rt: HostRuntime) -> Result<(), Fail> {
    let line = b"verified cost 5\n";
    for fails in [true, false] {
        for room in 0..line.len() {
            let run = written(rt.alloc(), room, fails);
            let (front, _) = line.split_at(room);
            assert!(rt; matches!(run.answer, Err(CliFault::Write)) && run.out.as_slice() == front);
        }
    }
    let run = written(rt.alloc(), line.len(), true);
    assert!(rt; tells(&run, "verified cost 5"));
    Ok(())
}
