// Runs that begin at the prices of a report.
use crate::reports::Worked;
use crate::watched::{first_line, run_with};
use std::alloc::{AllocError, Global};
use std::sync::Wait;
use std::test::Fail;
use std::thread::Threads;
use test_helpers::next_number;

/// The report with prices on two persons.
pub const TWO: &[u8] = b"sense min\ncost 5\nassign 1 2 2\nassign 2 1 3\nprice 1 14\nprice 2 12\n";

// Worked by hand: with floor -43 the bids are 17, 20 and 19, and then with floor -48 they are 23,
// 26 and 24.
const TWO_FROM_TWO: &str =
    "sense min\ncost 5\nassign 1 2 2\nassign 2 1 3\nprice 1 26\nprice 2 24\n";

/// Runs from the prices of reports. The second report is of version 1, which has no sense. Of the
/// third one only the prices matter.
pub const FROM_REPORTS: [Worked; 9] = [
    (
        "solve --start report --prices",
        b"2 1 2 3 5",
        TWO,
        0,
        TWO_FROM_TWO,
    ),
    (
        "solve --start report --prices",
        b"2 1 2 3 5",
        b"cost 5\nassign 1 2 2\nassign 2 1 3\nprice 1 14\nprice 2 12\n",
        0,
        TWO_FROM_TWO,
    ),
    (
        "solve --start report --prices",
        b"2 1 2 3 5",
        b"sense max\ncost -9\nassign 1 7 7\nassign 2 7 -7\nprice 1 14\nprice 2 12\n",
        0,
        TWO_FROM_TWO,
    ),
    (
        "solve --start report --sparse --prices",
        b"2 1 1 1 1 2 2 2 1 3 2 2 5",
        TWO,
        0,
        TWO_FROM_TWO,
    ),
    (
        "solve --start report",
        b"2 1 2 3 5",
        TWO,
        0,
        "sense min\ncost 5\nassign 1 2 2\nassign 2 1 3\n",
    ),
    (
        "solve --start report --max",
        b"2 1 2 3 5",
        TWO,
        0,
        "sense max\ncost 6\nassign 1 1 1\nassign 2 2 5\n",
    ),
    (
        "solve --start report --prices",
        b"1 7",
        b"cost 7\nassign 1 1 7\nprice 1 0\n",
        0,
        "sense min\ncost 7\nassign 1 1 7\nprice 1 1\n",
    ),
    (
        "solve --start report --prices",
        b"1 7",
        b"sense min\ncost 7\nassign 1 1 7\nprice 1 1000000000000000000000\n",
        0,
        "sense min\ncost 7\nassign 1 1 7\nprice 1 1000000000000000000001\n",
    ),
    (
        "solve --sparse --start report",
        b"3 1 1 4 2 1 6 3 2 1 3 3 2",
        b"cost 6\nassign 1 1 2\nassign 2 2 2\nassign 3 3 2\nprice 1 1\nprice 2 1\nprice 3 2\n",
        1,
        "sense min\ninfeasible\npersons 2 1 2\nobjects 1 1\n",
    ),
];

// The costs of `n` persons, from -9 to 9.
fn draw_costs(alloc: Global, n: u8, seed: &mut u64) -> Result<Vec<i64>, AllocError> {
    let mut costs = Vec::new(alloc);
    for _ in 0..u32::from(n) * u32::from(n) {
        costs.push((next_number(seed) % 19) as i64 - 9)?;
    }
    Ok(costs)
}

fn dense_text(alloc: Global, n: u8, costs: &[i64]) -> Result<String, AllocError> {
    let mut text = format!(in alloc; "{n}")?;
    for cost in costs {
        write!(text, " {cost}")?;
    }
    Ok(text)
}

// The second line, which has the cost.
fn cost_line(text: &[u8]) -> &[u8] {
    let end = text
        .iter()
        .position(|byte| *byte == b'\n')
        .unwrap_or(text.len());
    let (_, rest) = text.split_at(end);
    match rest {
        [_, behind @ ..] => first_line(behind),
        _ => rest,
    }
}

// The report of a run that ends with an assignment, or else nothing.
pub fn report_of(
    rt: &(impl Threads + Wait + Sync),
    alloc: Global,
    line: &str,
    text: &[u8],
    report: &[u8],
) -> Result<Vec<u8>, AllocError> {
    let seen = run_with(rt, alloc, line, text, report, 4096)?;
    if seen.status == 0 {
        Ok(seen.out)
    } else {
        Ok(Vec::new(alloc))
    }
}

// Whether a run from the prices of a report on one text ends at the same cost as a run from zeros
// on another text.
fn same_cost(
    rt: &(impl Threads + Wait + Sync),
    alloc: Global,
    (cold_line, warm_line): (&str, &str),
    before: &[u8],
    after: &[u8],
) -> Result<bool, AllocError> {
    let old = report_of(rt, alloc, cold_line, before, b"")?;
    let cold = report_of(rt, alloc, cold_line, after, b"")?;
    let warm = report_of(rt, alloc, warm_line, after, old.as_slice())?;
    let cost = cost_line(cold.as_slice());
    Ok(!cost.is_empty() && cost_line(warm.as_slice()) == cost)
}

// The texts of a drawn problem, and of one with another cost at one place.
pub fn neighbours_of(alloc: Global, seed: &mut u64) -> Result<(String, String), AllocError> {
    let n = (next_number(seed) % 8) as u8 + 1;
    let mut costs = draw_costs(alloc, n, seed)?;
    let before = dense_text(alloc, n, costs.as_slice())?;
    let place = next_number(seed) as usize % costs.len().max(1);
    if place < costs.len() {
        costs[place] = (next_number(seed) % 19) as i64 - 9;
    }
    let after = dense_text(alloc, n, costs.as_slice())?;
    Ok((before, after))
}

// The words of a run from zeros, and of one from its prices.
const PAIRS: [(&str, &str); 6] = [
    ("solve --prices", "solve --start report"),
    ("solve --prices --max", "solve --max --start report"),
    (
        "solve --prices --mode=workers",
        "solve --start=report --mode=workers",
    ),
    (
        "solve --prices --max --mode=workers",
        "solve --max --start=report --mode=workers --refresh=0",
    ),
    ("solve --prices", "solve --method paths --start report"),
    (
        "solve --prices --max --method paths",
        "solve --max --start=report --method=paths",
    ),
];

// The number of drawn problems, of these, that end at the same cost from the prices of a neighbour.
fn agreeing(
    rt: &(impl Threads + Wait + Sync),
    alloc: Global,
    words: (&str, &str),
    turns: usize,
    seed: &mut u64,
) -> Result<usize, AllocError> {
    let mut count: usize = 0;
    for _ in 0..turns {
        let (before, after) = neighbours_of(alloc, seed)?;
        if same_cost(rt, alloc, words, before.as_bytes(), after.as_bytes())? {
            count = count.wrapping_add(1);
        }
    }
    Ok(count)
}

#[test]
fn neighbours(rt: HostRuntime) -> Result<(), Fail> {
    let mut seed: u64 = 15;
    for words in PAIRS {
        assert_eq!(rt; agreeing(&rt, rt.alloc(), words, 150, &mut seed)?, 150);
    }
    Ok(())
}
