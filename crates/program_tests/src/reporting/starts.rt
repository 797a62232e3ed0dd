// Reports with their results as first prices.
use super::*;
use report::start_prices;
use test_helpers::whole_text;

// A text as the first prices of a run with `n` objects, as a line.
fn start_line(alloc: Global, text: &[u8], n: u16) -> Result<String, AllocError> {
    let mut reader = whole_text(text, 64);
    match read_report(alloc, &mut reader) {
        Ok(report) => match start_prices(&report, n) {
            Ok(prices) => format!(in alloc; "{prices:?}"),
            Err(fault) => format!(in alloc; "{fault}"),
        },
        Err(fault) => format!(in alloc; "{fault}"),
    }
}

// The price of object 2 is too great.
const GREAT: &[u8] =
    b"sense min\ncost 5\nassign 1 2 2\nassign 2 1 3\nprice 1 1000000000000000000000\nprice 2 1000000000000000000001\n";

// Both prices are too great.
const GREATER: &[u8] =
    b"sense min\ncost 5\nassign 1 2 2\nassign 2 1 3\nprice 1 1000000000000000000001\nprice 2 9999999999999999999999\n";

// Texts, each with a number of objects and the expected line of a start from it.
const STARTS: [(&[u8], u16, &str); 13] = [
    (FIRST, 2, "[14, 12]"),
    (SECOND, 2, "[14, 12]"),
    (SECOND, 1, "start: 2 prices"),
    (SECOND, 3, "start: 2 prices"),
    (SECOND, 0, "start: 2 prices"),
    (b"cost 5\nassign 1 1 5\n", 1, "start: no prices"),
    (b"cost 5\nassign 1 1 5\n", 2, "start: no prices"),
    (
        b"sense max\ninfeasible\npersons 2 1 2\nobjects 1 1\n",
        2,
        "start: no prices",
    ),
    (
        b"sense max\ncost 5\nassign 1 1 5\nprice 1 1000000000000000000000\n",
        1,
        "[1000000000000000000000]",
    ),
    (GREAT, 2, "start: price of object 2 too great"),
    (GREATER, 2, "start: price of object 1 too great"),
    (GREATER, 3, "start: 2 prices"),
    (GREAT, 65535, "start: 2 prices"),
];

// The place of the first row with another line than expected.
fn other_start(alloc: Global, table: &[(&[u8], u16, &str)]) -> Result<Option<usize>, AllocError> {
    for (i, (text, n, answer)) in table.iter().enumerate() {
        let said = start_line(alloc, text, *n)?;
        if said.as_str() != *answer {
            return Ok(Some(i));
        }
    }
    Ok(None)
}

#[test]
fn starts(rt: HostRuntime) -> Result<(), Fail> {
    assert_eq!(rt; other_start(rt.alloc(), &STARTS)?, None);
    Ok(())
}
