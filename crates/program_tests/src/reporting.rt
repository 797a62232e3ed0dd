// Shared by all tests here: a report in both versions, and the result of a text as a line.
mod fronts;
mod long;
mod plain;
mod spoilt;
mod starts;
mod texts;
mod writing;

use plain::text_of;
use report::{Report, ReportFault, read_report};
use std::alloc::{AllocError, Global};
use std::test::Fail;
use test_helpers::Pieces;

// The report on two persons and two objects, in both versions.
const FIRST: &[u8] = b"cost 5\nassign 1 2 2\nassign 2 1 3\nprice 1 14\nprice 2 12\n";

const SECOND: &[u8] = b"sense min\ncost 5\nassign 1 2 2\nassign 2 1 3\nprice 1 14\nprice 2 12\n";

// The text of the report that a reader gives, or the line of its fault.
fn told(alloc: Global, read: Result<Report, ReportFault>) -> Result<String, AllocError> {
    match read {
        Ok(report) => text_of(alloc, &report),
        Err(fault) => format!(in alloc; "{fault}"),
    }
}

// The line of a text that is read in pieces of at most `most` bytes.
fn line(alloc: Global, text: &[u8], most: usize, fails: bool) -> Result<String, AllocError> {
    let mut reader = Pieces { text, most, fails };
    told(alloc, read_report(alloc, &mut reader))
}
