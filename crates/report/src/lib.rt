//! The text of a report: written for a problem and an outcome, and read back.
//!
//! The report on an optimal assignment of two persons, with the prices that prove it:
//!
//! ```text
//! sense min
//! cost 5
//! assign 1 2 2
//! assign 2 1 3
//! price 1 14
//! price 2 12
//! ```
//!
//! And on two persons who list the same single object, so that no assignment exists:
//!
//! ```text
//! sense min
//! infeasible
//! persons 2 1 2
//! objects 1 1
//! ```
//!
//! This is version 2 of the format, the one that is written. Version 1 has no line for the sense,
//! and narrower ranges of costs and prices; it is read as well.
#![tactic(auto)]

mod draft;
mod fault;
mod law;
mod limits;
mod line;
mod lists;
mod machine;
mod numerals;
mod pending;
mod put;
mod ranges;
mod read;
mod send;
mod start;
mod value;
mod words;
mod write;

pub use fault::{ReportFault, StartFault, WriteFault};
pub use law::{
    lines_begin_reports, one_answer, one_text, report_limits, short_text, written_is_report,
};
pub use read::read_report;
pub use send::write_text;
pub use start::start_prices;
pub use value::Report;
pub use write::write_report;
