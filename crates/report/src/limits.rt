// The limits of the format, in addition to those of problems.
use assign_core::{Cost, Price};

/// The greatest number of bytes of a report.
pub const TEXT_LIMIT: u64 = 1 << 20;

/// The greatest absolute value of a pair's cost in version 1.
pub const FIRST_GREATEST_COST: Cost = 1_000_000;

/// In version 1 prices are below this.
pub const FIRST_PRICE_END: Price = 10_000_000_000_000_000;
