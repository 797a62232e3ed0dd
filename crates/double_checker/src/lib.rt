//! Checks plans with dual prices over costs in doubles, and Hall sets, wherever they come from.
//! What it accepts is exactly best.
#![tactic(auto)]

mod checker;
mod digits;
mod exact;
mod hall;
mod hall_rows;
mod margins;
mod numbers;
mod objects;
mod pairs;
mod prices;
mod rows;
mod sums;
mod verdict;

pub use checker::check;
pub use hall::{HallVerdict, check_hall};
pub use numbers::{is_number, row_part, turned};
pub use sums::is_sum_less;
pub use verdict::Verdict;
