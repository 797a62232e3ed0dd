//! Checks certificates and Hall sets, wherever they come from.
#![tactic(auto)]

mod checker;
mod confirm;
mod counts;
mod hall;
mod hall_lists;
mod hall_marks;
mod hall_verdict;
mod listed;
mod marks;
mod placed;
mod priced;
mod rounded;
mod slack;
mod sums;
mod verdict;

pub use checker::check;
pub use confirm::{confirm_best, confirm_hall, confirms};
pub use counts::first_given_twice;
pub use hall::check_hall;
pub use hall_verdict::{HallVerdict, one_hall_verdict};
pub use marks::{first_unmarked, mark_numbers};
pub use placed::Placed;
pub use verdict::{Verdict, one_verdict};
