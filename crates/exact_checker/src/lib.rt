//! Checks assignments with exact prices, and Hall sets, wherever they come from, over costs of any
//! size.
#![tactic(auto)]

mod checker;
mod hall;
mod hall_full;
mod hall_lists;
mod hall_marks;
mod hall_verdict;
mod overpriced;
mod pairs;
mod priced;
mod rows;
mod unlisted;
mod values;
mod verdict;

pub use checker::{check, first_under_value};
pub use hall::check_hall;
pub use hall_verdict::{HallVerdict, closed_verdicts, one_hall_verdict};
pub use pairs::earlier;
pub use values::sum_of;
pub use verdict::{Verdict, one_verdict};
