//! Problems with counts and groups: each row takes from so many to so many columns, each column from
//! so many to so many rows, and of a group of columns a row takes at most one. The crate has what proves
//! a plan to be best and what proves that there is none, and it checks both wherever they come from.
#![tactic(auto)]

mod checked;
mod checker;
mod counts;
mod holders;
mod law;
mod list_fault;
mod lists;
mod marks;
mod numbers;
mod prices;
mod shortage;
mod total;
mod verdict;

pub use checked::CheckedLists;
pub use checker::check;
pub use law::{
    count_prices_mean_best, count_sets_leave_no_plan, marks_break_ties, marks_mean_fewest_changes,
    marks_mean_the_same, one_count_verdict, one_shortage_verdict, ones_are_assignments,
};
pub use list_fault::ListFault;
pub use lists::CountLists;
pub use marks::Marks;
pub use numbers::GREATEST_PAIRS;
pub use shortage::{ShortageVerdict, Side, check_shortage};
pub use verdict::CountVerdict;
