//! Checks assignments with exact prices, and Hall sets, over costs of 128 bits.
#![tactic(auto)]

mod checker;
mod hall;
mod lists;
mod numbers;
mod overpriced;
mod own;
mod pairs;
mod priced;
mod rows;
mod source;
mod total;
mod unlisted;
mod values;

pub use checker::check;
pub use hall::leaves_no_plan;
pub use lists::WideLists;
pub use numbers::{GREATEST_WIDE_COST, GREATEST_WIDE_PRICE, Wide, first_beyond, is_wide_cost};
pub use source::{WidePairs, WideSource};
