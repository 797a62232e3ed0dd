//! Costs where a caller has them, as rows or as listed pairs: the problems of up to 4,194,304
//! persons and as many objects, and what proves an answer to one.
#![tactic(auto)]

mod law;
mod lists;
mod number_lists;
mod numbers;
mod own;
mod source;
mod total;

pub use law::{
    best_given_counts, blocks_bound, blocks_forbid, blocks_mean_best, costs_are_listed,
    exact_means_best, wide_limits,
};
pub use lists::CostLists;
pub use number_lists::{are_within, rises};
pub use numbers::{GREATEST_NUMBER, GREATEST_PRICE, Object, Person, Price, UNLISTED};
pub use own::{part, to_minimise};
pub use source::{Pairs, Source};
