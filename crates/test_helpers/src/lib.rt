//! What the tests of several crates share: problems, drawn numbers, streams in pieces, and a slow
//! search for an optimal assignment.
#![tactic(auto)]

mod benefits;
mod costs;
mod drawn;
mod plain;
mod problems;
mod streams;

pub use benefits::{benefit_range, plain_benefits};
pub use costs::{best_cost, cost_of, dense};
pub use drawn::{draw, draw_wide, drawn_pairs, drawn_prices, drawn_sense, next_number};
pub use plain::plain_best;
pub use problems::{
    Pair, cost_in_range, first_price, first_prices, number, numbers_of, problem_of, scaled_of,
    size, triple,
};
pub use streams::{Endless, FailingWriter, Pieces, ample_writer, failing_writer, whole_text};
