//! The linear assignment problem: persons, objects, listed pairs with costs, and answers that carry
//! their own proof.
#![tactic(auto)]

mod assignment;
mod certificate;
mod hall;
mod law;
mod numbers;
mod outcome;
mod prices;
mod problem;
mod sense;
mod sparse;

pub use assignment::Assignment;
pub use certificate::Certificate;
pub use hall::{HallSet, hall_set_forbids, paths_are_open, reach_is_least};
pub use law::{
    dense_pairs, least_given_counts, limits, owners_make_an_assignment, price_order, proofs_decide,
    slack_means_best,
};
pub use numbers::{
    Benefit, Cost, GREATEST_COST, GREATEST_FIRST_PRICE, MOST_PERSONS, NARROW_END, Numbered, Object,
    PRICE_END, Person, Price,
};
pub use outcome::{Outcome, SolveFault};
pub use prices::Prices;
pub use problem::Problem;
pub use sense::Sense;
