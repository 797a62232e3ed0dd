//! Searches the pairs of low reduced cost (the core of a best plan) for the next best plan, and for
//! prices and ranks of the objects that show that there is none below a bound; and for the first
//! plans in the order of their costs. What it finds proves nothing: `plan_checker` checks it.
#![tactic(auto)]

mod arcs;
mod cheapest;
mod components;
mod earliest;
mod inner;
mod leaf;
mod least;
mod nearest;
mod order;
mod part;
mod paths;
mod pricing;
mod proofs;
mod queue;
mod raising;
mod ranking;
mod search;
mod showing;
mod swaps;
mod tree;
mod values;
mod walk;

pub use ranking::{Ranking, find_ranking};
pub use search::{Found, Shown, find_other};
