//! Dense assignment problems of any size: an untrusted search over the caller's list of costs by
//! bids, shortest augmenting paths, a core of cheap pairs and an auction. Sums wrap, and a checker
//! decides about what it finds.
#![tactic(auto)]

mod auction;
mod bids;
mod capped;
mod cheapest;
mod copied;
mod cores;
mod course;
mod firsts;
mod full_search;
mod gather;
mod market;
mod matrix;
mod narrow;
mod number;
mod paths;
mod pick;
mod prices;
mod pricing;
mod reading;
mod record;
mod rows;
mod settling;
mod shifted;
mod shortest;
mod sorted;
mod squared;
mod stages;
mod tree;

pub use matrix::DenseProblem;
pub use record::{Outcome, Record, Stage};
pub use stages::search;
