//! Sparse assignment problems of any size: an untrusted search by bids, an auction and shortest
//! augmenting paths. Sums wrap, and a checker decides about what it finds.
#![tactic(auto)]

mod auction;
mod bids;
mod calls;
mod components;
mod forecast;
mod market;
mod matching;
mod outcome;
mod path;
mod problem;
mod record;
mod rivals;
mod row;
mod stages;
mod tight;
mod unowned;

pub use calls::search;
pub use market::Market;
pub use matching::{Known, Matching, hall_set};
pub use outcome::{HallSet, Outcome};
pub use problem::{Pair, SparseProblem};
pub use record::{Record, Stage};
