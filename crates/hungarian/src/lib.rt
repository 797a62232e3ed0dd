//! The Hungarian method: an assignment with exact prices or a Hall set of any costs within the
//! limits, by shortest augmenting paths.
#![tactic(auto)]

mod augmenting;
mod finishing;
mod hall;
mod outcome;
mod plan;
mod raising;
mod relaxing;
mod row;
mod search;
mod solver;
mod tree;

pub use outcome::{HallSet, Optimum, Outcome};
pub use solver::solve;
