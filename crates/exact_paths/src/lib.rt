//! The solver by shortest paths: an untrusted search for exact prices, whose answer must pass the
//! checkers, and rounds of offers where it finds none.
#![tactic(auto)]

mod answer;
mod copied;
mod costs;
mod first;
mod observer;
mod pieces;
mod solve;

pub use observer::{Observer, Unobserved};
pub use solve::{solve_by_rounds, solve_paths, try_paths};
