//! Searches for a plan whose worst pair is as good as possible, and for persons who show that no plan has
//! a better one: matchings of pairs up to a threshold (Hopcroft and Karp 1973), thresholds by halves, and
//! a matching that grows as the threshold is raised (Derigs and Zimmermann 1978).
//! What it finds proves nothing: `bottleneck_checker` checks it.
#![tactic(auto)]

mod bounds;
mod found;
mod growth;
mod lists;
mod rows;
mod search;
mod steps;
mod thresholds;

pub use found::{Found, Shown};
pub use search::find_bottleneck;
