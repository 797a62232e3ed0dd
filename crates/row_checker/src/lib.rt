//! Rows of whole numbers over variables that are 0 or 1, plans that meet them, and trees which show
//! that no plan does: weak duality at the leaves, and splits above them.
#![tactic(auto)]

mod leaf;
mod numbers;
mod row;
mod sums;
mod tree;
mod verdict;

pub use row::{Multiple, Row};
pub use tree::{MOST_DEPTH, verdict_of};
pub use verdict::{Fault, Verdict};
