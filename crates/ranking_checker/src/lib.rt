//! Checks that plans are the first of all by their costs, or all that there are. A tree parts the
//! assignments into a part for each plan, in which prices and ranks show that none is cheaper than
//! the last plan but the part's own one.
#![tactic(auto)]

mod limits;
mod low;
mod pairs;
mod part;
mod ranked;
mod totals;
mod tree;

pub use ranked::{RankedPlans, are_first};
pub use totals::more_by;
