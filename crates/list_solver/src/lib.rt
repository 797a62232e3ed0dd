//! Optimal assignments with exact prices, and Hall sets, over borrowed lists of costs: an untrusted
//! search finds them, and the checker of exact prices accepts them. Else a proved search answers.
#![tactic(auto)]

mod dense_lists;
mod found;
mod grouped;
mod judging;
mod listed_pairs;
mod places;
mod proved;
mod record;
mod solver;
mod state;
mod whole;

pub use found::Found;
pub use grouped::Grouped;
pub use hungarian::HallSet;
pub use record::Record;
pub use solver::solve_lists;
pub use state::SearchState;
