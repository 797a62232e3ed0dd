//! Checks what is said about a best plan: that it is the only one, by how much each other one costs
//! more, and which persons' objects can change in one as good. Ranks of objects prove it, if need
//! be with further lists of prices.
#![tactic(auto)]

mod free;
mod further;
mod law;
mod pairs;
mod rank;
mod ranked;
mod rises;
mod rows;

pub use law::{ranks_mean_alone, ranks_mean_kept, ranks_mean_next, ranks_mean_only};
pub use rank::{NO_BOUND, Rank};
pub use ranked::are_ranked;
