//! For a person without an object: a Hall set, or an alternating path to an unowned object.
#![tactic(auto)]

mod law;
mod lists;
mod path;
mod reach;
mod search;

pub use law::refutation_is_determined;
pub use search::{Search, refute};
