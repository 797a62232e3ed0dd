//! Checks which objects can change places between optimal assignments: numbers of groups that never
//! rise where an object is as good for a person as its own one, and trees of these pairs that join
//! each group.
#![tactic(auto)]

mod arrow;
mod checker;
mod falls;
mod law;
mod plan;
mod rows;
mod shown;
mod tree;
mod unowned;

pub use checker::{Grouping, are_groups};
pub use law::{groups_are_kept, groups_mean_changes};
pub use plan::Group;
pub use tree::Tree;
