//! Searches for the groups of objects that can change places between optimal assignments: strong
//! components of the arrows of one, and trees that join them. What it finds proves nothing:
//! `group_checker` checks it.
#![tactic(auto)]

mod arrows;
mod components;
mod graph;
mod search;
mod trees;
mod values;

pub use search::{FoundGroups, find_groups};
pub use trees::FoundTree;
