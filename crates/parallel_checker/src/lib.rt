//! Checks outcomes of many pairs by several threads.
#![tactic(auto)]

mod confirm;
mod slack;

pub use confirm::confirms_in_parts;
