//! A problem with its benefits in whole numbers, and the slackness, the floor and the top of each
//! phase of an auction.
#![tactic(auto)]

mod law;
mod parts;
mod phases;
mod range;
mod row;
mod scaled;

pub use law::{eps_divisor, eps_in_range, extremes_are_listed, few_phases, last_eps_is_one};
pub use parts::{LEAST_PAIRS_IN_PARTS, scale_in_parts};
pub use phases::{EPS_DIVISOR, next_eps};
pub use row::Row;
pub use scaled::{Scaled, scale};
