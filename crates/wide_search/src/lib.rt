//! A search for a best plan for costs of 128 bits, level by level. It is trusted with nothing: its
//! plan and prices are checked.
//!
//! A level has costs of 39 bits, the wide ones divided by a power of two and rounded down, and the
//! search over 64 bits solves it. At its prices, in wide numbers, no reduced cost is below 0, and none
//! of the plan's reaches one unit of the level. So a pair whose reduced cost is above `4 (n + 1)` units
//! stays out from then on, and the next level, whose unit is smaller, has the others at their reduced
//! costs. The last level's unit is that of the costs.
//!
//! Scaling of costs: Gabow and Tarjan, Faster scaling algorithms for network problems, 1989.
#![tactic(auto)]

mod coarse;
mod finer;
mod kept;
mod level;
mod places;
mod search;
mod state;
mod units;

pub use search::{Ended, find_plan};
