// Ranks, and their bound.
use assign_core::Cost;

/// The rank of an object.
pub type Rank = i32;

/// A bound above each reduced cost and each price.
pub const NO_BOUND: Cost = i64::MAX;
