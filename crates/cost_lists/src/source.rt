// Where the costs are.
use super::numbers::{Object, Person};
use assign_core::Cost;

/// Listed pairs as three lists of one length, in any order.
#[derive(Clone, Copy)]
pub struct Pairs<'a> {
    pub persons: &'a [Person],
    pub objects: &'a [Object],
    pub costs: &'a [Cost],
}

/// Where the costs are.
#[derive(Clone, Copy)]
pub enum Source<'a> {
    /// The cost of each person and each object, row by row.
    Dense(&'a [Cost]),
    /// The listed pairs.
    Listed(Pairs<'a>),
}
