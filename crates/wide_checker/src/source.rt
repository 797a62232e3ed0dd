// Where the costs are.
use super::numbers::Wide;
use cost_lists::{Object, Person};

/// Listed pairs as three lists of one length, in any order.
#[derive(Clone, Copy)]
pub struct WidePairs<'a> {
    pub persons: &'a [Person],
    pub objects: &'a [Object],
    pub costs: &'a [Wide],
}

/// Where the costs are.
#[derive(Clone, Copy)]
pub enum WideSource<'a> {
    /// The cost of each person and each object, row by row.
    Dense(&'a [Wide]),
    /// The listed pairs.
    Listed(WidePairs<'a>),
}
