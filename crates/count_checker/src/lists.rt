// Lists of a problem with counts, borrowed from a caller.
use assign_core::{Cost, Sense};

/// A problem with counts and groups in a caller's lists. None of it has been checked.
#[derive(Clone, Copy)]
pub struct CountLists<'a> {
    /// Whether low or high costs are wanted.
    pub sense: Sense,
    /// The rows of the listed pairs, numbered from 1, none before a lower one.
    pub rows: &'a [u32],
    /// Their columns, numbered from 1.
    pub columns: &'a [u32],
    /// Their costs.
    pub costs: &'a [Cost],
    /// For each row the least number of columns that it takes.
    pub row_least: &'a [u32],
    /// For each row the greatest.
    pub row_most: &'a [u32],
    /// For each column the least number of rows that take it.
    pub column_least: &'a [u32],
    /// For each column the greatest.
    pub column_most: &'a [u32],
    /// For each column its group, numbered from 1, or 0. Of one group a row takes at most one column.
    pub groups: &'a [u32],
}
