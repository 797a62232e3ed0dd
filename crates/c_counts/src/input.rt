// What a caller gives.
ghost use Rattle.std.specs.Prelude.{◌≡◌, ◌↔◌, ◌*◌, IsTrue, length};
ghost use Rattle.cost_lists.specs.ListedCosts.{IsCount};
ghost use Rattle.c_counts.specs.Input.{InputCounts, IsDense, input_counts, is_dense};

use cost_lists::GREATEST_NUMBER;
use std::marker::Model;

/// A problem with counts and groups: its pairs by rising rows, or, where there are costs but no rows and
/// columns of pairs, a cost for each row and each column, row by row. None of it has been checked.
#[derive(Drop)]
pub struct Input<'a> {
    pub sense: u32,
    /// The rows of the listed pairs, numbered from 1.
    pub rows: &'a [u32],
    /// Their columns, numbered from 1.
    pub columns: &'a [u32],
    pub costs: &'a [i64],
    pub row_least: &'a [u32],
    pub row_most: &'a [u32],
    pub column_least: &'a [u32],
    pub column_most: &'a [u32],
    /// For each column its group, or 0 for none; empty for no groups.
    pub groups: &'a [u32],
}

impl<'a> Model for Input<'a> {
    ghost Value = { InputCounts };

    ghost view = { λ g. record {
      sense = g.sense;
      rows = g.rows.now;
      columns = g.columns.now;
      costs = g.costs.now;
      row_least = g.row_least.now;
      row_most = g.row_most.now;
      column_least = g.column_least.now;
      column_most = g.column_most.now;
      groups = g.groups.now;
    } };
}

/// The problem of these lists.
pub fn input_of<'a>(
    sense: u32,
    rows: &'a [u32],
    columns: &'a [u32],
    costs: &'a [i64],
    row_least: &'a [u32],
    row_most: &'a [u32],
    column_least: &'a [u32],
    column_most: &'a [u32],
    groups: &'a [u32],
) -> Input<'a>
    ensures { result ≡ input_counts sense rows.now columns.now costs.now row_least.now row_most.now
        column_least.now column_most.now groups.now }
{
    Input {
        sense,
        rows,
        columns,
        costs,
        row_least,
        row_most,
        column_least,
        column_most,
        groups,
    }
}

/// Whether there is a cost for each row and each column in place of listed pairs.
pub fn is_dense(input: &Input<'_>) -> bool
    ensures { result ≡ is_dense input.now }
{
    input.rows.is_empty() && input.columns.is_empty() && !input.costs.is_empty()
}

// Whether a problem may have this many rows, or columns.
fn is_count(n: usize) -> bool
    ensures { IsTrue result ↔ IsCount n }
{
    0 < n && n <= GREATEST_NUMBER as usize
}

// The number of pairs of this many rows and columns.
pub fn pairs_of(n: usize, m: usize) -> usize
    requires rows { IsCount n }
    requires columns { IsCount m }
    ensures { result ≡ n * m }
{
    n * m
}

/// Whether there is a cost for each row and each column, of which there are few enough.
pub fn has_dense(input: &Input<'_>) -> bool
    ensures { IsTrue result ↔ IsDense input.now }
{
    let (n, m) = (input.row_least.len(), input.column_least.len());
    is_count(n) && is_count(m) && input.costs.len() == pairs_of(n, m)
}
