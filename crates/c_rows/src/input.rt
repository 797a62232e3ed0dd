// What a caller gives.
ghost use Rattle.std.specs.Prelude.{◌≡◌, ◌<◌, ◌^◌};
ghost use Rattle.c_rows.specs.Input.{InputRows, has_cost_row, have_lengths, rows_in};

use super::lists::{bound_above, bound_below, whole_at};
use std::marker::Model;

/// Rows over variables that are 0 or 1, as compressed sparse rows, with a plan or none, and a tree.
/// Row r has the terms from `starts[r]` up to `starts[r + 1]`. None of it has been checked.
#[derive(Drop)]
pub struct Input<'a> {
    /// The number of variables.
    pub n: usize,
    /// One number more than there are rows.
    pub starts: &'a [usize],
    /// The variables of the terms, numbered from 0.
    pub variables: &'a [u32],
    pub coefficients: &'a [i64],
    /// The lower bounds; `i64::MIN` for none.
    pub least: &'a [i64],
    /// The upper bounds; `i64::MAX` for none.
    pub most: &'a [i64],
    /// 0 or 1 for each variable, or empty for no plan. With a plan the last row is that of its costs.
    pub plan: &'a [u8],
    pub tree: &'a [i64],
}

impl<'a> Model for Input<'a> {
    ghost Value = { InputRows };

    ghost view = { λ g. record {
      n = g.n;
      starts = g.starts.now;
      variables = g.variables.now;
      coefficients = g.coefficients.now;
      least = g.least.now;
      most = g.most.now;
      plan = g.plan.now;
      tree = g.tree.now;
    } };
}

/// Whether the lengths of the lists fit each other.
pub fn have_lengths(input: &Input<'_>) -> bool
    ensures { result ≡ have_lengths input.now }
{
    let rows = input.starts.len().saturating_sub(1);
    let has_plan = input.plan.is_empty() || (input.plan.len() == input.n && rows > 0);
    !input.starts.is_empty()
        && input.coefficients.len() == input.variables.len()
        && input.least.len() == rows
        && input.most.len() == rows
        && has_plan
}

/// The number of rows.
pub fn count_rows(input: &Input<'_>) -> usize
    ensures is { result ≡ rows_in input.now }
    ensures small { result < 2 ^ 63 }
{
    input.starts.len().saturating_sub(1)
}

/// Whether with a plan the last row has an upper bound and no lower one.
pub fn has_cost_row(input: &Input<'_>) -> bool
    ensures { result ≡ has_cost_row input.now }
{
    let last = input.starts.len().saturating_sub(1).saturating_sub(1);
    let has_least = bound_below(whole_at(input.least, last)).is_some();
    let has_most = bound_above(whole_at(input.most, last)).is_some();
    input.plan.is_empty() || (!has_least && has_most)
}
