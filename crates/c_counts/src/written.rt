// Lists that a call writes out itself.
ghost use Rattle.std.specs.Prelude.{◌≡◌, ◌+◌, ◌*◌, ◌/◌, ◌%◌, ◌<◌, ◌≤◌, Some, IfOk, length, replicate, if◌then◌else◌};
ghost use Rattle.cost_lists.specs.ListedCosts.{IsCount};
ghost use Rattle.c_counts.specs.Input.{AreListsOf, HasDense, dense_columns, dense_rows, is_dense, sense_of};
ghost use Rattle.c_counts.specs.Lists.{AreColumns, AreGroups, AreRows, IsWritten};

use crate::input::{Input, is_dense, pairs_of};
use assign_core::Sense;
use cost_lists::GREATEST_NUMBER;
use count_checker::CountLists;
use std::alloc::{AllocError, Global};

/// The lists that a call writes out: rows and columns of the pairs of a dense problem, and a 0 for each
/// column where no groups are given. What isn't needed is empty.
#[derive(Drop)]
pub struct Written {
    pub rows: Vec<u32>,
    pub columns: Vec<u32>,
    pub groups: Vec<u32>,
}

// The row of the pair at a place of a dense problem of `m` columns.
fn row_in(m: usize, place: usize) -> u32
    requires some { 0 < m }
    requires few { place / m < GREATEST_NUMBER }
    ensures { result ≡ place / m + 1 }
{
    (place / m) as u32 + 1
}

// Its column.
fn column_in(m: usize, place: usize) -> u32
    requires some { 0 < m }
    requires few { m ≤ GREATEST_NUMBER }
    ensures { result ≡ place % m + 1 }
{
    (place % m) as u32 + 1
}

// The rows of all pairs of a dense problem.
fn dense_rows(alloc: Global, n: usize, m: usize) -> Result<Vec<u32>, AllocError>
    requires rows { IsCount n }
    requires columns { IsCount m }
    ensures { IfOk result (λ v. v.items ≡ dense_rows m (n * m)) }
{
    let pairs = pairs_of(n, m);
    let mut rows = Vec::with_capacity(alloc, pairs)?;
    for place in 0..pairs {
        rows.push(row_in(m, place))?;
    }
    Ok(rows)
}

// The columns of all pairs of a dense problem.
fn dense_columns(alloc: Global, n: usize, m: usize) -> Result<Vec<u32>, AllocError>
    requires rows { IsCount n }
    requires columns { IsCount m }
    ensures { IfOk result (λ v. v.items ≡ dense_columns m (n * m)) }
{
    let pairs = pairs_of(n, m);
    let mut columns = Vec::with_capacity(alloc, pairs)?;
    for place in 0..pairs {
        columns.push(column_in(m, place))?;
    }
    Ok(columns)
}

// The rows of all pairs, where none are given.
fn rows_written(alloc: Global, input: &Input<'_>) -> Result<Vec<u32>, AllocError>
    requires { HasDense input.now }
    ensures { IfOk result (λ v. AreRows input.now v.items) }
{
    if is_dense(input) {
        return dense_rows(alloc, input.row_least.len(), input.column_least.len());
    }
    Ok(Vec::new(alloc))
}

// The columns of all pairs, where none are given.
fn columns_written(alloc: Global, input: &Input<'_>) -> Result<Vec<u32>, AllocError>
    requires { HasDense input.now }
    ensures { IfOk result (λ v. AreColumns input.now v.items) }
{
    if is_dense(input) {
        return dense_columns(alloc, input.row_least.len(), input.column_least.len());
    }
    Ok(Vec::new(alloc))
}

// A 0 for each column, where no groups are given.
fn groups_written(alloc: Global, input: &Input<'_>) -> Result<Vec<u32>, AllocError>
    ensures { IfOk result (λ v. AreGroups input.now v.items) }
{
    if input.groups.is_empty() {
        return vec![in alloc; 0; input.column_least.len()];
    }
    Ok(Vec::new(alloc))
}

/// The lists that aren't given.
pub fn written_of(alloc: Global, input: &Input<'_>) -> Result<Written, AllocError>
    requires { HasDense input.now }
    ensures { IfOk result (IsWritten input.now) }
{
    let rows = rows_written(alloc, input)?;
    let columns = columns_written(alloc, input)?;
    let groups = groups_written(alloc, input)?;
    Ok(Written {
        rows,
        columns,
        groups,
    })
}

// The first list or the second.
fn pick<'a>(first: bool, one: &'a [u32], other: &'a [u32]) -> &'a [u32]
    ensures { result.now ≡ (if first then one.now else other.now) }
{
    if first { one } else { other }
}

/// The lists that are meant. They are read where they are, and not copied.
pub fn lists_of<'a>(input: &'a Input<'_>, sense: Sense, written: &'a Written) -> CountLists<'a>
    requires sense { sense_of input.now.sense ≡ Some sense }
    requires written { IsWritten input.now written.now }
    ensures { AreListsOf input.now result }
{
    let dense = is_dense(input);
    let no_groups = input.groups.is_empty();
    CountLists {
        sense,
        rows: pick(dense, written.rows.as_slice(), input.rows),
        columns: pick(dense, written.columns.as_slice(), input.columns),
        costs: input.costs,
        row_least: input.row_least,
        row_most: input.row_most,
        column_least: input.column_least,
        column_most: input.column_most,
        groups: pick(no_groups, written.groups.as_slice(), input.groups),
    }
}
