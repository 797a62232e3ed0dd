// Lists in the form that the search reads. Nothing here is trusted: the checkers judge what it finds.
use assign_core::{Cost, Sense};
use count_checker::CountLists;
use count_search::Problem;
use std::alloc::{AllocError, Global};

/// Where the pairs of each row begin, and the costs as ones to minimise. The search numbers columns from
/// 0, the lists from 1: so a column 0 that nobody takes stands before theirs, and pairs aren't copied.
#[derive(Drop)]
pub struct Prepared {
    starts: Vec<usize>,
    // The costs with the other sign under Max; under Min they are read where they are.
    negated: Vec<Cost>,
    column_least: Vec<u32>,
    column_most: Vec<u32>,
    groups: Vec<u32>,
}

// Adds to the count of a row, at its number.
fn add(starts: &mut [usize], row: u32, count: usize) {
    if let Some(start) = starts.get_mut(row as usize) {
        *start = start.wrapping_add(count);
    }
}

// Counts the pairs of each row, of which the pairs stand together.
fn count_rows(starts: &mut [usize], rows: &[u32]) {
    let mut last = 0u32;
    let mut count = 0usize;
    for row in rows {
        if *row != last {
            add(starts, last, count);
            last = *row;
            count = 0;
        }
        count = count.wrapping_add(1);
    }
    add(starts, last, count);
}

// Adds to each number all before it.
fn add_up(starts: &mut [usize]) {
    let mut sum = 0usize;
    for start in starts {
        sum = sum.wrapping_add(*start);
        *start = sum;
    }
}

// Where the pairs of each row begin.
fn starts_of(alloc: Global, lists: CountLists<'_>) -> Result<Vec<usize>, AllocError> {
    let mut starts = vec![in alloc; 0usize; lists.row_least.len().saturating_add(1)]?;
    count_rows(starts.as_mut_slice(), lists.rows);
    add_up(starts.as_mut_slice());
    Ok(starts)
}

/// A list with a 0 before it.
pub fn after_none<T: Copy + From<u8>>(alloc: Global, list: &[T]) -> Result<Vec<T>, AllocError> {
    let mut longer = Vec::with_capacity(alloc, list.len().saturating_add(1))?;
    longer.push(T::from(0u8))?;
    for number in list {
        longer.push(*number)?;
    }
    Ok(longer)
}

/// A cost as one to minimise.
pub fn turned(sense: Sense, cost: Cost) -> Cost {
    match sense {
        Sense::Min => cost,
        Sense::Max => cost.wrapping_neg(),
    }
}

/// Writes others with the other sign.
pub fn negate(numbers: &mut [i64], others: &[i64]) {
    for (number, other) in numbers.iter_mut().zip(others) {
        *number = other.wrapping_neg();
    }
}

fn negated(alloc: Global, costs: &[Cost]) -> Result<Vec<Cost>, AllocError> {
    let mut negated = vec![in alloc; 0; costs.len()]?;
    negate(negated.as_mut_slice(), costs);
    Ok(negated)
}

impl Prepared {
    pub fn of(alloc: Global, lists: CountLists<'_>) -> Result<Prepared, AllocError> {
        let negated = match lists.sense {
            Sense::Min => Vec::new(alloc),
            Sense::Max => negated(alloc, lists.costs)?,
        };
        let groups = if lists.groups.is_empty() {
            Vec::new(alloc)
        } else {
            after_none(alloc, lists.groups)?
        };
        Ok(Prepared {
            starts: starts_of(alloc, lists)?,
            negated,
            column_least: after_none(alloc, lists.column_least)?,
            column_most: after_none(alloc, lists.column_most)?,
            groups,
        })
    }

    /// The problem as the search reads it.
    pub fn problem<'a>(&'a self, lists: CountLists<'a>) -> Problem<'a> {
        Problem {
            starts: self.starts.as_slice(),
            columns: lists.columns,
            costs: match lists.sense {
                Sense::Min => lists.costs,
                Sense::Max => self.negated.as_slice(),
            },
            row_least: lists.row_least,
            row_most: lists.row_most,
            column_least: self.column_least.as_slice(),
            column_most: self.column_most.as_slice(),
            groups: self.groups.as_slice(),
        }
    }
}
