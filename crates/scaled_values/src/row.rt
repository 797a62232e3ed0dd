// The benefits of a person's pairs.
ghost use Rattle.std.specs.Prelude.{◌≡◌, ℕ, ◌≤◌, length, IfOk, map};
ghost use Rattle.assign_core.specs.Rows.{IsSize, IsRow};
ghost use Rattle.assign_core.specs.Benefits.{benefit, benefit_row};
ghost use Rattle.scaled_values.specs.Held.{entries_of, HasForm};
ghost use Rattle.scaled_values.specs.inside.Stored.{stored_entries, HasStoredForm};
ghost use Rattle.scaled_values.specs.inside.Range.{range_with};

use super::range::Range;
use assign_core::{Benefit, Cost, Object, Sense};
use std::alloc::{AllocError, Global};

/// The benefits of a person's pairs. If the person lists all objects, they are in the order of the
/// objects; otherwise each comes with its object, rising.
#[derive(Clone, Copy, PartialEq, Eq)]
pub enum Row<'a> {
    Full(&'a [Benefit]),
    Pairs(&'a [(Object, Benefit)]),
}

// The stored form of a row.
#[derive(Drop)]
pub enum StoredRow {
    Full(Vec<Benefit>),
    Pairs(Vec<(Object, Benefit)>),
}

// The benefits of costs, and the range widened by them.
fn benefits_of(
    alloc: Global,
    sense: Sense,
    n: u16,
    row: &[(Object, Cost)],
    range: Range,
) -> Result<(Vec<Benefit>, Range), AllocError>
    requires size { IsSize n }
    requires row { IsRow n row.now }
    ensures benefits { IfOk result
        (λ made. made.0.items ≡ map (λ e. e.1) (benefit_row sense n row.now)) }
    ensures range { IfOk result
        (λ made. made.1 ≡ range_with range (map (λ e. e.1) (benefit_row sense n row.now))) }
{
    let mut benefits = Vec::with_capacity(alloc, row.len())?;
    let mut range = range;
    for (_, cost) in row {
        let benefit = sense.benefit(n, *cost);
        range = range.widened(benefit);
        benefits.push_reserved(benefit);
    }
    Ok((benefits, range))
}

// The pairs with their benefits, and the range widened by them.
fn pairs_of(
    alloc: Global,
    sense: Sense,
    n: u16,
    row: &[(Object, Cost)],
    range: Range,
) -> Result<(Vec<(Object, Benefit)>, Range), AllocError>
    requires size { IsSize n }
    requires row { IsRow n row.now }
    ensures pairs { IfOk result (λ made. made.0.items ≡ benefit_row sense n row.now) }
    ensures range { IfOk result
        (λ made. made.1 ≡ range_with range (map (λ e. e.1) (benefit_row sense n row.now))) }
{
    let mut pairs = Vec::with_capacity(alloc, row.len())?;
    let mut range = range;
    for (object, cost) in row {
        let benefit = sense.benefit(n, *cost);
        range = range.widened(benefit);
        pairs.push_reserved((*object, benefit));
    }
    Ok((pairs, range))
}

impl StoredRow {
    // The benefits of a row of costs among n objects, and the range widened by them.
    pub fn new(
        alloc: Global,
        sense: Sense,
        n: u16,
        row: &[(Object, Cost)],
        range: Range,
    ) -> Result<(StoredRow, Range), AllocError>
        requires size { IsSize n }
        requires row { IsRow n row.now }
        ensures entries { IfOk result
            (λ made. stored_entries made.0 ≡ benefit_row sense n row.now) }
        ensures form { IfOk result (λ made. HasStoredForm n made.0) }
        ensures range { IfOk result
            (λ made. made.1 ≡ range_with range (map (λ e. e.1) (benefit_row sense n row.now))) }
    {
        if row.len() == n as usize {
            let (benefits, range) = benefits_of(alloc, sense, n, row, range)?;
            Ok((StoredRow::Full(benefits), range))
        } else {
            let (pairs, range) = pairs_of(alloc, sense, n, row, range)?;
            Ok((StoredRow::Pairs(pairs), range))
        }
    }

    // The benefits, for reading.
    pub fn as_row(&self) -> Row<'_>
        ensures entries { entries_of result ≡ stored_entries self.now }
        ensures form { (n : ℕ) → HasStoredForm n self.now → HasForm n result }
    {
        match self {
            StoredRow::Full(benefits) => Row::Full(benefits.as_slice()),
            StoredRow::Pairs(pairs) => Row::Pairs(pairs.as_slice()),
        }
    }
}
