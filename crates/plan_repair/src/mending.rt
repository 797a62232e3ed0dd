// A plan after a change of few rows, columns or costs, mended by a path for each person that lost its
// object.
use super::path::{DUMMY, Search};
use super::plan::{MOST_MENDED, Plan};
use std::alloc::{AllocError, Global};

// Finds a path from a person, or from the dummies, and changes the plan. Returns whether there was one.
fn assign(
    alloc: Global,
    plan: &mut Plan<'_>,
    person: u32,
    persons_left: usize,
    rows_left: &mut usize,
) -> Result<bool, AllocError> {
    let Some(ends) = plan.objects_left(alloc)? else {
        return Ok(false);
    };
    let mut search = Search::new(alloc, plan, ends.len() < persons_left)?;
    let is_found = search.run(alloc, plan, person, ends.as_slice(), rows_left)?;
    if is_found {
        search.change(plan);
    }
    Ok(is_found)
}

// Finds paths for all persons without an object.
fn assign_persons(
    alloc: Global,
    plan: &mut Plan<'_>,
    rows_left: &mut usize,
) -> Result<bool, AllocError> {
    let Some(persons) = plan.persons_left(alloc)? else {
        return Ok(false);
    };
    for (k, person) in persons.iter().enumerate() {
        let left = persons.len().wrapping_sub(k);
        if !assign(alloc, plan, *person, left, rows_left)? {
            return Ok(false);
        }
    }
    Ok(true)
}

// Brings objects that nobody owns down to the price of the others.
fn assign_dummies(
    alloc: Global,
    plan: &mut Plan<'_>,
    rows_left: &mut usize,
) -> Result<bool, AllocError> {
    for _ in 0..MOST_MENDED {
        match plan.objects_left(alloc)? {
            None => return Ok(false),
            Some(objects) if objects.is_empty() => return Ok(true),
            Some(_) => {}
        }
        if !assign(alloc, plan, DUMMY, 0, rows_left)? {
            return Ok(false);
        }
    }
    Ok(true)
}

/// Mends a plan of few persons without an object, whose prices fit the others. Returns whether it
/// is done before so many rows are read. Nobody vouches for what it gives.
pub fn mend(alloc: Global, plan: &mut Plan<'_>, rows_left: &mut usize) -> Result<bool, AllocError> {
    let Some(objects) = plan.objects_left(alloc)? else {
        return Ok(false);
    };
    for object in &objects {
        plan.settle_price(*object);
    }
    if !assign_persons(alloc, plan, rows_left)? || !assign_dummies(alloc, plan, rows_left)? {
        return Ok(false);
    }
    plan.begin_at_zero();
    Ok(true)
}
