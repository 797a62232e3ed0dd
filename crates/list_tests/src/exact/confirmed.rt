// Answers of any origin that the checker accepts.
use assign_core::Cost;
use cost_lists::{CostLists, Object, Person, Price};
use exact_checker::{HallVerdict, Verdict, check, check_hall};
use std::alloc::{AllocError, Global};

/// The cost of these objects, if they are an assignment with exact prices.
pub fn confirmed(
    alloc: Global,
    lists: &CostLists<'_>,
    objects: &[Object],
    prices: &[Price],
) -> Result<Option<Cost>, AllocError> {
    if check(alloc, lists, objects, prices)? != Verdict::Yes {
        return Ok(None);
    }
    Ok(Some(lists.total(alloc, objects)?))
}

/// Whether these are a Hall set.
pub fn is_hall(
    alloc: Global,
    lists: &CostLists<'_>,
    persons: &[Person],
    objects: &[Object],
) -> Result<bool, AllocError> {
    Ok(check_hall(alloc, lists, persons, objects)? == HallVerdict::Yes)
}
