// Calls of the solver.
use super::confirmed::{confirmed, is_hall};
use cost_lists::CostLists;
use list_solver::{Found, Record, SearchState, solve_lists};
use std::alloc::{AllocError, Global};

/// What a call or several found.
#[derive(Clone, Copy, Debug, PartialEq, Eq)]
pub enum Finding {
    /// An assignment of this cost that is confirmed.
    Best(i64),
    /// A Hall set that is confirmed.
    Hall,
    Stopped,
    /// What the solver found isn't confirmed.
    Nothing,
}

/// A state from which a search begins with nothing.
pub fn nothing(alloc: Global, n: u32, m: u32) -> Result<SearchState, AllocError> {
    Ok(SearchState {
        prices: vec![in alloc; 0i64; m as usize]?,
        objects: vec![in alloc; 0u32; n as usize]?,
        record: Record::cold(),
    })
}

/// One call.
pub fn call(
    alloc: Global,
    lists: &CostLists<'_>,
    state: &mut SearchState,
    budget: u64,
) -> Result<Finding, AllocError> {
    let (n, m) = (lists.persons() as usize, lists.objects() as usize);
    if state.objects.len() != n || state.prices.len() != m {
        return Ok(Finding::Nothing);
    }
    match solve_lists(alloc, lists, state, budget)? {
        Found::Best(total) => {
            let (objects, prices) = (state.objects.as_slice(), state.prices.as_slice());
            let cost = confirmed(alloc, lists, objects, prices)?;
            Ok(if cost == Some(total) {
                Finding::Best(total)
            } else {
                Finding::Nothing
            })
        }
        Found::Hall(set) => {
            let (persons, objects) = (set.persons.as_slice(), set.objects.as_slice());
            Ok(if is_hall(alloc, lists, persons, objects)? {
                Finding::Hall
            } else {
                Finding::Nothing
            })
        }
        Found::Stopped => Ok(Finding::Stopped),
    }
}

/// Calls of a budget each, up to the end or up to `most` of them.
pub fn in_pieces(
    alloc: Global,
    lists: &CostLists<'_>,
    state: SearchState,
    budget: u64,
    most: u32,
) -> Result<Finding, AllocError> {
    let mut state = state;
    for _ in 0..most {
        let found = call(alloc, lists, &mut state, budget)?;
        if found != Finding::Stopped {
            return Ok(found);
        }
    }
    Ok(Finding::Stopped)
}
