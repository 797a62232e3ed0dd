// The checker's word on what a search found.
ghost use Rattle.std.specs.Prelude.{◌≡◌, true, IfOk, IfSome, MatchOption};
ghost use Rattle.assign_core.specs.Hall.{IsHallSet};
ghost use Rattle.list_solver.specs.Found.{IsFound, MayStop};

use super::found::{Ended, Found};
use super::state::SearchState;
use assign_core::Cost;
use cost_lists::CostLists;
use exact_checker::{HallVerdict, Verdict, check, check_hall};
use hungarian::HallSet;
use std::alloc::{AllocError, Global};

// The cost of an assignment, if the checker accepts it with its prices.
fn cost_of(
    alloc: Global,
    lists: &CostLists<'_>,
    state: &SearchState,
) -> Result<Option<Cost>, AllocError>
    ensures { IfOk result (λ cost. IfSome cost
        (λ sum. IsFound lists.now state.now (Found.Best sum))) }
{
    let (objects, prices) = (state.objects.as_slice(), state.prices.as_slice());
    if check(alloc, lists, objects, prices)? != Verdict::Yes {
        return Ok(None);
    }
    Ok(Some(lists.total(alloc, objects)?))
}

fn is_hall(alloc: Global, lists: &CostLists<'_>, set: &HallSet) -> Result<bool, AllocError>
    ensures { IfOk result (λ yes. yes ≡ true
        → IsHallSet lists.now.rows set.now.persons.items set.now.objects.items) }
{
    let (persons, objects) = (set.persons.as_slice(), set.objects.as_slice());
    Ok(check_hall(alloc, lists, persons, objects)? == HallVerdict::Yes)
}

// What a search found, if the checker accepts it. Only a search with a budget may stop.
pub fn judge(
    alloc: Global,
    lists: &CostLists<'_>,
    state: &SearchState,
    budget: u64,
    ended: Ended,
) -> Result<Option<Found>, AllocError>
    ensures found { IfOk result
        (λ found. MatchOption found (Unit {0}) (IsFound lists.now state.now)) }
    ensures allowed { IfOk result (λ found. MatchOption found (Unit {0}) (MayStop budget)) }
{
    match ended {
        Ended::Best => {
            if let Some(total) = cost_of(alloc, lists, state)? {
                return Ok(Some(Found::Best(total)));
            }
        }
        Ended::Hall(set) => {
            if is_hall(alloc, lists, &set)? {
                return Ok(Some(Found::Hall(set)));
            }
        }
        Ended::Stopped => {
            if budget != 0 {
                return Ok(Some(Found::Stopped));
            }
        }
        Ended::Lost => {}
    }
    Ok(None)
}
