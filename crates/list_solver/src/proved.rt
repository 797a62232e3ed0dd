// The proved search, where the checker accepts nothing that another one finds.
ghost use Rattle.std.specs.Prelude.{◌≡◌, length, IfOk};
ghost use Rattle.list_solver.specs.Found.{IsFound, MayStop};

use super::found::Found;
use super::state::SearchState;
use cost_lists::CostLists;
use hungarian::{Outcome, solve};
use std::alloc::{AllocError, Global};

// Decides a problem. It begins with nothing, and the record stays.
pub fn decide(
    alloc: Global,
    lists: &CostLists<'_>,
    state: &mut SearchState,
) -> Result<Found, AllocError>
    requires prices { length state.old.prices.items ≡ lists.now.m }
    requires objects { length state.old.objects.items ≡ length lists.now.rows }
    ensures prices { length state.new.prices.items ≡ length state.old.prices.items }
    ensures objects { length state.new.objects.items ≡ length state.old.objects.items }
    ensures found { IfOk result (IsFound lists.now state.new) }
    ensures allowed { IfOk result (MayStop 0) }
{
    match solve(alloc, lists)? {
        Outcome::Best(best) => {
            let total = lists.total(alloc, best.objects.as_slice())?;
            state.objects = best.objects;
            state.prices = best.prices;
            Ok(Found::Best(total))
        }
        Outcome::Hall(set) => Ok(Found::Hall(set)),
    }
}
