// Whether objects are an assignment.
ghost use Rattle.std.specs.Prelude.{◌≡◌, ◌↔◌, ℕ, ℤ, IfOk, List, IsTrue, length};
ghost use Rattle.assign_core.specs.Assignment.{IsAssignment};
ghost use Rattle.cost_lists.specs.ListedCosts.{ListedCosts};
ghost use Rattle.exact_checker.specs.Verdicts.{IsVerdict};

use cost_lists::{CostLists, Object, Price};
use exact_checker::{Verdict, check};
use std::alloc::{AllocError, Global};

// Whether a verdict, of which the prices are as many as the objects, is that of an assignment.
fn is_of_assignment(verdict: Verdict) -> bool
    ensures { (l : ListedCosts) (xs : List ℕ) (prices : List ℤ) → length prices ≡ l.m
        → IsVerdict l xs prices verdict → (IsTrue result ↔ IsAssignment l.rows xs) }
{
    match verdict {
        Verdict::Length => false,
        Verdict::Unlisted(_) => false,
        Verdict::Twice(_) => false,
        _ => true,
    }
}

// Whether these objects of persons 1 to `n` are an assignment.
pub fn is_assignment(
    alloc: Global,
    lists: &CostLists<'_>,
    objects: &[Object],
) -> Result<bool, AllocError>
    ensures { IfOk result (λ is. IsTrue is ↔ IsAssignment lists.now.rows objects.now) }
{
    let prices: Vec<Price> = vec![in alloc; 0; lists.objects() as usize]?;
    let verdict = check(alloc, lists, objects, prices.as_slice())?;
    Ok(is_of_assignment(verdict))
}
