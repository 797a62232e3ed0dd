// The cost of an assignment.
ghost use Rattle.std.specs.Prelude.{◌≡◌, ◌≤◌, ◌+ℤ◌, ◌≤ℤ◌, ◌*ℤ◌, List, ℕ, pos, neg_ℤ, length, fold, All, IfOk};
ghost use Rattle.assign_core.specs.Rows.{Listing, IsCost};
ghost use Rattle.assign_core.specs.Assignment.{AreListed, total};
ghost use Rattle.cost_lists.specs.Own.{AreOwnCosts};

use super::lists::CostLists;
use super::numbers::{GREATEST_NUMBER, Object};
use assign_core::{Cost, GREATEST_COST, Sense};
use std::alloc::{AllocError, Global};

// The sum of costs. It fits 64 bits, since there are few enough.
fn sum_of(costs: &[Cost]) -> Cost
    requires few { length costs.now ≤ GREATEST_NUMBER }
    requires costs { All IsCost costs.now }
    ensures sum { result ≡ fold ◌+ℤ◌ (pos 0) costs.now }
    ensures least { neg_ℤ (pos GREATEST_NUMBER *ℤ GREATEST_COST) ≤ℤ result }
    ensures greatest { result ≤ℤ (pos GREATEST_NUMBER *ℤ GREATEST_COST) }
{
    let mut sum = 0;
    for cost in costs {
        sum += *cost;
    }
    sum
}

/// The cost of an assignment whose persons' own costs are these, as `own_costs` gives them.
pub fn total_of(sense: Sense, own: &[Cost]) -> Cost
    requires few { length own.now ≤ GREATEST_NUMBER }
    requires costs { All IsCost own.now }
    ensures { (rows : List Listing) (xs : List ℕ) → AreOwnCosts sense rows xs own.now
        → AreListed rows xs → result ≡ total rows xs }
{
    let sum = sum_of(own);
    match sense {
        Sense::Min => sum,
        Sense::Max => -sum,
    }
}

impl<'a> CostLists<'a> {
    /// The sum of the costs of persons' own objects, each of which its person lists.
    ///
    /// The time is linear in the persons, and in the listed pairs.
    ///
    /// # Errors
    /// `AllocError` if memory is refused.
    pub fn total(&self, alloc: Global, objects: &[Object]) -> Result<Cost, AllocError>
        requires { AreListed self.now.rows objects.now }
        ensures { IfOk result (λ cost. cost ≡ total self.now.rows objects.now) }
    {
        let own = self.own_costs(alloc, objects)?;
        // This call shows the prover that there are few enough persons.
        let _persons = self.persons();
        Ok(total_of(self.sense(), own.as_slice()))
    }
}
