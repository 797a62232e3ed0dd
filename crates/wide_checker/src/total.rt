// The cost of an assignment.
ghost use Rattle.std.specs.Prelude.{◌≡◌, ◌≤◌, ◌+ℤ◌, ◌≤ℤ◌, ◌*ℤ◌, List, ℕ, pos, neg_ℤ, length, fold, All, IfOk};
ghost use Rattle.assign_core.specs.Rows.{Listing};
ghost use Rattle.assign_core.specs.Assignment.{AreListed, total};
ghost use Rattle.wide_checker.specs.WideNumbers.{IsInCosts};
ghost use Rattle.wide_checker.specs.inside.Own.{AreWideOwn};

use super::lists::WideLists;
use super::numbers::GREATEST_WIDE_COST;
use super::own::own_costs;
use assign_core::Sense;
use cost_lists::{GREATEST_NUMBER, Object};
use std::alloc::{AllocError, Global};

// The sum of costs. It fits 128 bits, since there are few enough.
fn sum_of_costs(costs: &[i128]) -> i128
    requires few { length costs.now ≤ GREATEST_NUMBER }
    requires costs { All IsInCosts costs.now }
    ensures sum { result ≡ fold ◌+ℤ◌ (pos 0) costs.now }
    ensures least { neg_ℤ (pos GREATEST_NUMBER *ℤ GREATEST_WIDE_COST) ≤ℤ result }
    ensures greatest { result ≤ℤ (pos GREATEST_NUMBER *ℤ GREATEST_WIDE_COST) }
{
    let mut sum = 0;
    for cost in costs {
        sum += *cost;
    }
    sum
}

// The cost of an assignment whose persons' own costs are these.
fn total_of(sense: Sense, own: &[i128]) -> i128
    requires few { length own.now ≤ GREATEST_NUMBER }
    requires costs { All IsInCosts own.now }
    ensures { (rows : List Listing) (xs : List ℕ) → AreWideOwn sense rows xs own.now
        → AreListed rows xs → result ≡ total rows xs }
{
    let sum = sum_of_costs(own);
    match sense {
        Sense::Min => sum,
        Sense::Max => -sum,
    }
}

impl<'a> WideLists<'a> {
    /// The sum of the costs of persons' own objects, each of which its person lists.
    ///
    /// The time is linear in the persons, and in the listed pairs.
    ///
    /// # Errors
    /// `AllocError` if memory is refused.
    pub fn total(&self, alloc: Global, objects: &[Object]) -> Result<i128, AllocError>
        requires { AreListed self.now.rows objects.now }
        ensures { IfOk result (λ cost. cost ≡ total self.now.rows objects.now) }
    {
        let own = own_costs(alloc, self, objects)?;
        // This call shows the prover that there are few enough persons.
        let _persons = self.persons();
        Ok(total_of(self.sense(), own.as_slice()))
    }
}
