// Whether ranks rise in listed pairs.
ghost use Rattle.std.specs.Prelude.{◌≡◌, ◌↔◌, IsTrue, length};
ghost use Rattle.cost_lists.specs.Source.{ArePairs};
ghost use Rattle.plan_checker.specs.inside.Rises.{IsPlan, PairsRise};

use super::rises::{Plan, pair_rises};
use cost_lists::Pairs;

// Whether the ranks of all listed pairs rise.
pub fn pairs_rise(plan: Plan<'_>, pairs: Pairs<'_>) -> bool
    requires plan { IsPlan (length plan.own.now) (length plan.prices.now) plan }
    requires pairs { ArePairs (length plan.own.now) (length plan.prices.now) pairs }
    ensures { IsTrue result ↔ PairsRise plan.entry pairs.entry }
{
    for k in 0..pairs.persons.len() {
        if !pair_rises(plan, pairs.persons[k], pairs.objects[k], pairs.costs[k]) {
            return false;
        }
    }
    true
}
