// Whether numbers fall from a person's own object to another one that is as good.
ghost use Rattle.std.specs.Prelude.{◌≡◌, ℕ, IsTrue, length};
ghost use Rattle.assign_core.specs.Numbered.{IsNumber};
ghost use Rattle.assign_core.specs.Rows.{IsCost};
ghost use Rattle.cost_lists.specs.Source.{ArePairs};
ghost use Rattle.group_checker.specs.inside.Reading.{Falls, IsPlan, PairsFall};

use super::plan::{Plan, group_of, own_sum};
use super::rows::is_behind;
use assign_core::Cost;
use cost_lists::{Object, Pairs, Person};

// Whether an object costs more than the own one, or its number isn't higher.
pub fn pair_falls(plan: Plan<'_>, person: Person, object: Object, cost: Cost) -> bool
    requires plan { (n m : ℕ) × IsPlan n m plan × IsNumber n person × IsNumber m object }
    requires cost { IsCost cost }
    ensures { IsTrue result → Falls plan.entry person object cost }
{
    let price = plan.prices[object as usize - 1];
    let own = group_of(plan, plan.objects[person as usize - 1]);
    is_behind(
        plan.sense,
        cost,
        price,
        group_of(plan, object),
        own_sum(plan, person),
        own,
    )
}

// Whether the numbers of all listed pairs fall.
pub fn pairs_fall(plan: Plan<'_>, pairs: Pairs<'_>) -> bool
    requires plan { IsPlan (length plan.own.now) (length plan.prices.now) plan }
    requires pairs { ArePairs (length plan.own.now) (length plan.prices.now) pairs }
    ensures { IsTrue result → PairsFall plan.entry pairs.entry }
{
    for k in 0..pairs.persons.len() {
        if !pair_falls(plan, pairs.persons[k], pairs.objects[k], pairs.costs[k]) {
            return false;
        }
    }
    true
}
