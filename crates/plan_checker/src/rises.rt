// Whether ranks rise from a person's own object to another one of low reduced cost.
ghost use Rattle.std.specs.Prelude.{◌≡◌, ◌↔◌, ◌+ℤ◌, ◌≤ℤ◌, ◌<ℤ◌, ℕ, IsTrue};
ghost use Rattle.assign_core.specs.Numbered.{IsNumber};
ghost use Rattle.assign_core.specs.Rows.{IsCost};
ghost use Rattle.plan_checker.specs.Ranks.{step_of};
ghost use Rattle.plan_checker.specs.inside.Rises.{IsPlan, IsSum, Rises, RisesLater};

use super::further::other_price;
use super::rank::Rank;
use assign_core::{Cost, Sense};
use cost_lists::{Object, Person, Price};
use exact_checker::sum_of;

// An optimum with ranks and some further lists of prices. The own costs are turned, so that less is
// better.
#[derive(Clone, Copy)]
pub struct Plan<'a> {
    pub sense: Sense,
    pub own: &'a [Cost],
    pub objects: &'a [Object],
    pub prices: &'a [Price],
    pub ranks: &'a [Rank],
    pub count: usize,
    pub others: &'a [Price],
    pub is_strict: bool,
    pub bound: Cost,
}

// Whether a sum of cost and price is below another one and the bound.
#[inline(always)]
pub fn is_below(sum: Cost, own_sum: Cost, bound: Cost) -> bool
    requires sum { IsSum sum }
    requires own_sum { IsSum own_sum }
    ensures { IsTrue result ↔ (sum <ℤ (own_sum +ℤ bound)) }
{
    let reduced = sum - own_sum;
    reduced < bound
}

// Whether a rank is above another one, or, if ranks aren't strict, the same.
fn is_above(own: Rank, other: Rank, is_strict: bool) -> bool
    ensures { IsTrue result ↔ ((own +ℤ step_of is_strict) ≤ℤ other) }
{
    if is_strict { own < other } else { own <= other }
}

// Whether a pair of the core is dearer than the own one by each further list that the lists before
// leave it to, and if it stays open by all the object's rank rises.
#[inline(always)]
fn rises_later(plan: Plan<'_>, person: Person, object: Object, cost: Cost) -> bool
    requires plan { (n m : ℕ) × IsPlan n m plan × IsNumber n person × IsNumber m object }
    requires cost { IsCost cost }
    ensures { IsTrue result ↔ RisesLater plan.entry person object cost }
{
    let place = person as usize - 1;
    let own = plan.objects[place];
    for list in 0..plan.count {
        let sum = sum_of(plan.sense, cost, other_price(plan, list, object));
        let own_sum = sum_of(Sense::Min, plan.own[place], other_price(plan, list, own));
        if sum < own_sum {
            return false;
        }
        if !is_below(sum, own_sum, plan.bound) {
            return true;
        }
    }
    let (from, to) = (
        plan.ranks[own as usize - 1],
        plan.ranks[object as usize - 1],
    );
    is_above(from, to, plan.is_strict)
}

// Whether the reduced cost of a pair reaches the bound, or the object is the person's own, or the
// further lists and the ranks show that it rises.
#[inline(always)]
pub fn pair_rises(plan: Plan<'_>, person: Person, object: Object, cost: Cost) -> bool
    requires plan { (n m : ℕ) × IsPlan n m plan × IsNumber n person × IsNumber m object }
    requires cost { IsCost cost }
    ensures { IsTrue result ↔ Rises plan.entry person object cost }
{
    let place = person as usize - 1;
    let own = plan.objects[place];
    let sum = sum_of(plan.sense, cost, plan.prices[object as usize - 1]);
    let own_sum = sum_of(Sense::Min, plan.own[place], plan.prices[own as usize - 1]);
    if !is_below(sum, own_sum, plan.bound) || object == own {
        return true;
    }
    rises_later(plan, person, object, cost)
}
