// An optimum with numbers of its objects.
ghost use Rattle.std.specs.Prelude.{◌≡◌, ◌≤◌, ◌+ℤ◌, ℕ, pos, length};
ghost use Rattle.assign_core.specs.Numbered.{IsNumber};
ghost use Rattle.assign_core.specs.Rows.{IsCost};
ghost use Rattle.group_checker.specs.inside.Reading.{IsPlan, group_at, sum_at, sum_to};

use assign_core::{Cost, Sense};
use cost_lists::{Object, Person, Price};
use exact_checker::sum_of;

/// The number of a group.
pub type Group = u32;

// An optimum with a number of each object, and one of 0. The own costs are turned, so that less is
// better.
#[derive(Clone, Copy)]
pub struct Plan<'a> {
    pub sense: Sense,
    pub own: &'a [Cost],
    pub objects: &'a [Object],
    pub prices: &'a [Price],
    pub owned: &'a [bool],
    pub groups: &'a [Group],
    pub out: Group,
}

// The number of a vertex: of an object, or of 0.
pub fn group_of(plan: Plan<'_>, vertex: u32) -> Group
    requires { vertex ≤ length plan.groups.now }
    ensures { result ≡ group_at plan.entry vertex }
{
    if vertex == 0 {
        return plan.out;
    }
    plan.groups[vertex as usize - 1]
}

// The sum of a person's own cost and price.
pub fn own_sum(plan: Plan<'_>, person: Person) -> Cost
    requires plan { (n m : ℕ) × IsPlan n m plan × IsNumber n person }
    ensures { result ≡ sum_at plan.entry person }
{
    let place = person as usize - 1;
    let price = plan.prices[plan.objects[place] as usize - 1];
    sum_of(Sense::Min, plan.own[place], price)
}

// The sum of a cost, turned, and the price of an object.
pub fn other_sum(plan: Plan<'_>, object: Object, cost: Cost) -> Cost
    requires plan { (n m : ℕ) × IsPlan n m plan × IsNumber m object }
    requires cost { IsCost cost }
    ensures { result ≡ sum_to plan.entry object cost }
{
    sum_of(plan.sense, cost, plan.prices[object as usize - 1])
}
