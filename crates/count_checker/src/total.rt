// The cost of a plan.
ghost use Rattle.std.specs.Prelude.{◌≡◌, pos, if◌then◌else◌};
ghost use Rattle.assign_core.specs.Rows.{IsCost};
ghost use Rattle.count_checker.specs.Counts.{chosen, cost_of};
ghost use Rattle.count_checker.specs.CountLists.{AreCountLists, problem_in};

use super::checked::CheckedLists;
use super::lists::CountLists;
use super::marks::Marks;
use assign_core::Cost;

// The cost of a pair if it is marked, otherwise 0.
fn cost_if(marked: bool, cost: Cost) -> i128
    requires { IsCost cost }
    ensures value { result ≡ (if marked then cost else pos 0) }
    ensures cost { IsCost result }
{
    if marked { i128::from(cost) } else { 0 }
}

// The sum of the costs of the marked pairs.
fn sum_of(lists: CountLists<'_>, plan: &Marks<'_>) -> i128
    requires { AreCountLists lists }
    ensures { result ≡ cost_of (chosen (problem_in lists.entry).pairs plan.now) }
{
    let mut sum = 0;
    for place in 0..plan.len().min(lists.costs.len()) {
        sum += cost_if(plan.has(place), lists.costs[place]);
    }
    sum
}

impl<'a> CheckedLists<'a> {
    /// The sum of the costs of the pairs that a plan marks. The marks may be of any number.
    ///
    /// The time is linear in the pairs; no memory is taken.
    pub fn cost(&self, plan: &Marks<'_>) -> i128
        ensures { result ≡ cost_of (chosen (problem_in self.now).pairs plan.now) }
    {
        sum_of(self.lists(), plan)
    }
}
