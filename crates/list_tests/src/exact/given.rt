// The lists of a test as costs, if they are in the limits.
ghost use Rattle.std.specs.Prelude.{◌≡◌, ◌*◌, ◌↔◌, All, IsTrue};
ghost use Rattle.assign_core.specs.Numbered.{IsNumber};
ghost use Rattle.assign_core.specs.Rows.{IsCost};
ghost use Rattle.cost_lists.specs.ListedCosts.{IsCount};

use super::problem::Problem;
use assign_core::{Cost, GREATEST_COST};
use cost_lists::{CostLists, GREATEST_NUMBER, Pairs};
use std::test::Fail;

pub fn is_count(n: u32) -> bool
    ensures { IsTrue result ↔ IsCount n }
{
    0 < n && n <= GREATEST_NUMBER
}

fn are_numbers(n: u32, numbers: &[u32]) -> bool
    ensures { IsTrue result ↔ All (IsNumber n) numbers.now }
{
    numbers.iter().all(|number| 0 < *number && *number <= n)
}

fn is_cost(cost: Cost) -> bool
    ensures { IsTrue result ↔ IsCost cost }
{
    -GREATEST_COST <= cost && cost <= GREATEST_COST
}

fn are_costs(costs: &[Cost]) -> bool
    ensures { IsTrue result → All IsCost costs.now }
{
    for cost in costs {
        if !is_cost(*cost) {
            return false;
        }
    }
    true
}

pub fn pairs_of(n: u32, m: u32) -> usize
    ensures { result ≡ n * m }
{
    n as usize * m as usize
}

/// The costs of a problem, if all is in the limits.
pub fn caller_lists(problem: &Problem) -> Option<CostLists<'_>> {
    let (n, m) = (problem.n, problem.m);
    let (persons, objects) = (problem.persons.as_slice(), problem.objects.as_slice());
    let costs = problem.costs.as_slice();
    if !is_count(n) || !is_count(m) || !are_costs(costs) {
        return None;
    }
    if problem.is_dense {
        if costs.len() != pairs_of(n, m) {
            return None;
        }
        return Some(CostLists::dense(problem.sense, n, m, costs));
    }
    let count = persons.len();
    if objects.len() != count || costs.len() != count {
        return None;
    }
    if !are_numbers(n, persons) || !are_numbers(m, objects) {
        return None;
    }
    let pairs = Pairs {
        persons,
        objects,
        costs,
    };
    Some(CostLists::sparse(problem.sense, n, m, pairs))
}

/// The costs of a problem in the limits.
pub fn costs_of(problem: &Problem) -> Result<CostLists<'_>, Fail> {
    match caller_lists(problem) {
        Some(lists) => Ok(lists),
        None => Err("the problem is out of the limits".into()),
    }
}
