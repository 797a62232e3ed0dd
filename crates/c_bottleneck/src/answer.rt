// Proved answers of the search.
ghost use Rattle.std.specs.Prelude.{◌≡◌, ◌≢◌, ◌↔◌, IfOk, IsTrue, length};
ghost use Rattle.bottleneck_checker.specs.Bottleneck.{IsShown};
ghost use Rattle.c_bottleneck.specs.Answers.{IsAnswer};

use assign_core::Cost;
use bottleneck_checker::worst_shown;
use bottleneck_search::{Found, Shown, find_bottleneck};
use cost_lists::{CostLists, Object};
use exact_checker::{HallVerdict, check_hall};
use list_solver::{HallSet, Record};
use std::alloc::{AllocError, Global};

/// What is shown of the plans.
#[derive(Drop)]
pub enum Answer {
    /// A plan, the cost of its worst pair, and persons who are short of objects at better costs.
    Best(Vec<Object>, Cost, HallSet),
    /// Persons who are short of objects: there is no plan.
    Short(HallSet),
    /// The budget is spent.
    Stopped,
    /// Nothing was shown.
    Open,
}

// A plan and persons who are short, if they show each other.
fn best_of(alloc: Global, lists: &CostLists<'_>, found: Shown) -> Result<Answer, AllocError>
    ensures { IfOk result (IsAnswer lists.now 0) }
{
    let Shown { objects, short } = found;
    let (persons, few) = (short.persons.as_slice(), short.objects.as_slice());
    match worst_shown(alloc, lists, objects.as_slice(), persons, few)? {
        Some(worst) => Ok(Answer::Best(objects, worst, short)),
        None => Ok(Answer::Open),
    }
}

// Persons who are short, if that holds.
fn short_of(alloc: Global, lists: &CostLists<'_>, set: HallSet) -> Result<Answer, AllocError>
    ensures { IfOk result (IsAnswer lists.now 0) }
{
    let verdict = check_hall(alloc, lists, set.persons.as_slice(), set.objects.as_slice())?;
    if verdict == HallVerdict::Yes {
        return Ok(Answer::Short(set));
    }
    Ok(Answer::Open)
}

// Whether a search may stop.
fn is_limited(budget: u64) -> bool
    ensures { IsTrue result ↔ (budget ≢ 0) }
{
    budget != 0
}

/// Searches from objects and a record, and checks what was found. They are written where the search
/// stopped.
pub fn answer_of(
    alloc: Global,
    lists: &CostLists<'_>,
    objects: &mut [Object],
    record: &mut Record,
    budget: u64,
) -> Result<Answer, AllocError>
    ensures answer { IfOk result (IsAnswer lists.now budget) }
    ensures long { length objects.new ≡ length objects.old }
{
    let found = find_bottleneck(alloc, lists, objects, record, budget)?;
    match found {
        Found::Shown(plan) => best_of(alloc, lists, plan),
        Found::Short(set) => short_of(alloc, lists, set),
        Found::Stopped => {
            if is_limited(budget) {
                Ok(Answer::Stopped)
            } else {
                Ok(Answer::Open)
            }
        }
        Found::Lost => Ok(Answer::Open),
    }
}
