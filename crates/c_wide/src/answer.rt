// Proved answers to given problems.
ghost use Rattle.std.specs.Prelude.{IfOk};
ghost use Rattle.c_wide.specs.Answers.{IsWideAnswer};

use cost_lists::Object;
use exact_checker::Verdict;
use list_solver::HallSet;
use std::alloc::{AllocError, Global};
use wide_checker::{Wide, WideLists, check, leaves_no_plan};
use wide_search::{Ended, find_plan};

/// What a search found, and the checkers accept.
#[derive(Drop)]
pub enum Answer {
    /// An optimal assignment with exact prices, and the sum of its costs.
    Best(Vec<Object>, Vec<Wide>, Wide),
    /// A Hall set.
    Hall(HallSet),
    /// Nothing.
    Undecided,
}

// What the checker accepts of a plan.
fn judge_plan(
    alloc: Global,
    lists: &WideLists<'_>,
    objects: Vec<Object>,
    prices: Vec<Wide>,
) -> Result<Answer, AllocError>
    ensures { IfOk result (IsWideAnswer lists.now) }
{
    if check(alloc, lists, objects.as_slice(), prices.as_slice())? != Verdict::Yes {
        return Ok(Answer::Undecided);
    }
    let total = Wide::of(lists.total(alloc, objects.as_slice())?);
    Ok(Answer::Best(objects, prices, total))
}

// What the checker accepts of a Hall set.
fn judge_hall(alloc: Global, lists: &WideLists<'_>, set: HallSet) -> Result<Answer, AllocError>
    ensures { IfOk result (IsWideAnswer lists.now) }
{
    if leaves_no_plan(alloc, lists, set.persons.as_slice(), set.objects.as_slice())? {
        return Ok(Answer::Hall(set));
    }
    Ok(Answer::Undecided)
}

/// Searches, and says what the checkers accept.
pub fn answer_of(alloc: Global, lists: &WideLists<'_>) -> Result<Answer, AllocError>
    ensures { IfOk result (IsWideAnswer lists.now) }
{
    match find_plan(alloc, lists)? {
        Ended::Plan(objects, prices) => judge_plan(alloc, lists, objects, prices),
        Ended::Hall(persons, objects) => judge_hall(alloc, lists, HallSet { persons, objects }),
        Ended::Lost => Ok(Answer::Undecided),
    }
}
