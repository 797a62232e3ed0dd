// The method: persons are assigned one after another.
ghost use Rattle.std.specs.Prelude.{◌≡◌, ◌+◌, ◌-◌, ◌<◌, None, length, IfOk, IfSome};
ghost use Rattle.assign_core.specs.Numbered.{IsNumber};
ghost use Rattle.assign_core.specs.Hall.{IsHallSet};
ghost use Rattle.hungarian.specs.Outcomes.{IsOutcome};
ghost use Rattle.hungarian.specs.inside.Stored.{IsPlanned, IsSearched, IsAssignedTo};

use super::augmenting::augment;
use super::finishing::finish;
use super::hall::hall_set;
use super::outcome::{HallSet, Outcome};
use super::plan::Plan;
use super::raising::raise;
use super::search::search;
use super::tree::Tree;
use assign_core::Cost;
use cost_lists::{CostLists, Object, Person};
use std::alloc::{AllocError, Global};

// Raises the prices, and gives one more person an object.
fn give(lists: &CostLists<'_>, plan: &mut Plan, tree: &Tree, person: Person, end: Object)
    requires plan { IsPlanned lists.now plan.old }
    requires person { IsNumber (length lists.now.rows) person }
    requires assigned { IsAssignedTo (person - 1) plan.old.objects.items }
    requires tree { IsSearched lists.now plan.old person tree.now end }
    requires end { 0 < end }
    ensures plan { IsPlanned lists.now plan.new }
    ensures assigned { IsAssignedTo person plan.new.objects.items }
{
    // This call shows the prover that there are few enough persons.
    let _persons = lists.persons();
    let (to_objects, ranks) = (tree.to_objects.as_slice(), tree.ranks.as_slice());
    raise(plan.prices.as_mut_slice(), to_objects, ranks, end as usize);
    augment(
        plan.owners.as_mut_slice(),
        plan.objects.as_mut_slice(),
        tree.predecessors.as_slice(),
        ranks,
        end,
    );
}

// The Hall set of a search that labelled no unowned object.
fn refute(
    alloc: Global,
    lists: &CostLists<'_>,
    plan: &Plan,
    tree: &Tree,
    person: Person,
) -> Result<HallSet, AllocError>
    requires plan { IsPlanned lists.now plan.now }
    requires person { IsNumber (length lists.now.rows) person }
    requires tree { IsSearched lists.now plan.now person tree.now 0 }
    ensures { IfOk result (λ set. IsHallSet lists.now.rows set.persons.items set.objects.items) }
{
    // This call shows the prover that persons and objects are few enough.
    let _persons = lists.persons();
    let (ranks, objects) = (tree.ranks.as_slice(), plan.objects.as_slice());
    let set = hall_set(alloc, ranks, objects, person)?;
    Ok(set)
}

// Gives one more person an object, or finds a Hall set.
fn serve(
    alloc: Global,
    lists: &CostLists<'_>,
    row: &mut [Cost],
    plan: &mut Plan,
    person: Person,
) -> Result<Option<HallSet>, AllocError>
    requires row { length row.old ≡ lists.now.m + 1 }
    requires plan { IsPlanned lists.now plan.old }
    requires person { IsNumber (length lists.now.rows) person }
    requires assigned { IsAssignedTo (person - 1) plan.old.objects.items }
    ensures hall { IfOk result (λ r. IfSome r (λ set.
        IsHallSet lists.now.rows set.persons.items set.objects.items)) }
    ensures plan { IfOk result (λ r. r ≡ None → IsPlanned lists.now plan.new) }
    ensures assigned { IfOk result (λ r. r ≡ None → IsAssignedTo person plan.new.objects.items) }
{
    let (tree, end) = search(alloc, lists, row, plan, person)?;
    if end == 0 {
        let set = refute(alloc, lists, plan, &tree, person)?;
        return Ok(Some(set));
    }
    give(lists, plan, &tree, person, end);
    Ok(None)
}

// The plan in which nobody has an object.
fn first_plan(alloc: Global, lists: &CostLists<'_>) -> Result<Plan, AllocError>
    ensures plan { IfOk result (λ p. IsPlanned lists.now p) }
    ensures assigned { IfOk result (λ p. IsAssignedTo 0 p.objects.items) }
{
    let plan = Plan::new(alloc, lists.persons(), lists.objects())?;
    Ok(plan)
}

/// An assignment with exact prices, or a Hall set: the Hungarian method (Kuhn 1955, Munkres 1957) by
/// shortest augmenting paths (Tomizawa 1971, Edmonds and Karp 1972).
///
/// It begins with nothing, and has no budget: it runs to its end. The time is at most the square of
/// the persons, times the objects and the listed pairs. The memory is 24 bytes a person, 40 an object.
///
/// # Errors
/// `AllocError` if memory is refused.
pub fn solve(alloc: Global, lists: &CostLists<'_>) -> Result<Outcome, AllocError>
    ensures { IfOk result (IsOutcome lists.now) }
{
    let mut row = vec![in alloc; 0i64; lists.objects() as usize + 1]?;
    let mut plan = first_plan(alloc, lists)?;
    for person in 1..lists.persons() + 1 {
        if let Some(set) = serve(alloc, lists, row.as_mut_slice(), &mut plan, person)? {
            return Ok(Outcome::Hall(set));
        }
    }
    let best = finish(alloc, &plan)?;
    Ok(Outcome::Best(best))
}
