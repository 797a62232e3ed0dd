// Whether given numbers are those of the groups of an optimum.
ghost use Rattle.std.specs.Prelude.{◌≡◌, ◌≤◌, ℕ, IfOk, IsTrue, false, length, replicate};
ghost use Rattle.cost_lists.specs.Exact.{IsOptimum};
ghost use Rattle.cost_lists.specs.Own.{AreOwnCosts};
ghost use Rattle.group_checker.specs.Groups.{AreGroups, IsArrow};
ghost use Rattle.group_checker.specs.inside.Reading.{IsPlanOf, IsTree, group_at};

use super::falls::pairs_fall;
use super::plan::{Group, Plan};
use super::rows::rows_fall;
use super::tree::{Tree, all_linked};
use super::unowned::all_fall_out;
use assign_core::Cost;
use cost_lists::{CostLists, GREATEST_NUMBER, Object, Price, Source};
use dual_checker::mark_numbers;
use std::alloc::{AllocError, Global};

/// The number of each object's group and of that of 0, the root of each group by its number, a tree
/// of arrows towards the roots, and one of arrows from them.
#[derive(Clone, Copy)]
pub struct Grouping<'a> {
    pub groups: &'a [Group],
    pub out: Group,
    pub roots: &'a [u32],
    pub towards: Tree<'a>,
    pub from: Tree<'a>,
}

// Whether numbers fall along all arrows.
fn all_fall(lists: &CostLists<'_>, plan: Plan<'_>) -> bool
    requires { IsPlanOf lists.now plan }
    ensures { let p = plan.entry in IsTrue result
        → (x j : ℕ) → IsArrow lists.now p.objects.now p.prices.now x j
        → group_at p j ≤ group_at p x }
{
    // These calls show the prover that persons and objects are few enough.
    let (_persons, _objects) = (lists.persons(), lists.objects());
    if !all_fall_out(plan) {
        return false;
    }
    match lists.source() {
        Source::Dense(costs) => rows_fall(plan, costs),
        Source::Listed(pairs) => pairs_fall(plan, pairs),
    }
}

// Whether a tree has so many vertices.
fn has_vertices(tree: Tree<'_>, m: usize) -> bool
    requires { m ≤ GREATEST_NUMBER }
    ensures { IsTrue result → IsTree m tree.entry }
{
    tree.neighbours.len() == m + 1 && tree.places.len() == m + 1 && tree.depths.len() == m + 1
}

// Whether numbers of an optimum are those of its groups.
fn are_joined(lists: &CostLists<'_>, plan: Plan<'_>, given: Grouping<'_>) -> bool
    requires plan { IsPlanOf lists.now plan }
    requires towards { IsTree lists.now.m given.towards }
    requires from { IsTree lists.now.m given.from }
    ensures { let p = plan.entry in IsTrue result
        → AreGroups lists.now p.objects.now p.prices.now p.groups.now }
{
    if !all_fall(lists, plan) {
        return false;
    }
    if !all_linked(lists, plan, given.towards, given.roots, true) {
        return false;
    }
    all_linked(lists, plan, given.from, given.roots, false)
}

// Whether they are, with these own costs. No object is marked at first.
fn joined_by(
    owned: &mut [bool],
    lists: &CostLists<'_>,
    own: &[Cost],
    objects: &[Object],
    prices: &[Price],
    given: Grouping<'_>,
) -> bool
    requires owned { owned.old ≡ replicate lists.now.m false }
    requires own { AreOwnCosts lists.now.sense lists.now.rows objects.now own.now }
    requires optimum { IsOptimum lists.now objects.now prices.now }
    requires groups { length given.groups.now ≡ lists.now.m }
    requires towards { IsTree lists.now.m given.towards }
    requires from { IsTree lists.now.m given.from }
    ensures { IsTrue result
        → AreGroups lists.now objects.now prices.now given.entry.groups.now }
{
    // This call shows the prover that the costs are in range.
    let _persons = lists.persons();
    mark_numbers(owned, objects);
    let plan = Plan {
        sense: lists.sense(),
        own,
        objects,
        prices,
        owned,
        groups: given.groups,
        out: given.out,
    };
    are_joined(lists, plan, given)
}

/// Whether given numbers of the objects are those of the groups of an optimum, as trees show. All
/// lists may have any length, and hold any numbers.
///
/// The time is linear in the costs; the memory is 8 bytes a person and 1 an object.
///
/// # Errors
/// `AllocError` if memory is refused.
pub fn are_groups(
    alloc: Global,
    lists: &CostLists<'_>,
    objects: &[Object],
    prices: &[Price],
    given: Grouping<'_>,
) -> Result<bool, AllocError>
    requires { IsOptimum lists.now objects.now prices.now }
    ensures { IfOk result (λ are. IsTrue are
        → AreGroups lists.now objects.now prices.now given.entry.groups.now) }
{
    let m = lists.objects() as usize;
    if given.groups.len() != m || !has_vertices(given.towards, m) || !has_vertices(given.from, m) {
        return Ok(false);
    }
    let own = lists.own_costs(alloc, objects)?;
    let mut owned = vec![in alloc; false; m]?;
    Ok(joined_by(
        owned.as_mut_slice(),
        lists,
        own.as_slice(),
        objects,
        prices,
        given,
    ))
}
