// Proved answers to which objects of a plan can change places.
ghost use Rattle.std.specs.Prelude.{◌≡◌, IfOk, length};
ghost use Rattle.cost_lists.specs.Exact.{IsOptimum};
ghost use Rattle.c_plans.specs.GroupAnswers.{IsGroupAnswer};

use cost_lists::{CostLists, Object, Price};
use exact_checker::{Verdict, check};
use group_checker::{Group, Grouping, Tree, are_groups};
use group_search::{FoundGroups, find_groups};
use std::alloc::{AllocError, Global};

/// The groups of a plan's objects.
#[derive(Drop)]
pub enum Groups {
    /// The prices don't prove the plan.
    Refused(Verdict),
    /// The number of each object's group.
    Joined(Vec<Group>),
    /// They weren't shown.
    Open,
}

// Searches for the groups of an optimum, and checks what was found.
fn groups_of(
    alloc: Global,
    lists: &CostLists<'_>,
    objects: &[Object],
    prices: &[Price],
) -> Result<Groups, AllocError>
    requires { IsOptimum lists.now objects.now prices.now }
    ensures { IfOk result (IsGroupAnswer lists.now objects.now prices.now) }
{
    let found = find_groups(alloc, lists, objects, prices)?;
    let FoundGroups {
        groups,
        out,
        roots,
        towards,
        from,
    } = found;
    let given = Grouping {
        groups: groups.as_slice(),
        out,
        roots: roots.as_slice(),
        towards: Tree {
            neighbours: towards.neighbours.as_slice(),
            places: towards.places.as_slice(),
            depths: towards.depths.as_slice(),
        },
        from: Tree {
            neighbours: from.neighbours.as_slice(),
            places: from.places.as_slice(),
            depths: from.depths.as_slice(),
        },
    };
    if are_groups(alloc, lists, objects, prices, given)? {
        return Ok(Groups::Joined(groups));
    }
    Ok(Groups::Open)
}

/// Which objects of the plan that these objects and prices are can change places.
pub fn decide_groups(
    alloc: Global,
    lists: &CostLists<'_>,
    objects: &[Object],
    prices: &[Price],
) -> Result<Groups, AllocError>
    ensures { IfOk result (IsGroupAnswer lists.now objects.now prices.now) }
{
    let verdict = check(alloc, lists, objects, prices)?;
    if verdict != Verdict::Yes {
        return Ok(Groups::Refused(verdict));
    }
    groups_of(alloc, lists, objects, prices)
}
