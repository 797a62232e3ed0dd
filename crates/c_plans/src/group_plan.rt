// Which objects of a caller's plan can change places.
ghost use Rattle.std.specs.Prelude.{◌≡◌, ◌⊎◌, length};
ghost use Rattle.c_calls.specs.lists.Input.{HasLengths};
ghost use Rattle.c_plans.specs.GroupAnswers.{IsGroupAnswer};
ghost use Rattle.c_plans.specs.Groups.{AreGroupsShown, JudgesGroups};

use super::groups::{Groups, decide_groups};
use c_calls::Fault;
use c_calls::lists::{Info, Input, judge, lists_of, refuse, report_verdict};
use cost_lists::{CostLists, Object, Price, exact_means_best};
use group_checker::{Group, groups_mean_changes};
use std::alloc::Global;

// Writes an answer, and returns its code.
fn put_groups(
    lists: &CostLists<'_>,
    objects: &[Object],
    prices: &[Price],
    answer: &Groups,
    groups: &mut [Group],
    info: &mut Info,
) -> i32
    requires answer { IsGroupAnswer lists.now objects.now prices.now answer.now }
    requires groups { length groups.old ≡ lists.now.m }
    ensures { AreGroupsShown lists.now objects.now prices.now
        (record { groups = groups.old; info = info.old })
        (record { groups = groups.new; info = info.new }) result }
{
    // These calls show the prover what an optimum and its groups mean.
    let _persons = lists.persons();
    exact_means_best();
    groups_mean_changes();
    match answer {
        Groups::Refused(verdict) => report_verdict(*verdict, info),
        Groups::Joined(found) => {
            groups.copy_from_slice(found.as_slice());
            0
        }
        Groups::Open => 23,
    }
}

/// Which objects of the plan of these objects and prices can change places, of a given problem.
/// Returns 0 where the groups are shown, and writes the number of each object's group; 23 where they
/// weren't shown; the code of the plan's verdict where the prices don't prove it; or that of the
/// first fault.
pub fn groups_on(
    alloc: Global,
    input: &Input<'_>,
    objects: &[Object],
    prices: &[Price],
    groups: &mut [Group],
    info: &mut Info,
) -> i32
    requires { HasLengths input.now → length groups.old ≡ input.now.m }
    ensures { JudgesGroups input.now objects.now prices.now
        (record { groups = groups.old; info = info.old })
        (record { groups = groups.new; info = info.new }) result }
{
    let shape = match judge(input) {
        Ok(shape) => shape,
        Err(fault) => return refuse(fault, info),
    };
    let lists = lists_of(shape, input);
    match decide_groups(alloc, &lists, objects, prices) {
        Ok(found) => put_groups(&lists, objects, prices, &found, groups, info),
        Err(_) => refuse(Fault::Memory, info),
    }
}
