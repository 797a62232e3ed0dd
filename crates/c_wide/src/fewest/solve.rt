// From a given problem and kept objects to an answer in the caller's buffers.
ghost use Rattle.std.specs.Prelude.{◌≡◌, length};
ghost use Rattle.c_calls.specs.lists.Input.{HasLengths};
ghost use Rattle.c_wide.specs.fewest.Answers.{IsFewestAnswer};
ghost use Rattle.c_wide.specs.fewest.Ends.{IsFewestReported, IsFewestShown, fewest_buffers};

use super::answer::{FewestAnswer, fewest_of};
use super::kept::{Refusal, judge_kept, refuse_kept};
use assign_core::hall_set_forbids;
use c_calls::lists::{Info, Input, lists_of};
use c_calls::{Fault, put_hall};
use cost_lists::{CostLists, Object, Person};
use std::alloc::Global;
use wide_checker::Wide;

// Writes an answer, and returns its code.
fn put_fewest(
    lists: &CostLists<'_>,
    kept: &[Object],
    answer: &FewestAnswer,
    objects: &mut [Object],
    persons: &mut [Person],
    prices: &mut [Wide],
    changed: &mut usize,
    info: &mut Info,
) -> i32
    requires answer { IsFewestAnswer lists.now kept.now answer.now }
    requires objects { length objects.old ≡ length lists.now.rows }
    requires persons { length persons.old ≡ length lists.now.rows }
    requires prices { length prices.old ≡ lists.now.m }
    ensures { IsFewestShown lists.now kept.now
        (fewest_buffers objects.old persons.old prices.old changed.old info.old)
        (fewest_buffers objects.new persons.new prices.new changed.new info.new) result }
{
    // This call shows the prover that a Hall set leaves no assignment.
    hall_set_forbids();
    match answer {
        FewestAnswer::Best(plan) => {
            objects.copy_from_slice(plan.objects.as_slice());
            prices.copy_from_slice(plan.prices.as_slice());
            *changed = plan.changes;
            info.total = plan.total;
            0
        }
        FewestAnswer::Hall(set) => {
            put_hall(objects, persons, set);
            info.persons = set.persons.len() as u64;
            info.objects = set.objects.len() as u64;
            1
        }
        FewestAnswer::Undecided => 23,
    }
}

/// Looks for an optimal assignment that changes fewest persons. Writes the answer into the buffers, and returns
/// its code. If there is no answer, they stay as they were.
pub fn fewest_on(
    alloc: Global,
    input: &Input<'_>,
    kept: &[Object],
    objects: &mut [Object],
    persons: &mut [Person],
    prices: &mut [Wide],
    changed: &mut usize,
    info: &mut Info,
) -> i32
    requires kept { HasLengths input.now → length kept.now ≡ input.now.n }
    requires objects { HasLengths input.now → length objects.old ≡ input.now.n }
    requires persons { HasLengths input.now → length persons.old ≡ input.now.n }
    requires prices { HasLengths input.now → length prices.old ≡ input.now.m }
    ensures { IsFewestReported input.now kept.now
        (fewest_buffers objects.old persons.old prices.old changed.old info.old)
        (fewest_buffers objects.new persons.new prices.new changed.new info.new) result }
{
    let shape = match judge_kept(input, kept) {
        Ok(shape) => shape,
        Err(refusal) => return refuse_kept(refusal, info),
    };
    match fewest_of(alloc, shape, input, kept) {
        Ok(answer) => {
            let lists = lists_of(shape, input);
            put_fewest(
                &lists, kept, &answer, objects, persons, prices, changed, info,
            )
        }
        Err(_) => refuse_kept(Refusal::Given(Fault::Memory), info),
    }
}
