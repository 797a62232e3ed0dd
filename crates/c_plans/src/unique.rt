// Whether a caller's plan is the only best one.
ghost use Rattle.std.specs.Prelude.{◌≡◌, ◌⊎◌, length};
ghost use Rattle.c_calls.specs.lists.Input.{HasLengths};
ghost use Rattle.c_plans.specs.Answers.{IsAnswer};
ghost use Rattle.c_plans.specs.Unique.{IsUniqueShown, JudgesUnique};

use super::answer::{Answer, decide};
use c_calls::Fault;
use c_calls::lists::{Info, Input, judge, lists_of, refuse, report_verdict};
use cost_lists::{CostLists, Object, Price, exact_means_best};
use plan_checker::{Rank, ranks_mean_only};
use std::alloc::Global;

// Writes an answer, and returns its code.
fn put_answer(
    lists: &CostLists<'_>,
    objects: &[Object],
    prices: &[Price],
    answer: &Answer,
    other: &mut [Object],
    ranks: &mut [Rank],
    info: &mut Info,
) -> i32
    requires answer { IsAnswer lists.now objects.now prices.now answer.now }
    requires other { length other.old ≡ length lists.now.rows }
    requires ranks { length ranks.old ≡ lists.now.m }
    ensures { IsUniqueShown lists.now objects.now prices.now
        (record { other = other.old; ranks = ranks.old; info = info.old })
        (record { other = other.new; ranks = ranks.new; info = info.new }) result }
{
    // These calls show the prover what an optimum and its ranks mean.
    let _persons = lists.persons();
    exact_means_best();
    ranks_mean_only();
    match answer {
        Answer::Refused(verdict) => report_verdict(*verdict, info),
        Answer::Only(found) => {
            ranks.copy_from_slice(found.as_slice());
            0
        }
        Answer::Other(found) => {
            other.copy_from_slice(found.as_slice());
            24
        }
        Answer::Open => 23,
    }
}

/// Whether the plan of these objects and prices is the only best one of a given problem. Returns 0 where it
/// is, and writes ranks that show it; 24 where it isn't, and writes another one; 23 where neither was
/// shown; the code of the plan's verdict where the prices don't prove it; or that of the first fault.
pub fn unique_on(
    alloc: Global,
    input: &Input<'_>,
    objects: &[Object],
    prices: &[Price],
    other: &mut [Object],
    ranks: &mut [Rank],
    info: &mut Info,
) -> i32
    requires other { HasLengths input.now → length other.old ≡ input.now.n }
    requires ranks { HasLengths input.now → length ranks.old ≡ input.now.m }
    ensures { JudgesUnique input.now objects.now prices.now
        (record { other = other.old; ranks = ranks.old; info = info.old })
        (record { other = other.new; ranks = ranks.new; info = info.new }) result }
{
    let shape = match judge(input) {
        Ok(shape) => shape,
        Err(fault) => return refuse(fault, info),
    };
    let lists = lists_of(shape, input);
    match decide(alloc, &lists, objects, prices) {
        Ok(found) => put_answer(&lists, objects, prices, &found, other, ranks, info),
        Err(_) => refuse(Fault::Memory, info),
    }
}
