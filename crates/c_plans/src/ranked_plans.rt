// The first plans of a caller's problem.
ghost use Rattle.std.specs.Prelude.{◌≡◌, ◌<◌, ◌≤◌, ◌*◌, length, take, drop};
ghost use Rattle.c_calls.specs.lists.Input.{HasLengths};
ghost use Rattle.c_plans.specs.Ranked.{IsRankedShown, JudgesRanked, each_length, ranked_buffers};
ghost use Rattle.c_plans.specs.RankedAnswers.{IsRankedAnswer};

use super::ranked::{Ranked, ranked_after};
use assign_core::Cost;
use c_calls::Fault;
use c_calls::lists::{Info, Input, judge, lists_of, refuse, report_verdict};
use cost_lists::{CostLists, Object, Price};
use std::alloc::Global;

/// `n`, if there are some plans, and a list of so many objects has `n` for each; else another number.
pub fn length_of_each(n: usize, length: usize, count: usize) -> usize
    ensures { result ≡ each_length n length count }
{
    if count != 0 && count.checked_mul(n) == Some(length) {
        n
    } else if n == 0 {
        1
    } else {
        0
    }
}

// Writes objects to the front of a buffer.
fn write_objects(buffer: &mut [Object], front: &[Object])
    requires { length front.now ≤ length buffer.old }
    ensures front { take (length front.now) buffer.new ≡ front.now }
    ensures rest { drop (length front.now) buffer.new ≡ drop (length front.now) buffer.old }
{
    let (first, _) = buffer.split_at_mut(front.len());
    first.copy_from_slice(front);
}

// Writes costs to the front of a buffer.
fn write_costs(buffer: &mut [Cost], front: &[Cost])
    requires { length front.now ≤ length buffer.old }
    ensures front { take (length front.now) buffer.new ≡ front.now }
    ensures rest { drop (length front.now) buffer.new ≡ drop (length front.now) buffer.old }
{
    let (first, _) = buffer.split_at_mut(front.len());
    first.copy_from_slice(front);
}

// Writes an answer, and returns its code.
fn put_ranked(
    lists: &CostLists<'_>,
    objects: &[Object],
    prices: &[Price],
    answer: &Ranked,
    plans: &mut [Object],
    totals: &mut [Cost],
    found: &mut usize,
    info: &mut Info,
) -> i32
    requires answer { IsRankedAnswer lists.now objects.now prices.now (length totals.old) answer.now }
    requires plans { length plans.old ≡ length totals.old * length lists.now.rows }
    ensures { IsRankedShown lists.now objects.now prices.now
        (ranked_buffers plans.old totals.old found.old info.old)
        (ranked_buffers plans.new totals.new found.new info.new) result }
{
    match answer {
        Ranked::Refused(verdict) => report_verdict(*verdict, info),
        Ranked::First(first, costs) => {
            write_objects(plans, first.as_slice());
            write_costs(totals, costs.as_slice());
            *found = costs.len();
            0
        }
        Ranked::All(all, costs) => {
            write_objects(plans, all.as_slice());
            write_costs(totals, costs.as_slice());
            *found = costs.len();
            25
        }
        Ranked::Open => 23,
    }
}

/// The first plans of a given problem in the order of their costs, so many as there are totals, after a best one
/// that these objects and prices are. Returns 0 where they are shown, and writes them, what they cost, and how
/// many they are; 25 where there are fewer, and these are all; 23 where neither was shown with so many arc
/// scans; the code of the plan's verdict where the prices don't prove it; or that of the first fault.
pub fn ranked_on(
    alloc: Global,
    input: &Input<'_>,
    objects: &[Object],
    prices: &[Price],
    arc_scans: u64,
    plans: &mut [Object],
    totals: &mut [Cost],
    found: &mut usize,
    info: &mut Info,
) -> i32
    requires plans { HasLengths input.now → length plans.old ≡ length totals.old * input.now.n }
    ensures { JudgesRanked input.now objects.now prices.now
        (ranked_buffers plans.old totals.old found.old info.old)
        (ranked_buffers plans.new totals.new found.new info.new) result }
{
    let shape = match judge(input) {
        Ok(shape) => shape,
        Err(fault) => return refuse(fault, info),
    };
    let lists = lists_of(shape, input);
    let count = totals.len();
    match ranked_after(alloc, &lists, objects, prices, count, arc_scans) {
        Ok(answer) => put_ranked(&lists, objects, prices, &answer, plans, totals, found, info),
        Err(_) => refuse(Fault::Memory, info),
    }
}
