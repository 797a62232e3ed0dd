// The next best plan after a caller's one.
ghost use Rattle.std.specs.Prelude.{◌≡◌, ◌⊎◌, length};
ghost use Rattle.c_calls.specs.lists.Input.{HasLengths};
ghost use Rattle.c_plans.specs.Next.{IsNextShown, JudgesNext, next_buffers};
ghost use Rattle.c_plans.specs.NextAnswers.{IsNextAnswer};

use super::next::{Next, next_after};
use assign_core::Cost;
use c_calls::Fault;
use c_calls::lists::{Info, Input, judge, lists_of, refuse, report_verdict};
use cost_lists::{CostLists, Object, Price, exact_means_best};
use std::alloc::Global;

// Writes an answer, and returns its code.
fn put_next(
    lists: &CostLists<'_>,
    objects: &[Object],
    prices: &[Price],
    answer: &Next,
    other: &mut [Object],
    margin: &mut Cost,
    info: &mut Info,
) -> i32
    requires answer { IsNextAnswer lists.now objects.now prices.now answer.now }
    requires other { length other.old ≡ length lists.now.rows }
    ensures { IsNextShown lists.now objects.now prices.now
        (next_buffers other.old margin.old info.old)
        (next_buffers other.new margin.new info.new) result }
{
    // These calls show the prover what an optimum means.
    let _persons = lists.persons();
    exact_means_best();
    match answer {
        Next::Refused(verdict) => report_verdict(*verdict, info),
        Next::Alone => 25,
        Next::Another(found, cost) => {
            other.copy_from_slice(found.as_slice());
            *margin = cost.margin;
            info.total = cost.total;
            0
        }
        Next::Open => 23,
    }
}

/// The next best plan after that of these objects and prices, of a given problem. Returns 0 where it is
/// shown, and writes it, its cost, and how much more that is; 25 where there is no other plan; 23 where
/// neither was shown with so many arc scans; the code of the plan's verdict where the prices don't prove it; or
/// that of the first fault.
pub fn next_on(
    alloc: Global,
    input: &Input<'_>,
    objects: &[Object],
    prices: &[Price],
    arc_scans: u64,
    other: &mut [Object],
    margin: &mut Cost,
    info: &mut Info,
) -> i32
    requires other { HasLengths input.now → length other.old ≡ input.now.n }
    ensures { JudgesNext input.now objects.now prices.now
        (next_buffers other.old margin.old info.old)
        (next_buffers other.new margin.new info.new) result }
{
    let shape = match judge(input) {
        Ok(shape) => shape,
        Err(fault) => return refuse(fault, info),
    };
    let lists = lists_of(shape, input);
    match next_after(alloc, &lists, objects, prices, arc_scans) {
        Ok(found) => put_next(&lists, objects, prices, &found, other, margin, info),
        Err(_) => refuse(Fault::Memory, info),
    }
}
