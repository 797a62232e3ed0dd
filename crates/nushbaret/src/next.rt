// The call that asks for the next best plan, as `c/nushbaret.h` declares it.
ghost use Rattle.c_plans.specs.Next.{JudgesNext, next_buffers, next_input};

use c_calls::lists::{Info, either_input};
use c_plans::next_on;
use cost_lists::{Object, Person, Price};
use std::alloc::Global;

/// The next best assignment after a best one with prices that prove it, of a problem which is dense or sparse
/// as in `nushbaret_check`, its cost, and how much more that is. The search ends after so many looks at pairs.
#[unsafe(no_mangle)]
pub extern "C" fn nushbaret_next(
    alloc: Global,
    sense: u32,
    n: usize,
    m: usize,
    of_persons: &[Person],
    of_objects: &[Object],
    costs: &[i64],
    objects: &[Object],
    prices: &[Price],
    arc_scans: u64,
    other: &mut [Object],
    margin: &mut i64,
    info: &mut Info,
) -> i32
    ensures { let before = next_buffers other.old margin.old info.old in
        JudgesNext (next_input sense n m of_persons.now of_objects.now costs.now before)
        objects.now prices.now before (next_buffers other.new margin.new info.new) result }
{
    let by_person = [other.len()];
    let input = either_input(sense, n, m, &by_person, &[], of_persons, of_objects, costs);
    next_on(
        alloc, &input, objects, prices, arc_scans, other, margin, info,
    )
}
