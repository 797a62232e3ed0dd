// The call that asks for the first plans, as `c/nushbaret.h` declares it.
ghost use Rattle.c_plans.specs.Ranked.{JudgesRanked, ranked_buffers, ranked_input};

use c_calls::lists::{Info, either_input};
use c_plans::{length_of_each, ranked_on};
use cost_lists::{Object, Person, Price};
use std::alloc::Global;

/// The first assignments in the order of their costs, so many as there are totals, after a best one with prices
/// that prove it, of a problem which is dense or sparse as in `nushbaret_check`, what each costs, and how many
/// they are. The search ends after so many looks at pairs.
#[unsafe(no_mangle)]
pub extern "C" fn nushbaret_ranked(
    alloc: Global,
    sense: u32,
    n: usize,
    m: usize,
    of_persons: &[Person],
    of_objects: &[Object],
    costs: &[i64],
    objects: &[Object],
    prices: &[Price],
    arc_scans: u64,
    plans: &mut [Object],
    totals: &mut [i64],
    found: &mut usize,
    info: &mut Info,
) -> i32
    ensures { let before = ranked_buffers plans.old totals.old found.old info.old in
        JudgesRanked (ranked_input sense n m of_persons.now of_objects.now costs.now before)
        objects.now prices.now before (ranked_buffers plans.new totals.new found.new info.new) result }
{
    let by_person = [length_of_each(n, plans.len(), totals.len())];
    let input = either_input(sense, n, m, &by_person, &[], of_persons, of_objects, costs);
    ranked_on(
        alloc, &input, objects, prices, arc_scans, plans, totals, found, info,
    )
}
