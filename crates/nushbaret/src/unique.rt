// The call that asks whether a plan is the only best one, as `c/nushbaret.h` declares it.
ghost use Rattle.c_plans.specs.Unique.{JudgesUnique, UniqueBuffers, unique_input};

use c_calls::lists::{Info, either_input};
use c_plans::unique_on;
use cost_lists::{Object, Person, Price};
use std::alloc::Global;

/// Whether an assignment with prices that prove it is the only best one of a problem, which is dense or
/// sparse as in `nushbaret_check`.
#[unsafe(no_mangle)]
pub extern "C" fn nushbaret_unique(
    alloc: Global,
    sense: u32,
    n: usize,
    m: usize,
    of_persons: &[Person],
    of_objects: &[Object],
    costs: &[i64],
    objects: &[Object],
    prices: &[Price],
    other: &mut [Object],
    ranks: &mut [i32],
    info: &mut Info,
) -> i32
    ensures { let before : UniqueBuffers = record { other = other.old; ranks = ranks.old; info = info.old } in
        let after : UniqueBuffers = record { other = other.new; ranks = ranks.new; info = info.new } in
        JudgesUnique (unique_input sense n m of_persons.now of_objects.now costs.now before)
        objects.now prices.now before after result }
{
    let by_person = [other.len()];
    let by_object = [ranks.len()];
    let input = either_input(
        sense, n, m, &by_person, &by_object, of_persons, of_objects, costs,
    );
    unique_on(alloc, &input, objects, prices, other, ranks, info)
}
