// The call that asks which objects can change places, as `c/nushbaret.h` declares it.
ghost use Rattle.c_plans.specs.Groups.{GroupBuffers, JudgesGroups, groups_input};

use c_calls::lists::{Info, either_input};
use c_plans::groups_on;
use cost_lists::{Object, Person, Price};
use std::alloc::Global;

/// Which objects of an assignment with prices that prove it best can change places, of a problem which is
/// dense or sparse as in `nushbaret_check`.
#[unsafe(no_mangle)]
pub extern "C" fn nushbaret_groups(
    alloc: Global,
    sense: u32,
    n: usize,
    m: usize,
    of_persons: &[Person],
    of_objects: &[Object],
    costs: &[i64],
    objects: &[Object],
    prices: &[Price],
    groups: &mut [u32],
    info: &mut Info,
) -> i32
    ensures { let before : GroupBuffers = record { groups = groups.old; info = info.old } in
        let after : GroupBuffers = record { groups = groups.new; info = info.new } in
        JudgesGroups (groups_input sense n m of_persons.now of_objects.now costs.now before)
        objects.now prices.now before after result }
{
    let by_object = [groups.len()];
    let input = either_input(sense, n, m, &[], &by_object, of_persons, of_objects, costs);
    groups_on(alloc, &input, objects, prices, groups, info)
}
