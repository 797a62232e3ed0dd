// The calls that check answers, as `c/nushbaret.h` declares them.
ghost use Rattle.std.specs.Prelude.{◌⊎◌};
ghost use Rattle.c_calls.specs.lists.Checks.{IsHallJudged, IsJudged, IsRefused};
ghost use Rattle.c_calls.specs.lists.Input.{either};

use c_calls::lists::{
    Info, either_input, hall_verdict_on, refuse, report_hall_verdict, report_verdict, verdict_on,
};
use cost_lists::{Object, Person, Price};
use std::alloc::Global;

/// Checks an assignment with its prices against a problem. The problem is dense if there are costs
/// but no list of pairs; otherwise it is sparse.
#[unsafe(no_mangle)]
pub extern "C" fn nushbaret_check(
    alloc: Global,
    sense: u32,
    n: usize,
    m: usize,
    of_persons: &[Person],
    of_objects: &[Object],
    costs: &[i64],
    objects: &[Object],
    prices: &[Price],
    info: &mut Info,
) -> i32
    ensures { let input = either sense n m of_persons.now of_objects.now costs.now in
        IsJudged input objects.now prices.now info.old info.new result
        ⊎ IsRefused input info.old info.new result }
{
    let input = either_input(sense, n, m, &[], &[], of_persons, of_objects, costs);
    match verdict_on(alloc, &input, objects, prices) {
        Ok(verdict) => report_verdict(verdict, info),
        Err(fault) => refuse(fault, info),
    }
}

/// Checks a Hall set against a problem, which is dense or sparse as in `nushbaret_check`.
#[unsafe(no_mangle)]
pub extern "C" fn nushbaret_check_hall(
    alloc: Global,
    n: usize,
    m: usize,
    of_persons: &[Person],
    of_objects: &[Object],
    costs: &[i64],
    persons: &[Person],
    objects: &[Object],
    info: &mut Info,
) -> i32
    ensures { let input = either 0 n m of_persons.now of_objects.now costs.now in
        IsHallJudged input persons.now objects.now info.old info.new result
        ⊎ IsRefused input info.old info.new result }
{
    let input = either_input(0, n, m, &[], &[], of_persons, of_objects, costs);
    match hall_verdict_on(alloc, &input, persons, objects) {
        Ok(verdict) => report_hall_verdict(verdict, info),
        Err(fault) => refuse(fault, info),
    }
}
