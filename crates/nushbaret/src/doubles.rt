// The calls on costs in doubles, as `c/nushbaret.h` declares them.
ghost use Rattle.std.specs.Prelude.{◌⊎◌};
ghost use Rattle.c_calls.specs.doubles.Checks.{IsJudged, IsRefused, with_answer};
ghost use Rattle.c_calls.specs.doubles.Ends.{Solves, buffers};

use c_calls::doubles::{DoublesInfo, check_input, input_of, solve_from, solve_input};
use cost_lists::{Object, Person};
use std::alloc::Global;

/// Solves a dense problem over doubles: `n` persons, `m` objects, and the cost of each pair, row by
/// row. An infinite cost forbids its pair.
#[unsafe(no_mangle)]
pub extern "C" fn nushbaret_doubles(
    alloc: Global,
    sense: u32,
    n: usize,
    m: usize,
    costs: &[f64],
    objects: &mut [Object],
    persons: &mut [Person],
    prices: &mut [f64],
    info: &mut DoublesInfo,
) -> i32
    ensures { Solves sense n m costs.now
        (buffers objects.old persons.old prices.old info.old)
        (buffers objects.new persons.new prices.new info.new) result }
{
    let by_person = [objects.len(), persons.len()];
    let by_object = [prices.len()];
    let input = input_of(sense, n, m, &by_person, &by_object, costs);
    solve_input(alloc, &input, objects, persons, prices, info)
}

/// The same from the objects and prices that are given.
#[unsafe(no_mangle)]
pub extern "C" fn nushbaret_doubles_from(
    alloc: Global,
    sense: u32,
    n: usize,
    m: usize,
    costs: &[f64],
    objects: &mut [Object],
    persons: &mut [Person],
    prices: &mut [f64],
    info: &mut DoublesInfo,
) -> i32
    ensures { Solves sense n m costs.now
        (buffers objects.old persons.old prices.old info.old)
        (buffers objects.new persons.new prices.new info.new) result }
{
    let by_person = [objects.len(), persons.len()];
    let by_object = [prices.len()];
    let input = input_of(sense, n, m, &by_person, &by_object, costs);
    solve_from(alloc, &input, objects, persons, prices, info)
}

/// Checks a plan with its prices against a dense problem over doubles.
#[unsafe(no_mangle)]
pub extern "C" fn nushbaret_check_doubles(
    alloc: Global,
    sense: u32,
    n: usize,
    m: usize,
    costs: &[f64],
    objects: &[Object],
    prices: &[f64],
    info: &mut DoublesInfo,
) -> i32
    ensures { let input = with_answer sense n m costs.now objects.now prices.now in
        IsJudged input objects.now prices.now info.old info.new result
        ⊎ IsRefused input info.old info.new result }
{
    let by_person = [objects.len()];
    let by_object = [prices.len()];
    let input = input_of(sense, n, m, &by_person, &by_object, costs);
    check_input(alloc, &input, objects, prices, info)
}
