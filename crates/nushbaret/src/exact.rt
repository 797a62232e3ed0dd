// The calls on costs in doubles that decide exactly, as `c/nushbaret.h` declares them.
ghost use Rattle.std.specs.Prelude.{[], ◌∷◌, length};
ghost use Rattle.c_wide.specs.Ends.{wide_buffers};
ghost use Rattle.c_wide.specs.exact.Ends.{IsExactJudged, IsExactReported, exact_input};

use c_calls::doubles::input_of;
use c_calls::lists::Info;
use c_wide::{exact_verdict_on, solve_exact};
use cost_lists::{Object, Person};
use std::alloc::Global;
use wide_checker::Wide;

/// Solves a dense problem over doubles, as `nushbaret_doubles`, in whole numbers of a unit.
#[unsafe(no_mangle)]
pub extern "C" fn nushbaret_exact_doubles(
    alloc: Global,
    sense: u32,
    n: usize,
    m: usize,
    costs: &[f64],
    objects: &mut [Object],
    persons: &mut [Person],
    prices: &mut [Wide],
    total: &mut Wide,
    unit: &mut i32,
    info: &mut Info,
) -> i32
    ensures { IsExactReported
        (exact_input sense n m costs.now (length objects.old ∷ length persons.old ∷ [])
        (length prices.old ∷ []))
        (wide_buffers objects.old persons.old prices.old total.old info.old)
        (wide_buffers objects.new persons.new prices.new total.new info.new)
        unit.old unit.new result }
{
    let by_person = [objects.len(), persons.len()];
    let by_object = [prices.len()];
    let input = input_of(sense, n, m, &by_person, &by_object, costs);
    solve_exact(alloc, &input, objects, persons, prices, total, unit, info)
}

/// Checks a plan with prices in units against a dense problem over doubles.
#[unsafe(no_mangle)]
pub extern "C" fn nushbaret_check_exact_doubles(
    alloc: Global,
    sense: u32,
    n: usize,
    m: usize,
    costs: &[f64],
    objects: &[Object],
    prices: &[Wide],
    unit: &mut i32,
    info: &mut Info,
) -> i32
    ensures { IsExactJudged (exact_input sense n m costs.now [] []) objects.now prices.now info.old
        info.new unit.old unit.new result }
{
    let input = input_of(sense, n, m, &[], &[], costs);
    exact_verdict_on(alloc, &input, objects, prices, unit, info)
}
