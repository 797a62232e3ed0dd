// The calls for costs of 128 bits, as `c/nushbaret.h` declares them.
ghost use Rattle.std.specs.Prelude.{[], ◌∷◌, length};
ghost use Rattle.c_wide.specs.Ends.{IsWideJudged, IsWideReported, wide_buffers};
ghost use Rattle.c_wide.specs.Given.{given_wide};

use c_calls::lists::Info;
use c_wide::{WideInput, solve_wide, wide_form_of, wide_verdict_on};
use cost_lists::{Object, Person};
use std::alloc::Global;
use wide_checker::Wide;

/// Solves a problem of costs of 128 bits, which is dense or sparse as in `nushbaret_check`.
#[unsafe(no_mangle)]
pub extern "C" fn nushbaret_wide(
    alloc: Global,
    sense: u32,
    n: usize,
    m: usize,
    of_persons: &[Person],
    of_objects: &[Object],
    costs: &[Wide],
    objects: &mut [Object],
    persons: &mut [Person],
    prices: &mut [Wide],
    total: &mut Wide,
    info: &mut Info,
) -> i32
    ensures { IsWideReported
        (given_wide sense n m of_persons.now of_objects.now costs.now
        (length objects.old ∷ length persons.old ∷ []) (length prices.old ∷ []))
        (wide_buffers objects.old persons.old prices.old total.old info.old)
        (wide_buffers objects.new persons.new prices.new total.new info.new) result }
{
    let by_person = [objects.len(), persons.len()];
    let by_object = [prices.len()];
    let input = WideInput {
        form: wide_form_of(of_persons, of_objects, costs),
        sense,
        n,
        m,
        by_person: &by_person,
        by_object: &by_object,
        persons: of_persons,
        objects: of_objects,
        costs,
    };
    solve_wide(alloc, &input, objects, persons, prices, total, info)
}

/// Checks objects and prices against a problem of costs of 128 bits.
#[unsafe(no_mangle)]
pub extern "C" fn nushbaret_check_wide(
    alloc: Global,
    sense: u32,
    n: usize,
    m: usize,
    of_persons: &[Person],
    of_objects: &[Object],
    costs: &[Wide],
    objects: &[Object],
    prices: &[Wide],
    info: &mut Info,
) -> i32
    ensures { IsWideJudged (given_wide sense n m of_persons.now of_objects.now costs.now [] [])
        objects.now prices.now info.old info.new result }
{
    let input = WideInput {
        form: wide_form_of(of_persons, of_objects, costs),
        sense,
        n,
        m,
        by_person: &[],
        by_object: &[],
        persons: of_persons,
        objects: of_objects,
        costs,
    };
    wide_verdict_on(alloc, &input, objects, prices, info)
}
