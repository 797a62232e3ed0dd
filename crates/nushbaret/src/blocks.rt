// The calls on a block of a greater problem, as `c/nushbaret.h` declares them.
ghost use Rattle.c_blocks.specs.Blocks.{JudgesBlock, block_input, buffers};
ghost use Rattle.c_blocks.specs.DoubleBlocks.{JudgesDoubles, Numbers, double_block, shown_in};

use assign_core::Cost;
use c_blocks::{block_on, doubles_block_on, one_length};
use c_calls::doubles::{DoublesInfo, input_of as doubles_of};
use c_calls::lists::{Info, Input, form_of};
use cost_lists::{Object, Person, Price};
use std::alloc::Global;

/// Looks at `n` persons of a greater problem, or at some of their pairs, whose other pairs lie elsewhere:
/// whether a pair is better than its person's row number at these prices of all `m` objects.
#[unsafe(no_mangle)]
pub extern "C" fn nushbaret_block(
    alloc: Global,
    sense: u32,
    n: usize,
    m: usize,
    of_persons: &[Person],
    of_objects: &[Object],
    costs: &[Cost],
    objects: &[Object],
    numbers: &[Cost],
    prices: &[Price],
    most: usize,
    least: &mut [Cost],
    own: &mut [u8],
    better_persons: &mut [Person],
    better_objects: &mut [Object],
    better_costs: &mut [Cost],
    info: &mut Info,
) -> i32
    ensures { let before = buffers least.old own.old
        better_persons.old better_objects.old better_costs.old info.old in
        let after = buffers least.new own.new
        better_persons.new better_objects.new better_costs.new info.new in
        JudgesBlock (block_input sense n m of_persons.now of_objects.now costs.now objects.now numbers.now prices.now before)
        objects.now numbers.now before after result }
{
    let is_one = better_objects.len() == better_persons.len()
        && better_costs.len() == better_persons.len();
    let by_person = [
        objects.len(),
        numbers.len(),
        least.len(),
        own.len(),
        one_length(is_one, n),
    ];
    let by_object = [prices.len()];
    let input = Input {
        form: form_of(of_persons, of_objects, costs),
        sense,
        n,
        m,
        by_person: &by_person,
        by_object: &by_object,
        persons: of_persons,
        objects: of_objects,
        costs,
        first: prices,
    };
    block_on(
        alloc,
        &input,
        objects,
        numbers,
        most,
        least,
        own,
        better_persons,
        better_objects,
        better_costs,
        info,
    )
}

/// Looks at `n` whole rows of a greater problem over doubles, in exact arithmetic: whether a pair is better
/// than its person's row number at these prices of all `m` objects.
#[unsafe(no_mangle)]
pub extern "C" fn nushbaret_block_doubles(
    alloc: Global,
    sense: u32,
    n: usize,
    m: usize,
    costs: &[f64],
    objects: &[Object],
    number_costs: &[f64],
    number_prices: &[f64],
    prices: &[f64],
    most: usize,
    least_objects: &mut [Object],
    least_costs: &mut [f64],
    own: &mut [u8],
    better_persons: &mut [Person],
    better_objects: &mut [Object],
    better_costs: &mut [f64],
    info: &mut DoublesInfo,
) -> i32
    ensures { let numbers : Numbers = record {
      objects = objects.now;
      of_costs = number_costs.now;
      of_prices = number_prices.now;
      prices = prices.now;
    } in
        let before = shown_in least_objects.old least_costs.old own.old
        better_persons.old better_objects.old better_costs.old info.old in
        let after = shown_in least_objects.new least_costs.new own.new
        better_persons.new better_objects.new better_costs.new info.new in
        JudgesDoubles (double_block sense n m costs.now numbers before) numbers most before after result }
{
    let is_one = better_objects.len() == better_persons.len()
        && better_costs.len() == better_persons.len();
    let by_person = [
        objects.len(),
        number_costs.len(),
        number_prices.len(),
        least_objects.len(),
        least_costs.len(),
        own.len(),
        one_length(is_one, n),
    ];
    let by_object = [prices.len()];
    let input = doubles_of(sense, n, m, &by_person, &by_object, costs);
    doubles_block_on(
        alloc,
        &input,
        objects,
        number_costs,
        number_prices,
        prices,
        most,
        least_objects,
        least_costs,
        own,
        better_persons,
        better_objects,
        better_costs,
        info,
    )
}
