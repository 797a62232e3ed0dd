// A block over doubles of a caller: judged, looked at, and what it shows written.
ghost use Rattle.std.specs.Prelude.{◌≡◌, ◌<◌, ◌*◌, ◌^◌, pos, length, IfErr, IfOk, MatchOption, OnOk};
ghost use Rattle.dual_checker.specs.Faults.{IsFirst};
ghost use Rattle.cost_lists.specs.Blocks.{IsBounded};
ghost use Rattle.exact_checker.specs.Under.{HasUnder, IsUnder};
ghost use Rattle.double_costs.specs.DoubleRows.{rows_of_doubles};
ghost use Rattle.double_checker.specs.Verdicts.{price_units};
ghost use Rattle.block_doubles.specs.Pairs.{AreLeastPairs, AreMarks, AreWritten, numbers_in};
ghost use Rattle.c_calls.specs.doubles.Input.{HasLengths};
ghost use Rattle.c_blocks.specs.DoubleBlocks.{AreFinite, JudgesDoubles, Numbers, shown_in};

use assign_core::Sense;
use block_doubles::{first_infinite, look, write_better};
use c_calls::doubles::{DoublesInfo, Input, judge_costs, refuse};
use cost_lists::{Object, Person};
use std::alloc::{AllocError, Global};

// The first better pair, and how many were written.
#[derive(Clone, Copy)]
struct Looked {
    first: Option<(Person, Object)>,
    count: usize,
}

// Names the first better pair, if there is one, and says how many pairs were written.
fn report(first: Option<(Person, Object)>, count: usize, info: &mut DoublesInfo) -> i32
    ensures { MatchOption first
        ((result ≡ pos 0) × (info.new ≡ record info.old { persons = count }))
        (λ p. (result ≡ pos 14)
        × (info.new ≡ record info.old { persons = count; person = p.0; object = p.1 })) }
{
    info.persons = count as u64;
    match first {
        Some((person, object)) => {
            info.person = u64::from(person);
            info.object = u64::from(object);
            14
        }
        None => 0,
    }
}

// Looks at a block, and writes what it shows.
fn show(
    alloc: Global,
    sense: Sense,
    costs: &[f64],
    objects: &[Object],
    number_costs: &[f64],
    number_prices: &[f64],
    prices: &[f64],
    most: usize,
    least_objects: &mut [Object],
    least_costs: &mut [f64],
    own: &mut [u8],
    better_persons: &mut [Person],
    better_objects: &mut [Object],
    better_costs: &mut [f64],
) -> Result<Looked, AllocError>
    requires long { length costs.now ≡ length objects.now * length prices.now }
    requires few { length prices.now < 2 ^ 32 }
    requires few_persons { length objects.now < 2 ^ 32 }
    requires number_costs { length number_costs.now ≡ length objects.now }
    requires number_prices { length number_prices.now ≡ length objects.now }
    requires prices { AreFinite prices.now }
    requires costs_finite { AreFinite number_costs.now }
    requires prices_finite { AreFinite number_prices.now }
    requires least_objects { length least_objects.old ≡ length objects.now }
    requires least_costs { length least_costs.old ≡ length objects.now }
    requires own { length own.old ≡ length objects.now }
    requires better_objects { length better_objects.old ≡ length better_persons.old }
    requires better_costs { length better_costs.old ≡ length better_persons.old }
    ensures least { OnOk result (AreLeastPairs sense
        (rows_of_doubles (length prices.now) (length objects.now) costs.now) (price_units prices.now)
        least_objects.new least_costs.new) }
    ensures own { OnOk result (AreMarks sense
        (rows_of_doubles (length prices.now) (length objects.now) costs.now) (price_units prices.now)
        objects.now (numbers_in sense number_costs.now number_prices.now) own.new) }
    ensures first { IfOk result (λ r.
        let rows = rows_of_doubles (length prices.now) (length objects.now) costs.now in
        let numbers = numbers_in sense number_costs.now number_prices.now in
        MatchOption r.first (IsBounded sense rows (price_units prices.now) numbers)
        (λ p. IsFirst (HasUnder sense rows (price_units prices.now) numbers) (length objects.now) p.0
        × IsFirst (IsUnder sense rows (price_units prices.now) numbers p.0) (length prices.now) p.1)) }
    ensures better { IfOk result (λ r. AreWritten sense
        (rows_of_doubles (length prices.now) (length number_costs.now) costs.now)
        (price_units prices.now) (numbers_in sense number_costs.now number_prices.now) most r.count
        (record { persons = better_persons.old; objects = better_objects.old; costs = better_costs.old })
        (record { persons = better_persons.new; objects = better_objects.new; costs = better_costs.new })) }
    ensures stays { IfErr result (λ e. (least_objects.new ≡ least_objects.old)
        × (least_costs.new ≡ least_costs.old) × (own.new ≡ own.old)
        × (better_persons.new ≡ better_persons.old) × (better_objects.new ≡ better_objects.old)
        × (better_costs.new ≡ better_costs.old)) }
{
    let n = objects.len();
    let mut best: Vec<Object> = vec![in alloc; 0; n]?;
    let mut paid: Vec<f64> = vec![in alloc; 0.0; n]?;
    let mut marks: Vec<u8> = vec![in alloc; 0; n]?;
    let first = look(
        sense,
        costs,
        objects,
        number_costs,
        number_prices,
        prices,
        best.as_mut_slice(),
        paid.as_mut_slice(),
        marks.as_mut_slice(),
    );
    let count = write_better(
        alloc,
        sense,
        costs,
        number_costs,
        number_prices,
        prices,
        best.as_slice(),
        paid.as_slice(),
        most,
        better_persons,
        better_objects,
        better_costs,
    )?;
    least_objects.copy_from_slice(best.as_slice());
    least_costs.copy_from_slice(paid.as_slice());
    own.copy_from_slice(marks.as_slice());
    Ok(Looked { first, count })
}

/// What rows of a greater problem over doubles show at these row numbers and prices, in exact arithmetic: whether
/// a pair is better than its person's number, a pair of the least sum of each person, which own pairs stand in the
/// block at their numbers, and up to `most` better pairs of each person. A number is the sum of a cost (under `Max`
/// its negative) and a price. Returns 0 where no pair is better, 14 where one is, or the code of the first fault,
/// with which nothing but what the fault names is written.
pub fn doubles_block_on(
    alloc: Global,
    input: &Input<'_>,
    objects: &[Object],
    number_costs: &[f64],
    number_prices: &[f64],
    prices: &[f64],
    most: usize,
    least_objects: &mut [Object],
    least_costs: &mut [f64],
    own: &mut [u8],
    better_persons: &mut [Person],
    better_objects: &mut [Object],
    better_costs: &mut [f64],
    info: &mut DoublesInfo,
) -> i32
    requires objects { HasLengths input.now → length objects.now ≡ input.now.n }
    requires number_costs { HasLengths input.now → length number_costs.now ≡ input.now.n }
    requires number_prices { HasLengths input.now → length number_prices.now ≡ input.now.n }
    requires prices { HasLengths input.now → length prices.now ≡ input.now.m }
    requires least_objects { HasLengths input.now → length least_objects.old ≡ input.now.n }
    requires least_costs { HasLengths input.now → length least_costs.old ≡ input.now.n }
    requires own { HasLengths input.now → length own.old ≡ input.now.n }
    requires better_objects { HasLengths input.now
        → length better_objects.old ≡ length better_persons.old }
    requires better_costs { HasLengths input.now
        → length better_costs.old ≡ length better_persons.old }
    ensures { let numbers : Numbers = record {
      objects = objects.now;
      of_costs = number_costs.now;
      of_prices = number_prices.now;
      prices = prices.now;
    } in
        JudgesDoubles input.now numbers most
        (shown_in least_objects.old least_costs.old own.old
        better_persons.old better_objects.old better_costs.old info.old)
        (shown_in least_objects.new least_costs.new own.new
        better_persons.new better_objects.new better_costs.new info.new) result }
{
    let shape = match judge_costs(input) {
        Ok(shape) => shape,
        Err(fault) => return refuse(fault, info),
    };
    if let Some(object) = first_infinite(prices, prices) {
        info.object = u64::from(object);
        return 13;
    }
    if let Some(person) = first_infinite(number_costs, number_prices) {
        info.person = u64::from(person);
        return 8;
    }
    match show(
        alloc,
        shape.sense,
        input.costs,
        objects,
        number_costs,
        number_prices,
        prices,
        most,
        least_objects,
        least_costs,
        own,
        better_persons,
        better_objects,
        better_costs,
    ) {
        Ok(looked) => report(looked.first, looked.count, info),
        Err(_) => 9,
    }
}
