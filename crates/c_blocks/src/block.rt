// A block of a caller: judged, looked at, and what it shows written.
ghost use Rattle.std.specs.Prelude.{◌≡◌, ◌⊎◌, ◌<◌, ℕ, pos, length, All, IfErr, IfOk, MatchOption};
ghost use Rattle.dual_checker.specs.Faults.{IsFirst};
ghost use Rattle.cost_lists.specs.Blocks.{IsBounded};
ghost use Rattle.cost_lists.specs.Exact.{IsPriceInLimits};
ghost use Rattle.exact_checker.specs.Under.{HasUnder, IsUnder};
ghost use Rattle.c_calls.specs.lists.Faults.{HasFault, IsOfInput};
ghost use Rattle.c_calls.specs.lists.Input.{HasLengths};
ghost use Rattle.block_checker.specs.Pairs.{AreWritten};
ghost use Rattle.block_checker.specs.Sums.{AreLeastSums};
ghost use Rattle.c_blocks.specs.Blocks.{IsBlockShown, IsNamed, JudgesBlock, buffers, one_length};

use assign_core::Cost;
use block_checker::{first_better, look, own_marks, write_better};
use c_calls::Fault;
use c_calls::lists::{Info, Input, judge, lists_of, refuse};
use cost_lists::{CostLists, Object, Person, Price};
use std::alloc::{AllocError, Global};

/// `n` if lists have one length, and another number if they haven't.
pub fn one_length(is_one: bool, n: usize) -> usize
    ensures { result ≡ one_length is_one n }
{
    if is_one {
        n
    } else if n == 0 {
        1
    } else {
        0
    }
}

// Names the first better pair, if there is one, and says how many pairs were written.
fn report(first: Option<(Person, Object)>, count: usize, info: &mut Info) -> i32
    ensures none { MatchOption first ((result ≡ pos 0) × (info.new ≡ record info.old { persons = count }))
        (λ p. (result ≡ pos 14)
        × (info.new ≡ record info.old { persons = count; person = p.0; object = p.1 })) }
{
    info.persons = count as u64;
    match first {
        Some((person, object)) => {
            info.person = u64::from(person);
            info.object = u64::from(object);
            14
        }
        None => 0,
    }
}

// Looks at a block, and writes what it shows.
fn show(
    alloc: Global,
    lists: &CostLists<'_>,
    objects: &[Object],
    numbers: &[Cost],
    prices: &[Price],
    most: usize,
    least: &mut [Cost],
    own: &mut [u8],
    better_persons: &mut [Person],
    better_objects: &mut [Object],
    better_costs: &mut [Cost],
    info: &mut Info,
) -> Result<i32, AllocError>
    requires objects { length objects.now ≡ length lists.now.rows }
    requires numbers { length numbers.now ≡ length lists.now.rows }
    requires prices { length prices.now ≡ lists.now.m }
    requires in_range { All IsPriceInLimits prices.now }
    requires least { length least.old ≡ length lists.now.rows }
    requires own { length own.old ≡ length lists.now.rows }
    requires better_objects { length better_objects.old ≡ length better_persons.old }
    requires better_costs { length better_costs.old ≡ length better_persons.old }
    ensures shown { IfOk result (IsBlockShown lists.now objects.now numbers.now prices.now
        (buffers least.old own.old
        better_persons.old better_objects.old better_costs.old info.old)
        (buffers least.new own.new
        better_persons.new better_objects.new better_costs.new info.new)) }
    ensures stays { IfErr result (λ e. (least.new ≡ least.old) × (own.new ≡ own.old)
        × (better_persons.new ≡ better_persons.old) × (better_objects.new ≡ better_objects.old)
        × (better_costs.new ≡ better_costs.old) × (info.new ≡ info.old)) }
{
    let looked = look(alloc, lists, numbers, prices, most)?;
    let marks = own_marks(alloc, lists, objects, numbers, prices)?;
    let sums = looked.least.as_slice();
    let first = first_better(lists, numbers, prices, sums);
    let count = write_better(
        lists,
        numbers,
        prices,
        looked.selected.as_slice(),
        better_persons,
        better_objects,
        better_costs,
    );
    least.copy_from_slice(sums);
    own.copy_from_slice(marks.as_slice());
    Ok(report(first, count, info))
}

/// What a block of a greater problem shows at these row numbers and prices, which are the first prices
/// of `given`: whether a pair is better than its person's number, the least sum of each person, which own
/// pairs stand in the block at their numbers, and up to `most` better pairs of each person. Returns 0
/// where no pair is better, 14 where one is, or the code of the first fault, with which nothing but the
/// place of the fault is written.
pub fn block_on(
    alloc: Global,
    input: &Input<'_>,
    objects: &[Object],
    numbers: &[Cost],
    most: usize,
    least: &mut [Cost],
    own: &mut [u8],
    better_persons: &mut [Person],
    better_objects: &mut [Object],
    better_costs: &mut [Cost],
    info: &mut Info,
) -> i32
    requires objects { HasLengths input.now → length objects.now ≡ input.now.n }
    requires numbers { HasLengths input.now → length numbers.now ≡ input.now.n }
    requires prices { HasLengths input.now → length input.now.first ≡ input.now.m }
    requires least { HasLengths input.now → length least.old ≡ input.now.n }
    requires own { HasLengths input.now → length own.old ≡ input.now.n }
    requires better_objects { HasLengths input.now
        → length better_objects.old ≡ length better_persons.old }
    requires better_costs { HasLengths input.now
        → length better_costs.old ≡ length better_persons.old }
    ensures { JudgesBlock input.now objects.now numbers.now
        (buffers least.old own.old
        better_persons.old better_objects.old better_costs.old info.old)
        (buffers least.new own.new
        better_persons.new better_objects.new better_costs.new info.new) result }
{
    let shape = match judge(input) {
        Ok(shape) => shape,
        Err(fault) => return refuse(fault, info),
    };
    let lists = lists_of(shape, input);
    match show(
        alloc,
        &lists,
        objects,
        numbers,
        input.first,
        most,
        least,
        own,
        better_persons,
        better_objects,
        better_costs,
        info,
    ) {
        Ok(code) => code,
        Err(_) => refuse(Fault::Memory, info),
    }
}
