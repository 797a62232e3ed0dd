// From given lists to an answer in the caller's buffers.
ghost use Rattle.std.specs.Prelude.{◌≡◌, length};
ghost use Rattle.c_calls.specs.lists.Input.{HasLengths};
ghost use Rattle.c_wide.specs.Answers.{IsWideAnswer};
ghost use Rattle.c_wide.specs.Ends.{IsWideReported, IsWideShown, wide_buffers};
ghost use Rattle.c_wide.specs.Given.{as_numbers};

use super::answer::{Answer, answer_of};
use super::input::WideInput;
use super::judge::{judge, lists_of};
use assign_core::hall_set_forbids;
use c_calls::lists::{Info, refuse};
use c_calls::{Fault, put_hall};
use cost_lists::{Object, Person};
use std::alloc::Global;
use wide_checker::{Wide, WideLists};

/// Writes an answer, and returns its code.
pub fn put_answer(
    lists: &WideLists<'_>,
    answer: &Answer,
    objects: &mut [Object],
    persons: &mut [Person],
    prices: &mut [Wide],
    total: &mut Wide,
    info: &mut Info,
) -> i32
    requires answer { IsWideAnswer lists.now answer.now }
    requires objects { length objects.old ≡ length lists.now.rows }
    requires persons { length persons.old ≡ length lists.now.rows }
    requires prices { length prices.old ≡ lists.now.m }
    ensures { IsWideShown lists.now
        (wide_buffers objects.old persons.old prices.old total.old info.old)
        (wide_buffers objects.new persons.new prices.new total.new info.new) result }
{
    // This call shows the prover that a Hall set leaves no assignment.
    hall_set_forbids();
    match answer {
        Answer::Best(own, exact, sum) => {
            objects.copy_from_slice(own.as_slice());
            prices.copy_from_slice(exact.as_slice());
            *total = *sum;
            0
        }
        Answer::Hall(set) => {
            put_hall(objects, persons, set);
            info.persons = set.persons.len() as u64;
            info.objects = set.objects.len() as u64;
            1
        }
        Answer::Undecided => 23,
    }
}

/// Solves the given problem. Writes the answer into the buffers, and returns its code. If there is no answer, they
/// stay as they were.
pub fn solve_wide(
    alloc: Global,
    input: &WideInput<'_>,
    objects: &mut [Object],
    persons: &mut [Person],
    prices: &mut [Wide],
    total: &mut Wide,
    info: &mut Info,
) -> i32
    requires objects { HasLengths (as_numbers input.now) → length objects.old ≡ input.now.n }
    requires persons { HasLengths (as_numbers input.now) → length persons.old ≡ input.now.n }
    requires prices { HasLengths (as_numbers input.now) → length prices.old ≡ input.now.m }
    ensures { IsWideReported input.now
        (wide_buffers objects.old persons.old prices.old total.old info.old)
        (wide_buffers objects.new persons.new prices.new total.new info.new) result }
{
    let shape = match judge(input) {
        Ok(shape) => shape,
        Err(fault) => return refuse(fault, info),
    };
    let lists = lists_of(shape, input);
    match answer_of(alloc, &lists) {
        Ok(answer) => put_answer(&lists, &answer, objects, persons, prices, total, info),
        Err(_) => refuse(Fault::Memory, info),
    }
}
