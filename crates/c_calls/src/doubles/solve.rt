// From given costs to an answer in the caller's buffers.
ghost use Rattle.std.specs.Prelude.{◌≡◌, IfErr, IfOk, length};
ghost use Rattle.c_calls.specs.doubles.Answers.{IsFound};
ghost use Rattle.c_calls.specs.doubles.Ends.{IsEnded, IsReported, buffers, flag};
ghost use Rattle.c_calls.specs.doubles.Faults.{HasFault};
ghost use Rattle.c_calls.specs.doubles.Input.{HasLengths};

use super::answer::{Answer, Plan, Start, answer_on};
use super::codes::{code_of_answer, refuse};
use super::info::DoublesInfo;
use super::input::Input;
use crate::buffers::put_hall;
use crate::fault::Fault;
use cost_lists::{Object, Person};
use std::alloc::Global;

/// 1 or 0.
pub fn number_of(is_set: bool) -> u32
    ensures { result ≡ flag is_set }
{
    if is_set { 1 } else { 0 }
}

// Writes a plan and its prices.
fn put_plan(objects: &mut [Object], prices: &mut [f64], info: &mut DoublesInfo, plan: &Plan)
    requires objects { length objects.old ≡ length plan.now.objects.items }
    requires prices { length prices.old ≡ length plan.now.prices.items }
    ensures objects { objects.new ≡ plan.now.objects.items }
    ensures prices { prices.new ≡ plan.now.prices.items }
    ensures info { info.new ≡ record info.old { by_margin = flag plan.now.by_margin } }
{
    objects.copy_from_slice(plan.objects.as_slice());
    prices.copy_from_slice(plan.prices.as_slice());
    info.by_margin = number_of(plan.by_margin);
}

// Writes an answer into the buffers.
fn put_answer(
    input: &Input<'_>,
    answer: &Answer,
    objects: &mut [Object],
    persons: &mut [Person],
    prices: &mut [f64],
    info: &mut DoublesInfo,
)
    requires answer { IsFound input.now answer.now }
    requires objects { length objects.old ≡ input.now.n }
    requires persons { length persons.old ≡ input.now.n }
    requires prices { length prices.old ≡ input.now.m }
    ensures { IsEnded input.now
        (buffers objects.old persons.old prices.old info.old)
        (buffers objects.new persons.new prices.new info.new) answer.now }
{
    match answer {
        Answer::Best(plan) => put_plan(objects, prices, info, plan),
        Answer::Hall(set) => {
            put_hall(objects, persons, set);
            info.persons = set.persons.len() as u64;
            info.objects = set.objects.len() as u64;
        }
        Answer::Undecided => {}
    }
}

// Writes an answer or a fault into the buffers, and returns its code.
fn put_end(
    input: &Input<'_>,
    answered: Result<Answer, Fault>,
    objects: &mut [Object],
    persons: &mut [Person],
    prices: &mut [f64],
    info: &mut DoublesInfo,
) -> i32
    requires found { IfOk answered (IsFound input.now) }
    requires fault { IfErr answered (HasFault input.now) }
    requires objects { HasLengths input.now → length objects.old ≡ input.now.n }
    requires persons { HasLengths input.now → length persons.old ≡ input.now.n }
    requires prices { HasLengths input.now → length prices.old ≡ input.now.m }
    ensures { IsReported input.now
        (buffers objects.old persons.old prices.old info.old)
        (buffers objects.new persons.new prices.new info.new) result }
{
    let answer = match answered {
        Ok(answer) => answer,
        Err(fault) => return refuse(fault, info),
    };
    put_answer(input, &answer, objects, persons, prices, info);
    code_of_answer(&answer)
}

/// Solves the given problem. Writes the answer into the buffers, and returns its code. If there is
/// no answer, the lists stay as they were.
pub fn solve_input(
    alloc: Global,
    input: &Input<'_>,
    objects: &mut [Object],
    persons: &mut [Person],
    prices: &mut [f64],
    info: &mut DoublesInfo,
) -> i32
    requires objects { HasLengths input.now → length objects.old ≡ input.now.n }
    requires persons { HasLengths input.now → length persons.old ≡ input.now.n }
    requires prices { HasLengths input.now → length prices.old ≡ input.now.m }
    ensures { IsReported input.now
        (buffers objects.old persons.old prices.old info.old)
        (buffers objects.new persons.new prices.new info.new) result }
{
    let answered = answer_on(alloc, input, Start::Nothing);
    put_end(input, answered, objects, persons, prices, info)
}

/// Solves the given problem from the plan and the prices in the buffers. Whatever they hold, the
/// answer is as good.
pub fn solve_from(
    alloc: Global,
    input: &Input<'_>,
    objects: &mut [Object],
    persons: &mut [Person],
    prices: &mut [f64],
    info: &mut DoublesInfo,
) -> i32
    requires objects { HasLengths input.now → length objects.old ≡ input.now.n }
    requires persons { HasLengths input.now → length persons.old ≡ input.now.n }
    requires prices { HasLengths input.now → length prices.old ≡ input.now.m }
    ensures { IsReported input.now
        (buffers objects.old persons.old prices.old info.old)
        (buffers objects.new persons.new prices.new info.new) result }
{
    let answered = answer_on(alloc, input, Start::Plan(objects, prices));
    put_end(input, answered, objects, persons, prices, info)
}
