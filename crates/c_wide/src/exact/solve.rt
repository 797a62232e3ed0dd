// From given doubles to an answer in the caller's buffers.
ghost use Rattle.std.specs.Prelude.{◌≡◌, ◌≤◌, ◌-ℤ◌, pos, length};
ghost use Rattle.c_calls.specs.doubles.Input.{HasLengths};
ghost use Rattle.c_wide.specs.Ends.{wide_buffers};
ghost use Rattle.c_wide.specs.exact.Ends.{IsExactReported};

use super::costs::{lists_in_units, unit_costs};
use super::judge::{Judged, judge_exact};
use super::unit::UNIT_ONE;
use crate::answer::answer_of;
use crate::solve::put_answer;
use c_calls::Fault;
use c_calls::doubles::Input;
use c_calls::lists::{Info, refuse};
use cost_lists::{Object, Person};
use std::alloc::Global;
use wide_checker::Wide;

// The exponent u of a unit 2^u.
pub fn exponent_of(unit: u64) -> i32
    requires { unit ≤ 4000 }
    ensures { result ≡ pos unit -ℤ pos 1074 }
{
    unit as i32 - UNIT_ONE as i32
}

/// Solves the given problem. Writes the answer and the unit into the buffers, and returns its code. If there is
/// a fault, they stay as they were.
pub fn solve_exact(
    alloc: Global,
    input: &Input<'_>,
    objects: &mut [Object],
    persons: &mut [Person],
    prices: &mut [Wide],
    total: &mut Wide,
    unit: &mut i32,
    info: &mut Info,
) -> i32
    requires objects { HasLengths input.now → length objects.old ≡ input.now.n }
    requires persons { HasLengths input.now → length persons.old ≡ input.now.n }
    requires prices { HasLengths input.now → length prices.old ≡ input.now.m }
    ensures { IsExactReported input.now
        (wide_buffers objects.old persons.old prices.old total.old info.old)
        (wide_buffers objects.new persons.new prices.new total.new info.new)
        unit.old unit.new result }
{
    let judged = match judge_exact(input) {
        Ok(judged) => judged,
        Err(fault) => return refuse(fault, info),
    };
    let costs = match unit_costs(alloc, judged.shape, input.costs, judged.unit) {
        Ok(costs) => costs,
        Err(_) => return refuse(Fault::Memory, info),
    };
    let lists = lists_in_units(judged.shape, &costs);
    match answer_of(alloc, &lists) {
        Ok(answer) => {
            *unit = exponent_of(judged.unit);
            put_answer(&lists, &answer, objects, persons, prices, total, info)
        }
        Err(_) => refuse(Fault::Memory, info),
    }
}
