// Answers of any program, checked against the given problem.
ghost use Rattle.c_wide.specs.Ends.{IsWideJudged};

use super::input::WideInput;
use super::judge::{judge, lists_of};
use c_calls::Fault;
use c_calls::lists::{Info, refuse, report_verdict};
use cost_lists::Object;
use std::alloc::Global;
use wide_checker::{Wide, check};

/// The verdict on these objects and prices: returns its code, and records what it names. All lists are read where
/// they are.
pub fn wide_verdict_on(
    alloc: Global,
    input: &WideInput<'_>,
    objects: &[Object],
    prices: &[Wide],
    info: &mut Info,
) -> i32
    ensures { IsWideJudged input.now objects.now prices.now info.old info.new result }
{
    let shape = match judge(input) {
        Ok(shape) => shape,
        Err(fault) => return refuse(fault, info),
    };
    let lists = lists_of(shape, input);
    match check(alloc, &lists, objects, prices) {
        Ok(verdict) => report_verdict(verdict, info),
        Err(_) => refuse(Fault::Memory, info),
    }
}
