// Plans of any program, checked against the given doubles.
ghost use Rattle.c_wide.specs.exact.Ends.{IsExactJudged};

use super::costs::{lists_in_units, unit_costs};
use super::judge::judge_exact;
use super::solve::exponent_of;
use c_calls::Fault;
use c_calls::doubles::Input;
use c_calls::lists::{Info, refuse, report_verdict};
use cost_lists::Object;
use std::alloc::Global;
use wide_checker::{Wide, check};

/// The verdict on these objects and prices in units: returns its code, and records what it names and the unit.
pub fn exact_verdict_on(
    alloc: Global,
    input: &Input<'_>,
    objects: &[Object],
    prices: &[Wide],
    unit: &mut i32,
    info: &mut Info,
) -> i32
    ensures { IsExactJudged input.now objects.now prices.now info.old info.new unit.old unit.new
        result }
{
    let judged = match judge_exact(input) {
        Ok(judged) => judged,
        Err(fault) => return refuse(fault, info),
    };
    let costs = match unit_costs(alloc, judged.shape, input.costs, judged.unit) {
        Ok(costs) => costs,
        Err(_) => return refuse(Fault::Memory, info),
    };
    let lists = lists_in_units(judged.shape, &costs);
    match check(alloc, &lists, objects, prices) {
        Ok(verdict) => {
            *unit = exponent_of(judged.unit);
            report_verdict(verdict, info)
        }
        Err(_) => refuse(Fault::Memory, info),
    }
}
