// Plans of any program, checked against the given problem.
ghost use Rattle.std.specs.Prelude.{◌≡◌, ◌⊎◌, IfErr, IfOk};
ghost use Rattle.c_calls.specs.doubles.Checks.{IsJudged, IsOfInput, IsRefused, verdict_code};
ghost use Rattle.c_calls.specs.doubles.Checks.{with_verdict};
ghost use Rattle.c_calls.specs.doubles.Ends.{flag};
ghost use Rattle.c_calls.specs.doubles.Faults.{HasFault, IsShape};

use super::answer::refused;
use super::codes::refuse;
use super::info::DoublesInfo;
use super::input::Input;
use super::judge::judge;
use super::marks::marks;
use super::solve::number_of;
use crate::fault::Fault;
use crate::size::Shape;
use cost_lists::Object;
use double_checker::{Verdict, check};
use double_search::margin_of;
use std::alloc::{AllocError, Global};

// The verdict on these objects and prices.
fn verdict_in(
    alloc: Global,
    shape: Shape,
    input: &Input<'_>,
    objects: &[Object],
    prices: &[f64],
) -> Result<Verdict, AllocError>
    requires { IsShape input.now shape }
    ensures { IfOk result (IsOfInput input.now objects.now prices.now) }
{
    let mut owned = marks(alloc, shape.m)?;
    let margin = margin_of(shape.sense, input.costs);
    Ok(check(
        shape.sense,
        shape.n,
        shape.m,
        input.costs,
        objects,
        prices,
        margin,
        owned.as_mut_slice(),
    ))
}

fn verdict_on(
    alloc: Global,
    input: &Input<'_>,
    objects: &[Object],
    prices: &[f64],
) -> Result<Verdict, Fault>
    ensures verdict { IfOk result (IsOfInput input.now objects.now prices.now) }
    ensures fault { IfErr result (HasFault input.now) }
{
    let shape = judge(input)?;
    match verdict_in(alloc, shape, input, objects, prices) {
        Ok(verdict) => Ok(verdict),
        Err(_) => Err(refused(shape, input)),
    }
}

// The code of a verdict. Records what the verdict names.
fn report(verdict: Verdict, info: &mut DoublesInfo) -> i32
    ensures code { result ≡ verdict_code verdict }
    ensures names { info.new ≡ with_verdict verdict info.old }
{
    match verdict {
        Verdict::Length => 4,
        Verdict::Cost(place) => {
            info.place = place as u64;
            7
        }
        Verdict::Unlisted(person) => {
            info.person = u64::from(person);
            11
        }
        Verdict::Twice(person) => {
            info.person = u64::from(person);
            12
        }
        Verdict::Price(object) => {
            info.object = u64::from(object);
            13
        }
        Verdict::Undecided => 23,
        Verdict::Best { by_margin } => {
            info.by_margin = number_of(by_margin);
            0
        }
    }
}

/// Checks a plan with its prices against the given problem. All lists are read where they are.
pub fn check_input(
    alloc: Global,
    input: &Input<'_>,
    objects: &[Object],
    prices: &[f64],
    info: &mut DoublesInfo,
) -> i32
    ensures { IsJudged input.now objects.now prices.now info.old info.new result
        ⊎ IsRefused input.now info.old info.new result }
{
    match verdict_on(alloc, input, objects, prices) {
        Ok(verdict) => report(verdict, info),
        Err(fault) => refuse(fault, info),
    }
}
