// Whether the lists that a caller gives are a problem.
ghost use Rattle.std.specs.Prelude.{MatchOption, IfOk, IfErr, OnOk};
ghost use Rattle.c_calls.specs.lists.Faults.{HasFault, IsWhole};
ghost use Rattle.c_calls.specs.lists.Shapes.{IsShape};

use super::input::{Input, has_first, has_pairs};
use super::rule::{InCosts, InPrices, UpTo, first_wrong};
use crate::fault::Fault;
use crate::size::{Shape, are_all, sense_by, size_by};

// The fault of the first list with a wrong element, at its first place.
fn first_fault(shape: Shape, input: &Input<'_>) -> Option<Fault>
    requires { IsShape input.now shape }
    ensures { MatchOption result (IsWhole input.now) (HasFault input.now) }
{
    if let Some(place) = first_wrong(UpTo(shape.n), input.persons) {
        return Some(Fault::Person(place));
    }
    if let Some(place) = first_wrong(UpTo(shape.m), input.objects) {
        return Some(Fault::Object(place));
    }
    if let Some(place) = first_wrong(InCosts, input.costs) {
        return Some(Fault::Cost(place));
    }
    match first_wrong(InPrices, input.first) {
        Some(place) => Some(Fault::Price(place)),
        None => None,
    }
}

/// The sense and the size if each list has its length, or else the first fault.
pub fn shape_of(input: &Input<'_>) -> Result<Shape, Fault>
    ensures shape { IfOk result (IsShape input.now) }
    ensures fault { IfErr result (HasFault input.now) }
{
    let Some(sense) = sense_by(input.sense) else {
        return Err(Fault::Sense);
    };
    let Some(n) = size_by(input.n) else {
        return Err(Fault::Size);
    };
    let Some(m) = size_by(input.m) else {
        return Err(Fault::Size);
    };
    if !has_pairs(input)
        || !has_first(input)
        || !are_all(input.by_person, input.n)
        || !are_all(input.by_object, input.m)
    {
        return Err(Fault::Length);
    }
    Ok(Shape { sense, n, m })
}

/// The sense and the size if the given lists have no fault, or else the first fault.
pub fn judge(input: &Input<'_>) -> Result<Shape, Fault>
    ensures shape { IfOk result (IsShape input.now) }
    ensures whole { OnOk result (IsWhole input.now) }
    ensures fault { IfErr result (HasFault input.now) }
{
    let shape = shape_of(input)?;
    match first_fault(shape, input) {
        Some(fault) => Err(fault),
        None => Ok(shape),
    }
}
