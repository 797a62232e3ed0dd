// Whether the lists that a caller gives are a problem, and their costs.
ghost use Rattle.std.specs.Prelude.{◌≡◌, length, MatchOption, IfOk, IfErr, OnOk};
ghost use Rattle.c_calls.specs.lists.Shapes.{IsShape};
ghost use Rattle.c_wide.specs.Given.{HasWideFault, IsWideWhole, as_numbers, wide_lists_in};

use super::input::{WideInput, has_pairs};
use c_calls::lists::{Form, UpTo, first_wrong};
use c_calls::{Fault, Shape, are_all, sense_by, size_by};
use wide_checker::{WideLists, WidePairs, first_beyond};

// The fault of the first list with a wrong element, at its first place.
fn first_fault(shape: Shape, input: &WideInput<'_>) -> Option<Fault>
    requires { IsShape (as_numbers input.now) shape }
    ensures { MatchOption result (IsWideWhole input.now) (HasWideFault input.now) }
{
    if let Some(place) = first_wrong(UpTo(shape.n), input.persons) {
        return Some(Fault::Person(place));
    }
    if let Some(place) = first_wrong(UpTo(shape.m), input.objects) {
        return Some(Fault::Object(place));
    }
    match first_beyond(input.costs) {
        Some(place) => Some(Fault::Cost(place)),
        None => None,
    }
}

// The sense and the size if each list has its length, or else the first fault.
fn shape_of(input: &WideInput<'_>) -> Result<Shape, Fault>
    ensures shape { IfOk result (IsShape (as_numbers input.now)) }
    ensures fault { IfErr result (HasWideFault input.now) }
{
    let Some(sense) = sense_by(input.sense) else {
        return Err(Fault::Sense);
    };
    let Some(n) = size_by(input.n) else {
        return Err(Fault::Size);
    };
    let Some(m) = size_by(input.m) else {
        return Err(Fault::Size);
    };
    if !has_pairs(input)
        || !are_all(input.by_person, input.n)
        || !are_all(input.by_object, input.m)
    {
        return Err(Fault::Length);
    }
    Ok(Shape { sense, n, m })
}

/// The sense and the size if the given lists have no fault, or else the first fault.
pub fn judge(input: &WideInput<'_>) -> Result<Shape, Fault>
    ensures shape { IfOk result (IsShape (as_numbers input.now)) }
    ensures whole { OnOk result (IsWideWhole input.now) }
    ensures fault { IfErr result (HasWideFault input.now) }
{
    let shape = shape_of(input)?;
    match first_fault(shape, input) {
        Some(fault) => Err(fault),
        None => Ok(shape),
    }
}

/// The costs of given lists without a fault. They are read where they are, and not copied.
pub fn lists_of<'a>(shape: Shape, input: &'a WideInput<'_>) -> WideLists<'a>
    requires shape { IsShape (as_numbers input.now) shape }
    requires whole { IsWideWhole input.now }
    ensures lists { result ≡ wide_lists_in shape.sense input.now }
    ensures persons { length result.rows ≡ input.now.n }
    ensures objects { result.m ≡ input.now.m }
{
    let Shape { sense, n, m } = shape;
    match input.form {
        Form::Dense => WideLists::dense(sense, n, m, input.costs),
        Form::Sparse => {
            let pairs = WidePairs {
                persons: input.persons,
                objects: input.objects,
                costs: input.costs,
            };
            WideLists::sparse(sense, n, m, pairs)
        }
    }
}
