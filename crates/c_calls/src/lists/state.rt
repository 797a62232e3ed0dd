// Where a search begins, or goes on.
ghost use Rattle.std.specs.Prelude.{◌≡◌, IfOk, length};
ghost use Rattle.c_calls.specs.lists.Faults.{IsWhole};
ghost use Rattle.c_calls.specs.lists.Shapes.{HasStateLengths, IsShape};

use super::input::Input;
use crate::size::Shape;
use cost_lists::{Object, Price};
use list_solver::{Record, SearchState};
use std::alloc::{AllocError, Global};

// The first prices of a problem without a fault, or 0 for each object.
fn first_prices(alloc: Global, shape: Shape, input: &Input<'_>) -> Result<Vec<Price>, AllocError>
    requires shape { IsShape input.now shape }
    ensures { IfOk result (λ prices. length prices.items ≡ input.now.m) }
{
    if input.first.is_empty() {
        vec![in alloc; 0; shape.m as usize]
    } else {
        Vec::from_slice(alloc, input.first)
    }
}

/// Nobody has an object, and the prices are first prices or 0.
pub fn state_anew(alloc: Global, shape: Shape, input: &Input<'_>) -> Result<SearchState, AllocError>
    requires { IsShape input.now shape }
    ensures { IfOk result (HasStateLengths input.now) }
{
    let prices = first_prices(alloc, shape, input)?;
    let objects = vec![in alloc; 0; shape.n as usize]?;
    Ok(SearchState {
        prices,
        objects,
        record: Record::cold(),
    })
}

/// What a caller's lists and record say. Where the record begins, the prices are first prices or 0.
pub fn state_of(
    alloc: Global,
    shape: Shape,
    input: &Input<'_>,
    objects: &[Object],
    prices: &[Price],
    record: Record,
) -> Result<SearchState, AllocError>
    requires shape { IsShape input.now shape }
    requires objects { length objects.now ≡ input.now.n }
    requires prices { length prices.now ≡ input.now.m }
    ensures { IfOk result (HasStateLengths input.now) }
{
    let prices = if record.stage == 0 {
        first_prices(alloc, shape, input)?
    } else {
        Vec::from_slice(alloc, prices)?
    };
    let objects = Vec::from_slice(alloc, objects)?;
    Ok(SearchState {
        prices,
        objects,
        record,
    })
}
