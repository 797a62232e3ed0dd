// The outcome where each person has an object.
ghost use Rattle.std.specs.Prelude.{◌≡◌, ◌<◌, drop, length, IfOk};

use super::outcome::Optimum;
use super::plan::Plan;
use cost_lists::{Object, Price};
use std::alloc::{AllocError, Global};

// The objects of persons 1, 2, ..
fn objects_of(alloc: Global, objects: &[Object]) -> Result<Vec<Object>, AllocError>
    requires { 0 < length objects.now }
    ensures { IfOk result (λ v. v.items ≡ drop 1 objects.now) }
{
    let (_, rest) = objects.split_at(1);
    Ok(rest.to_vec(alloc)?)
}

// The prices of objects 1, 2, ..
fn prices_of(alloc: Global, prices: &[Price]) -> Result<Vec<Price>, AllocError>
    requires { 0 < length prices.now }
    ensures { IfOk result (λ v. v.items ≡ drop 1 prices.now) }
{
    let (_, rest) = prices.split_at(1);
    Ok(rest.to_vec(alloc)?)
}

pub fn finish(alloc: Global, plan: &Plan) -> Result<Optimum, AllocError>
    requires objects { 0 < length plan.now.objects.items }
    requires prices { 0 < length plan.now.prices.items }
    ensures objects { IfOk result (λ o. o.objects.items ≡ drop 1 plan.now.objects.items) }
    ensures prices { IfOk result (λ o. o.prices.items ≡ drop 1 plan.now.prices.items) }
{
    Ok(Optimum {
        objects: objects_of(alloc, plan.objects.as_slice())?,
        prices: prices_of(alloc, plan.prices.as_slice())?,
    })
}
