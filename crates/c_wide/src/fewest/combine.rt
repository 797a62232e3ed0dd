// Combined costs: n + 1 times a cost, and 1 for a pair that isn't kept.
ghost use Rattle.std.specs.Prelude.{◌≡◌, ◌≤◌, ◌≤ℤ◌, ◌<◌, ◌+◌, ◌*ℤ◌, ◌^◌, ℕ, List, pos, neg_ℤ, length, slice_index_or, All, IfOk};
ghost use Rattle.assign_core.specs.Rows.{IsCost};
ghost use Rattle.cost_lists.specs.ListedCosts.{IsCount};
ghost use Rattle.c_calls.specs.lists.Faults.{IsWhole};
ghost use Rattle.c_calls.specs.lists.Input.{lists_in};
ghost use Rattle.c_calls.specs.lists.Shapes.{IsShape};
ghost use Rattle.wide_checker.specs.WideNumbers.{IsInCosts, IsWideCost, wide_value};
ghost use Rattle.c_wide.specs.fewest.Changes.{change, changed_by, combined_lists, with_change};
ghost use Rattle.c_wide.specs.fewest.Combined.{AreCombined, combined_at, object_at, person_at};

use super::kept::change_of;
use assign_core::{Cost, Sense};
use c_calls::Shape;
use c_calls::lists::{Form, Input};
use cost_lists::{Object, Person};
use std::alloc::{AllocError, Global};
use wide_checker::{Wide, WideLists, WidePairs};

// A cost that counts before all changes of n persons.
fn scaled(n: Person, cost: Cost) -> i64
    requires persons { IsCount n }
    requires cost { IsCost cost }
    ensures value { result ≡ pos (n + 1) *ℤ cost }
    ensures least { neg_ℤ (pos (2 ^ 62)) ≤ℤ result }
    ensures greatest { result ≤ℤ pos (2 ^ 62) }
{
    (i64::from(n) + 1) * cost
}

// A cost of 64 bits that is worse by a change.
fn changed(sense: Sense, scaled: i64, by: u32) -> i64
    requires least { neg_ℤ (pos (2 ^ 62)) ≤ℤ scaled }
    requires greatest { scaled ≤ℤ pos (2 ^ 62) }
    requires few { by ≤ 1 }
    ensures value { result ≡ changed_by sense scaled by }
    ensures range { IsInCosts result }
{
    match sense {
        Sense::Min => scaled + i64::from(by),
        Sense::Max => scaled - i64::from(by),
    }
}

// The combined cost of a pair.
pub fn combined(sense: Sense, n: Person, cost: Cost, kept: Object, object: Object) -> i64
    requires persons { IsCount n }
    requires cost { IsCost cost }
    ensures value { result ≡ with_change sense n cost (change kept object) }
    ensures range { IsInCosts result }
{
    changed(sense, scaled(n, cost), change_of(kept, object))
}

// The same in two words.
fn wide_combined(sense: Sense, n: Person, cost: Cost, kept: Object, object: Object) -> Wide
    requires persons { IsCount n }
    requires cost { IsCost cost }
    ensures value { wide_value result ≡ with_change sense n cost (change kept object) }
    ensures range { IsWideCost result }
{
    Wide::of(i128::from(combined(sense, n, cost, kept, object)))
}

// The person of a place of the costs, from 0.
fn person_of(input: &Input<'_>, place: usize) -> usize
    requires whole { IsWhole input.now }
    requires place { place < length input.now.costs }
    ensures value { result ≡ person_at input.now.form input.now place }
    ensures few { result < input.now.n }
{
    match input.form {
        Form::Dense => place / input.m,
        Form::Sparse => input.persons[place] as usize - 1,
    }
}

// Its object.
fn object_of(input: &Input<'_>, place: usize) -> Object
    requires whole { IsWhole input.now }
    requires place { place < length input.now.costs }
    ensures { result ≡ object_at input.now.form input.now place }
{
    match input.form {
        Form::Dense => (place % input.m) as u32 + 1,
        Form::Sparse => input.objects[place],
    }
}

// Its cost.
pub fn cost_at(costs: &[Cost], place: usize) -> Cost
    requires place { place < length costs.now }
    requires costs { All IsCost costs.now }
    ensures value { result ≡ slice_index_or costs.now place (pos 0) }
    ensures range { IsCost result }
{
    costs[place]
}

// The combined cost at a place.
fn combined_of(shape: Shape, input: &Input<'_>, kept: &[Object], place: usize) -> Wide
    requires shape { IsShape input.now shape }
    requires whole { IsWhole input.now }
    requires kept { length kept.now ≡ input.now.n }
    requires place { place < length input.now.costs }
    ensures value { wide_value result ≡ combined_at shape.sense input.now kept.now place }
    ensures range { IsWideCost result }
{
    let cost = cost_at(input.costs, place);
    let own = kept[person_of(input, place)];
    wide_combined(shape.sense, shape.n, cost, own, object_of(input, place))
}

/// The combined costs of all pairs.
pub fn combined_costs(
    alloc: Global,
    shape: Shape,
    input: &Input<'_>,
    kept: &[Object],
) -> Result<Vec<Wide>, AllocError>
    requires shape { IsShape input.now shape }
    requires whole { IsWhole input.now }
    requires kept { length kept.now ≡ input.now.n }
    ensures { IfOk result (λ costs. AreCombined shape.sense input.now kept.now
        (length input.now.costs) costs.items) }
{
    let mut costs = Vec::with_capacity(alloc, input.costs.len())?;
    for place in 0..input.costs.len() {
        costs.push(combined_of(shape, input, kept, place))?;
    }
    Ok(costs)
}

/// The same pairs at combined costs.
pub fn lists_combined<'a>(shape: Shape, input: &'a Input<'_>, costs: &'a [Wide]) -> WideLists<'a>
    requires shape { IsShape input.now shape }
    requires whole { IsWhole input.now }
    requires long { length costs.now ≡ length input.now.costs }
    requires range { All IsWideCost costs.now }
    ensures { (kept : List ℕ) → length kept ≡ input.now.n
        → AreCombined shape.sense input.now kept (length input.now.costs) costs.now
        → result ≡ combined_lists kept (lists_in shape.sense input.now) }
{
    let Shape { sense, n, m } = shape;
    match input.form {
        Form::Dense => WideLists::dense(sense, n, m, costs),
        Form::Sparse => {
            let pairs = WidePairs {
                persons: input.persons,
                objects: input.objects,
                costs,
            };
            WideLists::sparse(sense, n, m, pairs)
        }
    }
}
