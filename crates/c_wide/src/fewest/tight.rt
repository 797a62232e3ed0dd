// The pairs of which best plans of a dense problem can consist: each other pair costs more than its person's value.
ghost use Rattle.std.specs.Prelude.{◌≡◌, ◌≤◌, ◌+◌, ◌*◌, ◌<ℤ◌, ◌+ℤ◌, IsTrue, length, All, IfOk};
ghost use Rattle.assign_core.specs.Rows.{IsCost};
ghost use Rattle.cost_lists.specs.Exact.{IsPriceInLimits};
ghost use Rattle.cost_lists.specs.Own.{minimised};
ghost use Rattle.c_wide.specs.fewest.Tight.{AreAbove, AreNoted, AreTight, IsIn};

use assign_core::{Cost, Sense};
use cost_lists::{GREATEST_NUMBER, Price, part};
use exact_checker::sum_of;
use std::alloc::{AllocError, Global};

/// A pair, by places from 0, whose sum of cost and price isn't above its person's value.
#[derive(Clone, Copy)]
pub struct Tight {
    pub person: u32,
    pub object: u32,
}

// So many objects are looked at in one step.
const BLOCK: usize = 32;

// Whether the sum of a cost and a price is above a value.
fn is_above(sense: Sense, cost: Cost, price: Price, value: Price) -> bool
    requires cost { IsCost cost }
    requires price { IsPriceInLimits price }
    ensures { IsTrue result → value <ℤ (minimised sense cost +ℤ price) }
{
    sum_of(sense, cost, price) > value
}

// Whether this holds of a block. It reads on after a sum that isn't above.
fn all_above(sense: Sense, row: &[Cost], prices: &[Price], value: Price, from: usize) -> bool
    requires long { length row.now ≡ length prices.now }
    requires costs { All IsCost row.now }
    requires in_range { All IsPriceInLimits prices.now }
    requires room { from + BLOCK ≤ length row.now }
    ensures { IsTrue result → AreAbove sense row.now prices.now value from (from + BLOCK) }
{
    let mut all = true;
    for j in from..from + BLOCK {
        all = is_above(sense, row[j], prices[j], value) & all;
    }
    all
}

// Notes the tight pairs of a person and the objects from one place up to another; earlier ones are noted.
fn note_part(
    sense: Sense,
    row: &[Cost],
    prices: &[Price],
    value: Price,
    person: u32,
    from: usize,
    to: usize,
    tight: &mut Vec<Tight>,
) -> Result<(), AllocError>
    requires long { length row.now ≡ length prices.now }
    requires few { length row.now ≤ GREATEST_NUMBER }
    requires costs { All IsCost row.now }
    requires in_range { All IsPriceInLimits prices.now }
    requires room { to ≤ length row.now }
    requires earlier { AreNoted sense row.now prices.now value person from tight.old.items }
    ensures noted { IfOk result (λ _. AreNoted sense row.now prices.now value person
        to tight.new.items) }
    ensures before { IfOk result (λ _. IsIn tight.old.items tight.new.items) }
{
    for j in from..to {
        if !is_above(sense, row[j], prices[j], value) {
            let pair = Tight {
                person,
                object: j as u32,
            };
            tight.push(pair)?;
        }
    }
    Ok(())
}

// Notes the tight pairs of a person. Mostly a block has none.
fn note_row(
    sense: Sense,
    row: &[Cost],
    prices: &[Price],
    value: Price,
    person: u32,
    tight: &mut Vec<Tight>,
) -> Result<(), AllocError>
    requires long { length row.now ≡ length prices.now }
    requires few { length row.now ≤ GREATEST_NUMBER }
    requires costs { All IsCost row.now }
    requires in_range { All IsPriceInLimits prices.now }
    ensures noted { IfOk result (λ _. AreNoted sense row.now prices.now value person
        (length row.now) tight.new.items) }
    ensures before { IfOk result (λ _. IsIn tight.old.items tight.new.items) }
{
    let mut at = 0;
    while row.len() - at >= BLOCK {
        let end = at + BLOCK;
        if !all_above(sense, row, prices, value, at) {
            note_part(sense, row, prices, value, person, at, end, tight)?;
        }
        at = end;
    }
    note_part(sense, row, prices, value, person, at, row.len(), tight)
}

/// The tight pairs, rising, at these prices and values, whatever they are.
pub fn tight_pairs(
    alloc: Global,
    sense: Sense,
    costs: &[Cost],
    values: &[Price],
    prices: &[Price],
) -> Result<Vec<Tight>, AllocError>
    requires long { length costs.now ≡ length values.now * length prices.now }
    requires persons { length values.now ≤ GREATEST_NUMBER }
    requires objects { length prices.now ≤ GREATEST_NUMBER }
    requires costs { All IsCost costs.now }
    requires in_range { All IsPriceInLimits prices.now }
    ensures { IfOk result (λ tight. AreTight sense costs.now prices.now values.now
        (length values.now) tight.items) }
{
    let m = prices.len();
    let mut tight = Vec::with_capacity(alloc, values.len())?;
    for i in 0..values.len() {
        let row = part(costs, i, m);
        note_row(sense, row, prices, values[i], i as u32, &mut tight)?;
    }
    Ok(tight)
}
