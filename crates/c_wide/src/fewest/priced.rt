// A dense problem at combined costs, with prices there, and what shows them to be exact: only tight pairs are looked
// at again.
ghost use Rattle.std.specs.Prelude.{◌≡◌, ◌<◌, ◌≤ℤ◌, ◌+ℤ◌, ◌*ℤ◌, ◌+◌, ◌^◌, ℕ, pos, neg_ℤ, IsTrue, length, slice_index_or, All, IfOk};
ghost use Rattle.assign_core.specs.Numbered.{IsNumber};
ghost use Rattle.cost_lists.specs.ListedCosts.{IsCount};
ghost use Rattle.cost_lists.specs.Own.{minimised};
ghost use Rattle.wide_checker.specs.WideNumbers.{IsInCosts, IsInPrices};
ghost use Rattle.c_wide.specs.fewest.Priced.{AreBelow, AreLevels, AreNear, HasLevel, IsPriced, level_at};
ghost use Rattle.c_wide.specs.fewest.Tight.{AreTight};

use super::combine::{combined, cost_at};
use super::tight::Tight;
use assign_core::{Cost, Sense};
use cost_lists::{Object, Person, Price};
use std::alloc::{AllocError, Global};

/// The given costs, the kept objects, and prices at combined costs.
#[derive(Clone, Copy)]
pub struct Priced<'a> {
    pub sense: Sense,
    pub n: Person,
    pub m: Object,
    pub costs: &'a [Cost],
    pub kept: &'a [Object],
    pub prices: &'a [i128],
}

// The sum of a cost, turned so that less is better, and a price.
fn plus(sense: Sense, cost: i64, price: i128) -> i128
    requires cost { IsInCosts cost }
    requires price { IsInPrices price }
    ensures { result ≡ (minimised sense cost +ℤ price) }
{
    match sense {
        Sense::Min => price + i128::from(cost),
        Sense::Max => price - i128::from(cost),
    }
}

// The sum of a combined cost and its price, by places from 0.
fn level_of(priced: Priced<'_>, person: usize, object: usize) -> i128
    requires priced { IsPriced priced }
    requires person { person < priced.n }
    requires object { object < priced.m }
    ensures { result ≡ level_at priced.entry person object }
{
    let place = person * priced.m as usize + object;
    let (cost, kept) = (cost_at(priced.costs, place), priced.kept[person]);
    let cost = combined(priced.sense, priced.n, cost, kept, object as u32 + 1);
    plus(priced.sense, cost, priced.prices[object])
}

/// The sums of the own pairs.
pub fn own_levels(
    alloc: Global,
    priced: Priced<'_>,
    objects: &[Object],
) -> Result<Vec<i128>, AllocError>
    requires priced { IsPriced priced }
    requires long { length objects.now ≡ priced.n }
    requires within { All (IsNumber priced.m) objects.now }
    ensures { IfOk result (λ levels. AreLevels priced.entry objects.now
        (length objects.now) levels.items) }
{
    let mut levels = Vec::with_capacity(alloc, objects.len())?;
    for i in 0..objects.len() {
        levels.push(level_of(priced, i, objects[i] as usize - 1))?;
    }
    Ok(levels)
}

// n + 1 times a number.
fn times(n: Person, number: i128) -> i128
    requires persons { IsCount n }
    requires least { neg_ℤ (pos (2 ^ 64)) ≤ℤ number }
    requires greatest { number ≤ℤ pos (2 ^ 64) }
    ensures value { result ≡ pos (n + 1) *ℤ number }
    ensures least { neg_ℤ (pos (2 ^ 90)) ≤ℤ result }
    ensures greatest { result ≤ℤ pos (2 ^ 90) }
{
    (i128::from(n) + 1) * number
}

// n + 1 times a price.
fn scaled(n: Person, price: Price) -> i128
    requires { IsCount n }
    ensures value { result ≡ pos (n + 1) *ℤ price }
    ensures least { neg_ℤ (pos (2 ^ 90)) ≤ℤ result }
    ensures greatest { result ≤ℤ pos (2 ^ 90) }
{
    times(n, i128::from(price))
}

// n + 1 times what is above a value.
fn above(n: Person, value: Price) -> i128
    requires { IsCount n }
    ensures value { result ≡ pos (n + 1) *ℤ (value +ℤ pos 1) }
    ensures least { neg_ℤ (pos (2 ^ 90)) ≤ℤ result }
    ensures greatest { result ≤ℤ pos (2 ^ 90) }
{
    times(n, i128::from(value) + 1)
}

// Whether each level is so far below n + 1 times what is above the person's value.
fn are_below(n: Person, by: u32, values: &[Price], levels: &[i128]) -> bool
    requires persons { IsCount n }
    requires long { length values.now ≡ length levels.now }
    ensures { IsTrue result → AreBelow n by values.now (length values.now) levels.now }
{
    for i in 0..values.len() {
        if levels[i] > above(n, values[i]) - i128::from(by) {
            return false;
        }
    }
    true
}

// Whether each price is at most so far below n + 1 times the first one.
fn are_near(n: Person, by: u32, first: &[Price], prices: &[i128]) -> bool
    requires persons { IsCount n }
    requires long { length first.now ≡ length prices.now }
    ensures { IsTrue result → AreNear n by first.now (length first.now) prices.now }
{
    for j in 0..first.len() {
        if scaled(n, first[j]) - i128::from(by) > prices[j] {
            return false;
        }
    }
    true
}

// Whether the sum of a pair is at least its person's level.
fn reaches(priced: Priced<'_>, levels: &[i128], pair: Tight) -> bool
    requires priced { IsPriced priced }
    requires levels { length levels.now ≡ priced.n }
    ensures { IsTrue result → HasLevel priced.entry levels.now pair }
{
    let (person, object) = (pair.person as usize, pair.object as usize);
    pair.person < priced.n
        && pair.object < priced.m
        && levels[person] <= level_of(priced, person, object)
}

fn all_reach(priced: Priced<'_>, levels: &[i128], tight: &[Tight]) -> bool
    requires priced { IsPriced priced }
    requires levels { length levels.now ≡ priced.n }
    ensures { IsTrue result → All (HasLevel priced.entry levels.now) tight.now }
{
    for k in 0..tight.len() {
        if !reaches(priced, levels, tight[k]) {
            return false;
        }
    }
    true
}

/// Whether no combined cost with its price is below its person's level, where `tight` are the tight pairs at first
/// prices and values.
pub fn are_least(
    priced: Priced<'_>,
    by: u32,
    first: &[Price],
    values: &[Price],
    tight: &[Tight],
    levels: &[i128],
) -> bool
    requires priced { IsPriced priced }
    requires first { length first.now ≡ priced.m }
    requires values { length values.now ≡ priced.n }
    requires tight { AreTight priced.sense priced.costs.now first.now values.now priced.n tight.now }
    requires levels { length levels.now ≡ priced.n }
    ensures { IsTrue result → (i j : ℕ) → i < priced.entry.n → j < priced.entry.m
        → slice_index_or levels.now i (pos 0) ≤ℤ level_at priced.entry i j }
{
    if !are_below(priced.n, by, values, levels) {
        return false;
    }
    if !are_near(priced.n, by, first, priced.prices) {
        return false;
    }
    all_reach(priced, levels, tight)
}
