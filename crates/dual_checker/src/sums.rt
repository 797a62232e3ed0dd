// Rows in which 64-bit sums show slackness 1.
ghost use Rattle.std.specs.Prelude.{◌≡◌, pos, ◌+◌, ◌+ℤ◌, ◌*ℤ◌, ◌≤ℤ◌, length, All, IsTrue};
ghost use Rattle.assign_core.specs.Numbered.{IsNumber};
ghost use Rattle.assign_core.specs.Rows.{IsCost, IsRow, IsSize, listed_or_zero};
ghost use Rattle.assign_core.specs.Benefits.{benefit_row};
ghost use Rattle.assign_core.specs.Prices.{IsPrice};
ghost use Rattle.assign_core.specs.Slackness.{HasSlack};
ghost use Rattle.dual_checker.specs.inside.Rounded.{AreRounded, IsRounded, IsLeastSum, minimised};

use super::rounded::MOST_ROUNDED;
use super::slack::price_at;
use assign_core::{Cost, MOST_PERSONS, Object, Price, Sense};

// The sum of a cost, as one to minimise, and a rounded price.
fn sum_of(sense: Sense, cost: Cost, rounded: i64) -> i64
    requires cost { IsCost cost }
    requires rounded { IsRounded rounded }
    ensures { result ≡ (minimised sense cost +ℤ rounded) }
{
    match sense {
        Sense::Min => rounded + cost,
        Sense::Max => rounded - cost,
    }
}

// The least sum of a cost and its object's rounded price.
fn least_sum(pairs: &[(Object, Cost)], sense: Sense, rounded: &[i64]) -> i64
    requires row { IsRow (length rounded.now) pairs.now }
    requires rounded { All IsRounded rounded.now }
    ensures { IsLeastSum sense rounded.now pairs.now result }
{
    let mut least = i64::MAX;
    for (object, cost) in pairs {
        least = least.min(sum_of(sense, *cost, rounded[object.place()]));
    }
    least
}

// A rounded price among `n` objects, as a price.
fn as_price(rounded: i64, n: u16) -> Price
    requires size { IsSize n }
    requires rounded { IsRounded rounded }
    ensures value { result ≡ (pos (n + 1) *ℤ rounded) }
    ensures greatest { result ≤ℤ (pos (MOST_PERSONS + 1) *ℤ MOST_ROUNDED) }
{
    (i128::from(n) + 1) * i128::from(rounded)
}

// Whether 64-bit sums show that no object of a row has a value over 1 above that of a person's own
// object, which has this cost. If not, some object may have one.
pub fn shows_slack(
    row: &[(Object, Cost)],
    sense: Sense,
    prices: &[Price],
    rounded: &[i64],
    own: Object,
    cost: Cost,
) -> bool
    requires size { IsSize (length prices.now) }
    requires row { IsRow (length prices.now) row.now }
    requires in_range { All IsPrice prices.now }
    requires rounded { AreRounded rounded.now prices.now }
    requires number { IsNumber (length prices.now) own }
    requires cost { cost ≡ listed_or_zero row.now own }
    ensures { let benefits = benefit_row sense (length prices.now) row.now in
        IsTrue result → HasSlack (pos 1) prices.now benefits own }
{
    let own_rounded = rounded[own.place()];
    if price_at(prices, own) > as_price(own_rounded, prices.len() as u16) + 1 {
        return false;
    }
    sum_of(sense, cost, own_rounded) <= least_sum(row, sense, rounded)
}
