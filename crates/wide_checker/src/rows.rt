// Whether a listed object is better than the own one, in rows of costs.
ghost use Rattle.std.specs.Prelude.{◌≡◌, ◌↔◌, ◌<◌, ◌≤◌, ◌≤ℤ◌, ◌<ℤ◌, ◌+ℤ◌, ℕ, IsTrue, length, map, All, MatchOption};
ghost use Rattle.assign_core.specs.Dense.{rows_cut};
ghost use Rattle.dual_checker.specs.Faults.{IsFirst};
ghost use Rattle.cost_lists.specs.Own.{minimised};
ghost use Rattle.exact_checker.specs.inside.Sums.{sum_at};
ghost use Rattle.exact_checker.specs.Under.{HasUnder, IsUnder};
ghost use Rattle.wide_checker.specs.WideNumbers.{IsInCosts, IsInPrices, IsWideCost, wide_value};
ghost use Rattle.wide_checker.specs.WideSources.{AreWideCosts};

use super::numbers::{Wide, cost_at, price_at};
use super::own::part;
use super::values::sum_of;
use assign_core::Sense;
use cost_lists::{GREATEST_NUMBER, Object, Person};

// Whether the sum of a cost and a price is at least a value.
fn reaches(sense: Sense, cost: i128, price: i128, value: i128) -> bool
    requires cost { IsInCosts cost }
    requires price { IsInPrices price }
    ensures { IsTrue result ↔ (value ≤ℤ (minimised sense cost +ℤ price)) }
{
    value <= sum_of(sense, cost, price)
}

// The lowest place of a row at which the sum of cost and price is below a value.
fn first_under(costs: &[Wide], prices: &[Wide], sense: Sense, value: i128) -> Option<usize>
    requires long { length costs.now ≡ length prices.now }
    requires costs { All IsWideCost costs.now }
    requires in_range { All IsInPrices (map wide_value prices.now) }
    ensures { let c = map wide_value costs.now in let p = map wide_value prices.now in
        MatchOption result
        ((j : ℕ) → j < length costs.now → value ≤ℤ sum_at sense c p j)
        (λ k. (k < length costs.now) × (sum_at sense c p k <ℤ value)
        × ((j : ℕ) → j < k → value ≤ℤ sum_at sense c p j)) }
{
    for j in 0..costs.len() {
        if !reaches(sense, cost_at(costs, j), price_at(prices, j), value) {
            return Some(j);
        }
    }
    None
}

// The lowest person that lists an object whose sum of cost and price is below the person's value,
// and its lowest object of this kind, of all costs of the persons and the objects.
pub fn first_of_rows(
    sense: Sense,
    costs: &[Wide],
    values: &[i128],
    prices: &[Wide],
) -> Option<(Person, Object)>
    requires persons { length values.now ≤ GREATEST_NUMBER }
    requires objects { length prices.now ≤ GREATEST_NUMBER }
    requires costs { AreWideCosts (length values.now) (length prices.now) costs.now }
    requires in_range { All IsInPrices (map wide_value prices.now) }
    ensures { let m = length prices.now in let n = length values.now in
        let p = map wide_value prices.now in
        let rows = rows_cut m n (map wide_value costs.now) in MatchOption result
        ((i k : ℕ) → ¬ IsUnder sense rows p values.now i k)
        (λ r. IsFirst (HasUnder sense rows p values.now) n r.0
        × IsFirst (IsUnder sense rows p values.now r.0) m r.1) }
{
    let m = prices.len();
    for i in 0..values.len() {
        let row = part(costs, i, m);
        if let Some(j) = first_under(row, prices, sense, values[i]) {
            return Some((i as u32 + 1, j as u32 + 1));
        }
    }
    None
}
