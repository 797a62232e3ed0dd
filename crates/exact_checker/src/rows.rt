// Whether a listed object is better than the own one, in rows of costs.
ghost use Rattle.std.specs.Prelude.{◌≡◌, ◌↔◌, ◌<◌, ◌≤◌, ◌≤ℤ◌, ◌<ℤ◌, ◌+ℤ◌, ℕ, IsTrue, length, All, MatchOption};
ghost use Rattle.assign_core.specs.Dense.{rows_cut};
ghost use Rattle.assign_core.specs.Rows.{IsCost};
ghost use Rattle.dual_checker.specs.Faults.{IsFirst};
ghost use Rattle.cost_lists.specs.Exact.{IsPriceInLimits};
ghost use Rattle.cost_lists.specs.Own.{minimised};
ghost use Rattle.cost_lists.specs.Source.{AreCosts};
ghost use Rattle.exact_checker.specs.inside.Sums.{sum_at};
ghost use Rattle.exact_checker.specs.Under.{HasUnder, IsUnder};

use super::values::sum_of;
use assign_core::{Cost, Sense};
use cost_lists::{GREATEST_NUMBER, Object, Person, Price, part};

// Whether the sum of a cost and a price is at least a value.
fn reaches(sense: Sense, cost: Cost, price: Price, value: Cost) -> bool
    requires cost { IsCost cost }
    requires price { IsPriceInLimits price }
    ensures { IsTrue result ↔ (value ≤ℤ (minimised sense cost +ℤ price)) }
{
    value <= sum_of(sense, cost, price)
}

// Whether each sum of cost and price in a row is at least a value. It reads on after one that isn't,
// so that several are looked at in one step.
fn all_reach(costs: &[Cost], prices: &[Price], sense: Sense, value: Cost) -> bool
    requires long { length costs.now ≡ length prices.now }
    requires costs { All IsCost costs.now }
    requires in_range { All IsPriceInLimits prices.now }
    ensures { IsTrue result → (j : ℕ) → j < length costs.now
        → value ≤ℤ sum_at sense costs.now prices.now j }
{
    let mut all = true;
    for j in 0..costs.len() {
        all = reaches(sense, costs[j], prices[j], value) & all;
    }
    all
}

// The lowest place of a row at which the sum of cost and price is below a value.
fn first_under(costs: &[Cost], prices: &[Price], sense: Sense, value: Cost) -> Option<usize>
    requires long { length costs.now ≡ length prices.now }
    requires costs { All IsCost costs.now }
    requires in_range { All IsPriceInLimits prices.now }
    ensures { MatchOption result
        ((j : ℕ) → j < length costs.now → value ≤ℤ sum_at sense costs.now prices.now j)
        (λ k. (k < length costs.now) × (sum_at sense costs.now prices.now k <ℤ value)
        × ((j : ℕ) → j < k → value ≤ℤ sum_at sense costs.now prices.now j)) }
{
    if all_reach(costs, prices, sense, value) {
        return None;
    }
    for j in 0..costs.len() {
        if !reaches(sense, costs[j], prices[j], value) {
            return Some(j);
        }
    }
    None
}

// The lowest person that lists an object whose sum of cost and price is below the person's value,
// and its lowest object of this kind, of all costs of the persons and the objects.
pub fn first_of_rows(
    sense: Sense,
    costs: &[Cost],
    values: &[Cost],
    prices: &[Price],
) -> Option<(Person, Object)>
    requires persons { length values.now ≤ GREATEST_NUMBER }
    requires objects { length prices.now ≤ GREATEST_NUMBER }
    requires costs { AreCosts (length values.now) (length prices.now) costs.now }
    requires in_range { All IsPriceInLimits prices.now }
    ensures { let m = length prices.now in let n = length values.now in
        let rows = rows_cut m n costs.now in MatchOption result
        ((i k : ℕ) → ¬ IsUnder sense rows prices.now values.now i k)
        (λ p. IsFirst (HasUnder sense rows prices.now values.now) n p.0
        × IsFirst (IsUnder sense rows prices.now values.now p.0) m p.1) }
{
    let m = prices.len();
    for i in 0..values.len() {
        let row = part(costs, i, m);
        if let Some(j) = first_under(row, prices, sense, values[i]) {
            return Some((i as u32 + 1, j as u32 + 1));
        }
    }
    None
}
