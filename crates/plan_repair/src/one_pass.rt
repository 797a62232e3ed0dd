// One pass over all costs that shows both that they are in range and that no sum of cost and price is
// below its person's value.
ghost use Rattle.std.specs.Prelude.{◌≡◌, ◌<◌, ◌≤ℤ◌, ◌+ℤ◌, ◌*◌, ℕ, IsTrue, length, All, MatchOption};
ghost use Rattle.assign_core.specs.Dense.{rows_cut};
ghost use Rattle.assign_core.specs.Rows.{IsCost};
ghost use Rattle.cost_lists.specs.Exact.{IsPriceInLimits};
ghost use Rattle.cost_lists.specs.Own.{minimised};
ghost use Rattle.exact_checker.specs.Under.{IsUnder};
ghost use Rattle.exact_checker.specs.inside.Sums.{sum_at};

use assign_core::{Cost, GREATEST_COST, Sense};
use cost_lists::{Price, part};

// Whether a cost, which may be any number, is in range, and its sum with a price at least a value. It has no branch, so
// that several are looked at in one step.
fn holds(sense: Sense, cost: Cost, price: Price, value: Cost) -> bool
    requires { IsPriceInLimits price }
    ensures cost { IsTrue result → IsCost cost }
    ensures sum { IsTrue result → value ≤ℤ (minimised sense cost +ℤ price) }
{
    let sum = match sense {
        Sense::Min => price.wrapping_add(cost),
        Sense::Max => price.wrapping_sub(cost),
    };
    (-GREATEST_COST <= cost) & (cost <= GREATEST_COST) & (value <= sum)
}

// Whether this holds of each cost of a row. It reads on after one of which it doesn't, so that several
// are looked at in one step.
fn all_hold(costs: &[Cost], prices: &[Price], sense: Sense, value: Cost) -> bool
    requires long { length costs.now ≡ length prices.now }
    requires in_range { All IsPriceInLimits prices.now }
    ensures costs { IsTrue result → All IsCost costs.now }
    ensures sums { IsTrue result → (j : ℕ) → j < length costs.now
        → value ≤ℤ sum_at sense costs.now prices.now j }
{
    let mut all = true;
    for j in 0..costs.len() {
        all = holds(sense, costs[j], prices[j], value) & all;
    }
    all
}

// The place of a row with a cost out of range, or a sum below its value; none if all costs are in range
// and all sums at least the values.
pub fn first_beyond(
    sense: Sense,
    costs: &[Cost],
    values: &[Cost],
    prices: &[Price],
) -> Option<usize>
    requires long { length costs.now ≡ length values.now * length prices.now }
    requires in_range { All IsPriceInLimits prices.now }
    ensures { let m = length prices.now in let n = length values.now in MatchOption result
        (All IsCost costs.now × ((i k : ℕ)
        → ¬ IsUnder sense (rows_cut m n costs.now) prices.now values.now i k)) (λ _. Unit {0}) }
{
    let m = prices.len();
    for i in 0..values.len() {
        if !all_hold(part(costs, i, m), prices, sense, values[i]) {
            return Some(i);
        }
    }
    None
}
