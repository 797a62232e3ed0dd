// Whether a pair is better than its person's own.
ghost use Rattle.std.specs.Prelude.{◌≡◌, ◌≤ℤ◌, ◌<◌, ℕ, IsTrue, pos, length, slice_index_or, All, MatchOption};
ghost use Rattle.dual_checker.specs.Faults.{IsFirst};
ghost use Rattle.cost_lists.specs.Blocks.{IsBounded};
ghost use Rattle.cost_lists.specs.Exact.{IsPriceInLimits};
ghost use Rattle.exact_checker.specs.Under.{HasUnder, IsUnder};
ghost use Rattle.block_checker.specs.Sums.{AreLeastSums};

use assign_core::Cost;
use cost_lists::{CostLists, Object, Person, Price};
use exact_checker::first_under_value;

// Whether each least sum is at least the person's number.
fn all_reach(least: &[Cost], numbers: &[Cost]) -> bool
    requires { length numbers.now ≡ length least.now }
    ensures { IsTrue result → (i : ℕ) → i < length least.now
        → slice_index_or numbers.now i (pos 0) ≤ℤ slice_index_or least.now i (pos 0) }
{
    let mut all = true;
    for i in 0..least.len() {
        all = numbers[i] <= least[i] && all;
    }
    all
}

/// The lowest person that lists an object whose sum of cost and price is below the person's row number,
/// and its lowest object of this kind. `None` exactly where the row numbers bound all pairs. `least`
/// has the least sums of `look`; where these don't reach the numbers the costs are read once more.
pub fn first_better(
    lists: &CostLists<'_>,
    numbers: &[Cost],
    prices: &[Price],
    least: &[Cost],
) -> Option<(Person, Object)>
    requires persons { length numbers.now ≡ length lists.now.rows }
    requires objects { length prices.now ≡ lists.now.m }
    requires in_range { All IsPriceInLimits prices.now }
    requires least { AreLeastSums lists.now.sense lists.now.rows prices.now least.now }
    ensures { let l = lists.now in MatchOption result (IsBounded l.sense l.rows prices.now numbers.now)
        (λ p. IsFirst (HasUnder l.sense l.rows prices.now numbers.now) (length l.rows) p.0
        × IsFirst (IsUnder l.sense l.rows prices.now numbers.now p.0) l.m p.1) }
{
    // This call shows the prover that persons are few enough.
    let _persons = lists.persons();
    if all_reach(least, numbers) {
        return None;
    }
    first_under_value(lists, numbers, prices)
}
