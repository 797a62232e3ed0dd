// Prices of objects that nobody owns.
ghost use Rattle.std.specs.Prelude.{◌≡◌, ◌≢◌, ◌↔◌, ◌≤◌, ℕ, pos, IsTrue, List, length, map, MatchOption};
ghost use Rattle.dual_checker.specs.Counts.{AreCounts};
ghost use Rattle.dual_checker.specs.Faults.{IsFirst};
ghost use Rattle.cost_lists.specs.Exact.{AreFree};
ghost use Rattle.exact_checker.specs.Faults.{IsPricedUnowned};
ghost use Rattle.wide_checker.specs.WideNumbers.{wide_value};

use super::numbers::{Wide, value_at};
use cost_lists::{GREATEST_NUMBER, Object};

// Whether an object isn't counted and its price isn't 0.
fn is_priced_unowned(count: u32, price: i128) -> bool
    ensures { IsTrue result ↔ ((count ≡ 0) × (price ≢ pos 0)) }
{
    count == 0 && price != 0
}

// The lowest object that isn't counted and whose price isn't 0.
pub fn first_priced_unowned(counts: &[u32], prices: &[Wide]) -> Option<Object>
    requires long { length counts.now ≡ length prices.now }
    requires few { length counts.now ≤ GREATEST_NUMBER }
    ensures { (xs : List ℕ) → AreCounts counts.now xs → MatchOption result
        (AreFree (length prices.now) (map wide_value prices.now) xs)
        (λ j. IsFirst (IsPricedUnowned xs (map wide_value prices.now)) (length prices.now) j) }
{
    for (i, count) in counts.iter().enumerate() {
        if is_priced_unowned(*count, value_at(prices, i)) {
            return Some(i as u32 + 1);
        }
    }
    None
}
