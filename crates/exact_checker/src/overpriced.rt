// Prices of objects that nobody owns.
ghost use Rattle.std.specs.Prelude.{◌≡◌, ◌≢◌, ◌↔◌, ◌≤◌, ℕ, pos, IsTrue, List, length, MatchOption};
ghost use Rattle.dual_checker.specs.Counts.{AreCounts};
ghost use Rattle.dual_checker.specs.Faults.{IsFirst};
ghost use Rattle.cost_lists.specs.Exact.{AreFree};
ghost use Rattle.exact_checker.specs.Faults.{IsPricedUnowned};

use cost_lists::{GREATEST_NUMBER, Object, Price};

// Whether an object isn't counted and its price isn't 0.
fn is_priced_unowned(count: u32, price: Price) -> bool
    ensures { IsTrue result ↔ ((count ≡ 0) × (price ≢ pos 0)) }
{
    count == 0 && price != 0
}

// The lowest object that isn't counted and whose price isn't 0.
pub fn first_priced_unowned(counts: &[u32], prices: &[Price]) -> Option<Object>
    requires long { length counts.now ≡ length prices.now }
    requires few { length counts.now ≤ GREATEST_NUMBER }
    ensures { (xs : List ℕ) → AreCounts counts.now xs → MatchOption result
        (AreFree (length prices.now) prices.now xs)
        (λ j. IsFirst (IsPricedUnowned xs prices.now) (length prices.now) j) }
{
    for (i, count) in counts.iter().enumerate() {
        if is_priced_unowned(*count, prices[i]) {
            return Some(i as u32 + 1);
        }
    }
    None
}
