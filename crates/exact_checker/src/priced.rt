// Whether each price is in range.
ghost use Rattle.std.specs.Prelude.{◌↔◌, ◌≤◌, length, All, IsTrue, MatchOption};
ghost use Rattle.dual_checker.specs.Faults.{IsFirst};
ghost use Rattle.cost_lists.specs.Exact.{IsPriceInLimits};
ghost use Rattle.exact_checker.specs.Faults.{IsOutOfRange};

use cost_lists::{GREATEST_NUMBER, GREATEST_PRICE, Object, Price};

// Whether a price is in range.
fn is_price(price: Price) -> bool
    ensures { IsTrue result ↔ IsPriceInLimits price }
{
    0 <= price && price <= GREATEST_PRICE
}

// The lowest object whose price is out of range.
pub fn first_out_of_range(prices: &[Price]) -> Option<Object>
    requires { length prices.now ≤ GREATEST_NUMBER }
    ensures { MatchOption result (All IsPriceInLimits prices.now)
        (λ j. IsFirst (IsOutOfRange IsPriceInLimits prices.now) (length prices.now) j) }
{
    for (i, price) in prices.iter().enumerate() {
        if !is_price(*price) {
            return Some(i as u32 + 1);
        }
    }
    None
}
