// Whether each price is in range.
ghost use Rattle.std.specs.Prelude.{◌↔◌, ◌≤◌, length, map, All, IsTrue, MatchOption};
ghost use Rattle.dual_checker.specs.Faults.{IsFirst};
ghost use Rattle.exact_checker.specs.Faults.{IsOutOfRange};
ghost use Rattle.wide_checker.specs.WideNumbers.{IsInPrices, wide_value};

use super::numbers::{GREATEST_WIDE_PRICE, Wide, value_at};
use cost_lists::{GREATEST_NUMBER, Object};

// Whether a price is in range.
fn is_price(price: i128) -> bool
    ensures { IsTrue result ↔ IsInPrices price }
{
    0 <= price && price <= GREATEST_WIDE_PRICE
}

// The lowest object whose price is out of range.
pub fn first_out_of_range(prices: &[Wide]) -> Option<Object>
    requires { length prices.now ≤ GREATEST_NUMBER }
    ensures { MatchOption result (All IsInPrices (map wide_value prices.now))
        (λ j. IsFirst (IsOutOfRange IsInPrices (map wide_value prices.now)) (length prices.now) j) }
{
    for i in 0..prices.len() {
        if !is_price(value_at(prices, i)) {
            return Some(i as u32 + 1);
        }
    }
    None
}
