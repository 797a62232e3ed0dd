// Whether each price is in range.
ghost use Rattle.std.specs.Prelude.{◌↔◌, ◌≤◌, length, All, IsTrue, MatchOption};
ghost use Rattle.assign_core.specs.Prices.{IsPrice};
ghost use Rattle.dual_checker.specs.Faults.{IsFirst, IsOutOfRange};

use assign_core::{MOST_PERSONS, Object, PRICE_END, Price};

// Whether a price is in range.
fn is_price(price: Price) -> bool
    ensures { IsTrue result ↔ IsPrice price }
{
    0 <= price && price < PRICE_END
}

// The lowest object whose price is out of range.
pub fn first_out_of_range(prices: &[Price]) -> Option<Object>
    requires { length prices.now ≤ MOST_PERSONS }
    ensures { MatchOption result (All IsPrice prices.now)
        (λ j. IsFirst (IsOutOfRange prices.now) (length prices.now) j) }
{
    for (i, price) in prices.iter().enumerate() {
        if !is_price(*price) {
            return Some(Object(i as u16 + 1));
        }
    }
    None
}
