// Sums of costs and prices.
ghost use Rattle.std.specs.Prelude.{◌≡◌, ◌<◌, ◌+ℤ◌, ℕ, pos, length, map, slice_index, slice_index_or, All};
ghost use Rattle.assign_core.specs.Numbered.{IsNumber};
ghost use Rattle.assign_core.specs.Prices.{price_of};
ghost use Rattle.cost_lists.specs.Own.{minimised};
ghost use Rattle.wide_checker.specs.WideNumbers.{IsInCosts, IsInPrices, wide_value};

use super::numbers::{Wide, price_at};
use assign_core::Sense;
use cost_lists::Object;

// The sum of a cost, turned so that less is better, and a price.
pub fn sum_of(sense: Sense, cost: i128, price: i128) -> i128
    requires cost { IsInCosts cost }
    requires price { IsInPrices price }
    ensures { result ≡ (minimised sense cost +ℤ price) }
{
    match sense {
        Sense::Min => price + cost,
        Sense::Max => price - cost,
    }
}

// The sum of a cost and a price.
fn plus(cost: i128, price: i128) -> i128
    requires cost { IsInCosts cost }
    requires price { IsInPrices price }
    ensures { result ≡ (cost +ℤ price) }
{
    cost + price
}

// Adds the price of each person's own object to its own cost.
pub fn add_prices(own: &mut [i128], objects: &[Object], prices: &[Wide])
    requires long { length objects.now ≡ length own.old }
    requires costs { All IsInCosts own.old }
    requires within { All (IsNumber (length prices.now)) objects.now }
    requires in_range { All IsInPrices (map wide_value prices.now) }
    ensures { (i : ℕ) → i < length own.new → slice_index_or own.new i (pos 0)
        ≡ (slice_index_or own.old i (pos 0)
        +ℤ price_of (map wide_value prices.now) (slice_index objects.now i)) }
{
    for i in 0..own.len() {
        own[i] = plus(own[i], price_at(prices, objects[i] as usize - 1));
    }
}
