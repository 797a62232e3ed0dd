// Prices in the unit of costs, rounded down.
ghost use Rattle.std.specs.Prelude.{◌≡◌, pos, ◌+◌, ◌*ℤ◌, ◌≤ℤ◌, length, All};
ghost use Rattle.assign_core.specs.Prices.{IsPrice};
ghost use Rattle.assign_core.specs.Rows.{IsSize};
ghost use Rattle.dual_checker.specs.inside.Rounded.{AreRounded, IsRounded};

use assign_core::Price;

/// The greatest rounded price.
pub const MOST_ROUNDED: i64 = 1 << 61;

// A price among `n` objects, in the unit of costs: over `n + 1`, rounded down, and cut.
fn round_down(price: Price, n: u16) -> i64
    requires size { IsSize n }
    requires price { IsPrice price }
    ensures below { (pos (n + 1) *ℤ result) ≤ℤ price }
    ensures range { IsRounded result }
{
    let steps = price as u128 / (n as u128 + 1);
    steps.min(MOST_ROUNDED as u128) as i64
}

// Rounds all prices down.
pub fn set_rounded(rounded: &mut [i64], prices: &[Price])
    requires long { length rounded.old ≡ length prices.now }
    requires size { IsSize (length prices.now) }
    requires in_range { All IsPrice prices.now }
    ensures { AreRounded rounded.new prices.now }
{
    let n = prices.len() as u16;
    for (i, price) in prices.iter().enumerate() {
        rounded[i] = round_down(*price, n);
    }
}
