// Further lists of prices, one after the other.
ghost use Rattle.std.specs.Prelude.{◌≡◌, ◌↔◌, ◌<◌, ℕ, IsTrue, All};
ghost use Rattle.assign_core.specs.Numbered.{IsNumber};
ghost use Rattle.cost_lists.specs.Exact.{IsPriceInLimits};
ghost use Rattle.plan_checker.specs.inside.Rises.{HasNoPrice, IsPlan, StaysLow, other_price_at};

use super::rises::Plan;
use cost_lists::{GREATEST_PRICE, Object, Price, part};

// Whether a price is from 0 to the greatest one.
fn is_in_limits(price: Price) -> bool
    ensures { IsTrue result ↔ IsPriceInLimits price }
{
    0 <= price && price <= GREATEST_PRICE
}

// Whether all prices are.
pub fn are_in_limits(prices: &[Price]) -> bool
    ensures { IsTrue result ↔ All IsPriceInLimits prices.now }
{
    for k in 0..prices.len() {
        if !is_in_limits(prices[k]) {
            return false;
        }
    }
    true
}

// The price of an object by a further list.
pub fn other_price(plan: Plan<'_>, list: usize, object: Object) -> Price
    requires plan { (n m : ℕ) × IsPlan n m plan × IsNumber m object }
    requires list { list < plan.count }
    ensures price { result ≡ other_price_at plan.entry list object }
    ensures in_limits { IsPriceInLimits result }
{
    part(plan.others, list, plan.prices.len())[object as usize - 1]
}

// Whether the price of an object is below the bound by each further list.
pub fn stays_low(plan: Plan<'_>, object: Object) -> bool
    requires plan { (n m : ℕ) × IsPlan n m plan × IsNumber m object }
    ensures { IsTrue result ↔ StaysLow plan.entry object }
{
    for list in 0..plan.count {
        if other_price(plan, list, object) >= plan.bound {
            return false;
        }
    }
    true
}

// Whether it is 0 by each.
pub fn has_no_price(plan: Plan<'_>, object: Object) -> bool
    requires plan { (n m : ℕ) × IsPlan n m plan × IsNumber m object }
    ensures { IsTrue result ↔ HasNoPrice plan.entry object }
{
    for list in 0..plan.count {
        if other_price(plan, list, object) != 0 {
            return false;
        }
    }
    true
}
