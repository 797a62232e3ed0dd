// Pairs of a person and an object compared with the person's own.
ghost use Rattle.std.specs.Prelude.{◌≡◌, ◌+ℤ◌, ◌≤ℤ◌, ◌<ℤ◌, ◌⊎◌, [], ◌∷◌, IsTrue, false};
ghost use Rattle.double_costs.specs.Units.{is_number, units_of};
ghost use Rattle.double_checker.specs.Far.{HasFar};
ghost use Rattle.double_checker.specs.inside.Sizes.{size_of};
ghost use Rattle.double_checker.specs.inside.Pairs.{IsAbove, IsAtLeast, IsOpen, paid};

use super::exact::is_at_most;
use super::numbers::{is_number, turned};
use assign_core::Sense;
use double_costs::is_cost;

// Whether the rounded sum of a turned cost and a price is above the rounded sum of a base and a
// margin. Rounding keeps the order, so the sums themselves are.
pub fn is_above(sense: Sense, base: f64, margin: f64, cost: f64, price: f64) -> bool
    requires base { IsTrue (is_number base) }
    requires margin { IsTrue (is_number margin) }
    requires price { IsTrue (is_number price) }
    ensures { IsTrue result → IsAbove sense (units_of base +ℤ units_of margin) cost price }
{
    base + margin < turned(sense, cost) + price
}

// Whether a sum is seen to be at most another where numbers are far apart: by rounded sums, or by
// rounded differences.
fn is_seen(a: f64, b: f64, c: f64, d: f64) -> bool
    requires a { IsTrue (is_number a) }
    requires b { IsTrue (is_number b) }
    requires c { IsTrue (is_number c) }
    requires d { IsTrue (is_number d) }
    ensures { IsTrue result → (units_of a +ℤ units_of b) ≤ℤ (units_of c +ℤ units_of d) }
{
    a + b < c + d || a + -c < d + -b
}

// Whether a finite cost is at least the own one, both turned, with their prices.
fn is_finite_at_least(own_cost: f64, own_price: f64, cost: f64, price: f64) -> bool
    requires own_cost { IsTrue (is_number own_cost) }
    requires own_price { IsTrue (is_number own_price) }
    requires cost { IsTrue (is_number cost) }
    requires price { IsTrue (is_number price) }
    ensures seen { IsTrue result
        → (units_of own_cost +ℤ units_of own_price) ≤ℤ (units_of cost +ℤ units_of price) }
    ensures open { result ≡ false
        → ((units_of cost +ℤ units_of price) <ℤ (units_of own_cost +ℤ units_of own_price))
        ⊎ HasFar (size_of own_cost ∷ size_of own_price ∷ size_of cost ∷ size_of price ∷ []) }
{
    match is_at_most(own_cost, own_price, cost, price) {
        Some(holds) => holds,
        None => is_seen(own_cost, own_price, cost, price),
    }
}

// Whether a cost is at least the own one, with their prices.
pub fn is_at_least(sense: Sense, own_cost: f64, own_price: f64, cost: f64, price: f64) -> bool
    requires own_cost { IsTrue (is_number own_cost) }
    requires own_price { IsTrue (is_number own_price) }
    requires price { IsTrue (is_number price) }
    ensures seen { IsTrue result → IsAtLeast sense (paid sense own_cost own_price) cost price }
    ensures open { result ≡ false → IsOpen sense own_cost own_price cost price }
{
    if !is_number(cost) {
        return is_cost(sense, cost);
    }
    is_finite_at_least(
        turned(sense, own_cost),
        own_price,
        turned(sense, cost),
        price,
    )
}
