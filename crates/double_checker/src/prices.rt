// Prices.
ghost use Rattle.std.specs.Prelude.{◌≡◌, ◌↔◌, ◌<◌, ◌^◌, ◌≤ℤ◌, ◌<ℤ◌, ◌⊎◌, All, IsTrue, MatchOption};
ghost use Rattle.std.specs.Prelude.{true, false, length};
ghost use Rattle.dual_checker.specs.Faults.{IsFirst};
ghost use Rattle.double_costs.specs.Units.{is_number, units_of};
ghost use Rattle.double_checker.specs.Verdicts.{IsNoPrice};
ghost use Rattle.double_checker.specs.inside.Plans.{AreLeastUnmarked, IsLeastPrice};

use super::numbers::is_number;
use cost_lists::Object;

// The lowest object whose price isn't finite.
pub fn first_no_price(prices: &[f64]) -> Option<Object>
    requires few { length prices.now < 2 ^ 32 }
    ensures { MatchOption result (All (λ p. IsTrue (is_number p)) prices.now)
        (λ j. IsFirst (IsNoPrice prices.now) (length prices.now) j) }
{
    for j in 0..prices.len() {
        if !is_number(prices[j]) {
            return Some(j as u32 + 1);
        }
    }
    None
}

// Whether a finite double is below another.
pub fn is_less(x: f64, y: f64) -> bool
    requires x { IsTrue (is_number x) }
    requires y { IsTrue (is_number y) }
    ensures less { IsTrue result → units_of x <ℤ units_of y }
    ensures no_less { result ≡ false → units_of y ≤ℤ units_of x }
{
    x < y
}

// The lesser of two finite doubles.
fn lesser(x: f64, y: f64) -> f64
    requires x { IsTrue (is_number x) }
    requires y { IsTrue (is_number y) }
    ensures finite { IsTrue (is_number result) }
    ensures first { units_of result ≤ℤ units_of x }
    ensures second { units_of result ≤ℤ units_of y }
    ensures one { (result ≡ x) ⊎ (result ≡ y) }
{
    if is_less(x, y) { x } else { y }
}

// Whether an object has no mark, and its price is above the least one.
fn is_too_dear(owned: bool, least: f64, price: f64) -> bool
    requires least { IsTrue (is_number least) }
    requires price { IsTrue (is_number price) }
    ensures yes { IsTrue result → (owned ≡ false) × (units_of least <ℤ units_of price) }
    ensures no { result ≡ false → (owned ≡ true) ⊎ (units_of price ≤ℤ units_of least) }
{
    if owned { false } else { is_less(least, price) }
}

// The least price; 0 if there is none.
fn least_price(prices: &[f64]) -> f64
    requires { All (λ p. IsTrue (is_number p)) prices.now }
    ensures { IsLeastPrice prices.now result }
{
    let mut least = if prices.is_empty() { 0.0 } else { prices[0] };
    for k in 0..prices.len() {
        least = lesser(prices[k], least);
    }
    least
}

// Whether each unmarked object's price is at most that of each.
pub fn are_least_unmarked(owned: &[bool], prices: &[f64]) -> bool
    requires long { length owned.now ≡ length prices.now }
    requires finite { All (λ p. IsTrue (is_number p)) prices.now }
    ensures { IsTrue result ↔ AreLeastUnmarked owned.now prices.now }
{
    let least = least_price(prices);
    for j in 0..prices.len() {
        if is_too_dear(owned[j], least, prices[j]) {
            return false;
        }
    }
    true
}
