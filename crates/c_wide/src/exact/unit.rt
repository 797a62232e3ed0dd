// The greatest power of two of which all costs are whole multiples.
ghost use Rattle.std.specs.Prelude.{◌≡◌, ◌⊎◌, ◌↔◌, ◌<◌, ◌≤◌, ◌*◌, ◌^◌, ℕ, pos, All, IsTrue, MatchOption};
ghost use Rattle.double_costs.specs.Units.{units_of};
ghost use Rattle.c_calls.specs.lists.Faults.{IsFirstWithout};
ghost use Rattle.c_wide.specs.exact.Units.{AreZeros, IsGreatestUnit, IsMultiple, IsUnit, IsWithin};

use super::parts::parts_of;
use double_checker::is_number;

/// Units count from 2^-1074, so this is the unit 1.
pub const UNIT_ONE: u64 = 1074;

// Above the unit of each double.
const NO_UNIT: u64 = 4000;

// The greatest unit of a double, or `NO_UNIT` if it is 0 or infinite, or no number.
fn own_unit(cost: f64) -> u64
    ensures below { (d : ℕ) → d ≤ result → IsMultiple d cost }
    ensures above { ((result ≡ NO_UNIT) × (units_of cost ≡ pos 0))
        ⊎ ((result < NO_UNIT) × ((d : ℕ) → IsMultiple d cost → d ≤ result)) }
    ensures most { result ≤ NO_UNIT }
{
    if !is_number(cost) {
        return NO_UNIT;
    }
    let parts = parts_of(cost);
    if parts.significand == 0 {
        NO_UNIT
    } else {
        parts.exponent
    }
}

// The greatest unit of all costs, or `NO_UNIT` if each finite one is 0.
fn common_unit(costs: &[f64]) -> u64
    ensures below { (d : ℕ) → d ≤ result → IsUnit d costs.now }
    ensures above { ((result ≡ NO_UNIT) × AreZeros costs.now)
        ⊎ ((result < NO_UNIT) × ((d : ℕ) → IsUnit d costs.now → d ≤ result)) }
    ensures most { result ≤ NO_UNIT }
{
    let mut unit = NO_UNIT;
    for k in 0..costs.len() {
        unit = unit.min(own_unit(costs[k]));
    }
    unit
}

/// The greatest unit of all costs.
pub fn greatest_unit(costs: &[f64]) -> u64
    ensures greatest { IsGreatestUnit result costs.now }
    ensures most { result ≤ NO_UNIT }
{
    let unit = common_unit(costs);
    if unit == NO_UNIT { UNIT_ONE } else { unit }
}

// Whether a number with so many binary places after it is at most 2^100.
fn is_small(significand: u64, by: u64) -> bool
    requires { 0 < significand }
    ensures { IsTrue result ↔ (significand * 2 ^ by ≤ 2 ^ 100) }
{
    by <= 100 && u128::from(significand) <= 1u128 << (100 - by)
}

// Whether a cost is at most 2^100 units.
fn is_within(cost: f64, unit: u64) -> bool
    requires { IsMultiple unit cost }
    ensures { IsTrue result ↔ IsWithin unit cost }
{
    if !is_number(cost) {
        return true;
    }
    let parts = parts_of(cost);
    if parts.significand == 0 {
        return true;
    }
    is_small(parts.significand, parts.exponent - unit)
}

/// The first place, from 0, of a cost above 2^100 units.
pub fn first_above(costs: &[f64], unit: u64) -> Option<usize>
    requires { IsUnit unit costs.now }
    ensures { MatchOption result (All (IsWithin unit) costs.now)
        (IsFirstWithout (IsWithin unit) costs.now) }
{
    for k in 0..costs.len() {
        if !is_within(costs[k], unit) {
            return Some(k);
        }
    }
    None
}
