// Whether a margin is one of all costs.
ghost use Rattle.std.specs.Prelude.{◌≡◌, ◌≤◌, ◌<◌, ◌+◌, ◌*◌, ◌^◌, ℕ, pos, ◌<ℤ◌, All, IsTrue};
ghost use Rattle.std.specs.Prelude.{true, false, length};
ghost use lib.Ieee.{lt};
ghost use Rattle.double_costs.specs.Margins.{IsMarginOf};
ghost use Rattle.double_costs.specs.Units.{is_number, units_of};
ghost use Rattle.double_checker.specs.declared.margins.TheConstants.{LANES};
ghost use Rattle.double_checker.specs.inside.Pairs.{at};
ghost use Rattle.double_checker.specs.inside.Sizes.{size_of};

use super::digits::digits_of;
use super::numbers::is_number;
use super::prices::is_less;
use std::simd::prelude::*;

// 2^52.
const PARTS: f64 = 4503599627370496.0;

// Whether a finite double is at most 2^52 times the size of another. It may say no where it is one
// and the other is below the normal doubles.
fn is_in_parts(limit: f64, margin: f64) -> bool
    requires limit { IsTrue (is_number limit) }
    requires margin { IsTrue (is_number margin) }
    ensures { IsTrue result → size_of limit ≤ 2 ^ 52 * size_of margin }
{
    let one = digits_of(limit);
    let other = digits_of(margin);
    if one.digits > other.digits {
        return false;
    }
    one.shift <= other.shift + 52
}

// Whether a cost is at most the limit in size, or infinite.
fn is_within(limit: f64, cost: f64) -> bool
    requires { IsTrue (is_number limit) }
    ensures { IsTrue result → size_of cost ≤ size_of limit }
{
    if !is_number(cost) {
        return true;
    }
    if is_less(limit, cost) {
        return false;
    }
    !is_less(cost, -limit)
}

// The number of costs that are compared at once.
const LANES: usize = 8;

// Whether none of the `LANES` costs from a place on lies between two doubles.
fn none_between(low: f64, high: f64, costs: &[f64], from: usize) -> bool
    requires { from + LANES ≤ length costs.now }
    ensures { IsTrue result → (k : ℕ) → from ≤ k → k < from + LANES
        → IsTrue (lt low (at costs.now k)) → lt (at costs.now k) high ≡ false }
{
    let costs = f64x8::from_slice(&costs[from..]);
    let is_between = f64x8::splat(low).simd_lt(costs) & costs.simd_lt(f64x8::splat(high));
    is_between.to_bitmask() == 0
}

// Whether each of the `LANES` costs from a place on is at most the limit in size, or infinite.
fn are_lanes_within(limit: f64, costs: &[f64], from: usize) -> bool
    requires limit { IsTrue (is_number limit) }
    requires room { from + LANES ≤ length costs.now }
    ensures { IsTrue result → (k : ℕ) → from ≤ k → k < from + LANES
        → size_of (at costs.now k) ≤ size_of limit }
{
    if !none_between(limit, f64::INFINITY, costs, from) {
        return false;
    }
    none_between(f64::NEG_INFINITY, -limit, costs, from)
}

// Whether each cost of the first blocks of `LANES` is at most the limit in size, or infinite.
fn are_blocks_within(limit: f64, costs: &[f64], blocks: usize) -> bool
    requires limit { IsTrue (is_number limit) }
    requires room { blocks * LANES ≤ length costs.now }
    ensures { IsTrue result → (k : ℕ) → k < blocks * LANES
        → size_of (at costs.now k) ≤ size_of limit }
{
    for b in 0..blocks {
        if !are_lanes_within(limit, costs, b * LANES) {
            return false;
        }
    }
    true
}

// Whether each cost is at most the limit in size, or infinite.
fn are_within(limit: f64, costs: &[f64]) -> bool
    requires { IsTrue (is_number limit) }
    ensures { IsTrue result → All (λ c. size_of c ≤ size_of limit) costs.now }
{
    let blocks = costs.len() / LANES;
    if !are_blocks_within(limit, costs, blocks) {
        return false;
    }
    for k in blocks * LANES..costs.len() {
        if !is_within(limit, costs[k]) {
            return false;
        }
    }
    true
}

// Whether no cost is over 2^52 times the size of a finite margin.
fn is_enough(costs: &[f64], margin: f64) -> bool
    requires { IsTrue (is_number margin) }
    ensures { IsTrue result → All (λ c. size_of c ≤ 2 ^ 52 * size_of margin) costs.now }
{
    let limit = margin * PARTS;
    if !is_number(limit) {
        return false;
    }
    if !is_in_parts(limit, margin) {
        return false;
    }
    are_within(limit, costs)
}

// Whether a margin is above 0, and no cost is over 2^52 times its size.
fn is_margin_of(costs: &[f64], margin: f64) -> bool
    ensures { IsTrue result → IsMarginOf (units_of margin) costs.now }
{
    if !is_number(margin) {
        return false;
    }
    if !is_less(0.0, margin) {
        return false;
    }
    is_enough(costs, margin)
}

// Whether a margin by which pairs are worse is one of all costs.
pub fn is_by_margin(is_worse: bool, costs: &[f64], margin: f64) -> bool
    ensures { result ≡ true → (is_worse ≡ true) × IsMarginOf (units_of margin) costs.now }
{
    if is_worse {
        is_margin_of(costs, margin)
    } else {
        false
    }
}
