// Sums of two doubles compared exactly, whatever their sizes.
ghost use Rattle.std.specs.Prelude.{◌≡◌, ◌↔◌, ◌≤◌, ◌-◌, ◌^◌, ◌*ℤ◌, ◌+ℤ◌, ◌<ℤ◌, ◌≤ℤ◌, ℕ, ℤ, pos, neg_ℤ, IsTrue, max, min};
ghost use Rattle.double_costs.specs.Units.{is_number, units_of};
ghost use Rattle.double_checker.specs.inside.Parts.{IsSmall, Tells, part_units};

use super::digits::digits_of;

// A part of a sum: `count` times 2^shift units.
#[derive(Clone, Copy)]
struct Part {
    count: i128,
    shift: u64,
}

// A part from this count on can't change its sign by the smaller ones after it.
const SETTLED: i128 = 0x100_0000_0000_0000;

// A double as a part.
fn part_of(x: f64) -> Part
    requires { IsTrue (is_number x) }
    ensures units { part_units result ≡ units_of x }
    ensures small { IsSmall result }
{
    let d = digits_of(x);
    let size = d.digits as i128;
    Part {
        count: if d.negative { -size } else { size },
        shift: d.shift,
    }
}

// Two parts, the one with the greater shift first.
fn ordered(x: Part, y: Part) -> (Part, Part)
    requires x { IsSmall x }
    requires y { IsSmall y }
    ensures units { (part_units result.0 +ℤ part_units result.1) ≡ (part_units x +ℤ part_units y) }
    ensures high { result.0.shift ≡ max x.shift y.shift }
    ensures low { result.1.shift ≡ min x.shift y.shift }
    ensures first { IsSmall result.0 }
    ensures second { IsSmall result.1 }
{
    if x.shift < y.shift { (y, x) } else { (x, y) }
}

// A count times a power of two.
fn times_power(count: i128, by: u64) -> i128
    requires low { neg_ℤ (pos (2 ^ 56)) <ℤ count }
    requires high { count <ℤ pos (2 ^ 56) }
    requires by { by ≤ 60 }
    ensures is { result ≡ (pos (2 ^ by) *ℤ count) }
    ensures least { neg_ℤ (pos (2 ^ 116)) ≤ℤ result }
    ensures most { result ≤ℤ pos (2 ^ 116) }
{
    let power = (1u64 << by) as i128;
    power * count
}

// A part that has the sign of a sum, with one more part, whose shift is no greater.
fn joined(x: Part, y: Part) -> Part
    requires order { y.shift ≤ x.shift }
    requires y { IsSmall y }
    ensures tells { (total : ℤ) (room : ℕ) → 2 ^ 53 ≤ room → room ≤ 2 ^ 56 → Tells room total x
        → Tells (room - 2 ^ 53) (total +ℤ part_units y) result }
    ensures shift { result.shift ≡ y.shift }
{
    if x.count <= -SETTLED || x.count >= SETTLED {
        return Part {
            count: x.count,
            shift: y.shift,
        };
    }
    let by = (x.shift - y.shift).min(60);
    Part {
        count: times_power(x.count, by) + y.count,
        shift: y.shift,
    }
}

// Whether the sum of four doubles is below 0.
fn is_sum_negative(a: f64, b: f64, c: f64, d: f64) -> bool
    requires a { IsTrue (is_number a) }
    requires b { IsTrue (is_number b) }
    requires c { IsTrue (is_number c) }
    requires d { IsTrue (is_number d) }
    ensures { IsTrue result
        ↔ ((((units_of a +ℤ units_of b) +ℤ units_of c) +ℤ units_of d) <ℤ pos 0) }
{
    let (a, b) = ordered(part_of(a), part_of(b));
    let (c, d) = ordered(part_of(c), part_of(d));
    let (first, c) = ordered(a, c);
    let (b, last) = ordered(b, d);
    let (second, third) = ordered(b, c);
    let sum = joined(joined(joined(first, second), third), last);
    sum.count < 0
}

/// Whether the sum of two finite doubles is below that of two others, in exact arithmetic. Where the rounded
/// sums differ these show it.
pub fn is_sum_less(a: f64, b: f64, c: f64, d: f64) -> bool
    requires a { IsTrue (is_number a) }
    requires b { IsTrue (is_number b) }
    requires c { IsTrue (is_number c) }
    requires d { IsTrue (is_number d) }
    ensures { IsTrue result ↔ ((units_of a +ℤ units_of b) <ℤ (units_of c +ℤ units_of d)) }
{
    let (left, right) = (a + b, c + d);
    if left < right {
        return true;
    }
    if right < left {
        return false;
    }
    is_sum_negative(a, b, -c, -d)
}
