// Sums of two doubles compared exactly.
ghost use Rattle.std.specs.Prelude.{◌≡◌, ◌↔◌, ◌≤ℤ◌, ◌+ℤ◌, [], ◌∷◌, IsTrue, MatchOption};
ghost use Rattle.double_costs.specs.Units.{is_number, units_of};
ghost use Rattle.double_checker.specs.Far.{HasFar};
ghost use Rattle.double_checker.specs.inside.Sizes.{AreShiftedBy, size_of, units_by};

use super::digits::{Digits, digits_of, low_shift, scaled};

// Whether a sum is at most another.
fn is_sum_at_most(a: Digits, b: Digits, c: Digits, d: Digits, low: u64) -> bool
    requires a { AreShiftedBy low a }
    requires b { AreShiftedBy low b }
    requires c { AreShiftedBy low c }
    requires d { AreShiftedBy low d }
    ensures { IsTrue result ↔ ((units_by a +ℤ units_by b) ≤ℤ (units_by c +ℤ units_by d)) }
{
    let left = scaled(a, low) + scaled(b, low);
    let right = scaled(c, low) + scaled(d, low);
    left <= right
}

// Whether a sum is at most another; `None` where numbers are far apart in size.
pub fn is_at_most(a: f64, b: f64, c: f64, d: f64) -> Option<bool>
    requires a { IsTrue (is_number a) }
    requires b { IsTrue (is_number b) }
    requires c { IsTrue (is_number c) }
    requires d { IsTrue (is_number d) }
    ensures { MatchOption result (HasFar (size_of a ∷ size_of b ∷ size_of c ∷ size_of d ∷ []))
        (λ holds. IsTrue holds ↔ ((units_of a +ℤ units_of b) ≤ℤ (units_of c +ℤ units_of d))) }
{
    let (a, b, c, d) = (digits_of(a), digits_of(b), digits_of(c), digits_of(d));
    let low = low_shift(a)
        .min(low_shift(b))
        .min(low_shift(c).min(low_shift(d)));
    let high = a.shift.max(b.shift).max(c.shift.max(d.shift));
    if high > low + 70 {
        return None;
    }
    Some(is_sum_at_most(a, b, c, d, low))
}
