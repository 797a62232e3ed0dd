// The slackness of each phase, and products of a step.
ghost use Rattle.std.specs.Prelude.{◌≡◌, ℤ, Some, pos, ◌*ℤ◌, ◌≤ℤ◌, ◌≤◌};
ghost use Rattle.scaled_values.specs.Scaled.{ScaledProblem, fifth, next_eps, IsEps};
ghost use Rattle.scaled_values.specs.Limits.{most_step};

use assign_core::{MOST_PERSONS, Price};

/// The first phase's slackness is the spread divided by this, each later one the slackness before
/// it divided by this; both are at least 1.
pub const EPS_DIVISOR: i64 = 5;

// A fifth, but at least 1.
pub fn fifth(number: i64) -> i64
    ensures { result ≡ fifth number }
{
    (number / EPS_DIVISOR).max(1)
}

/// The slackness of the phase after one with slackness `eps`: a fifth of it, rounded toward zero,
/// but at least 1. `None` exactly for 1, the slackness of the last phase.
///
/// Epsilon-scaling (Bertsekas, Network Optimization, 1998, section 7.1.4).
pub fn next_eps(eps: i64) -> Option<i64>
    ensures value { result ≡ next_eps eps }
    ensures listed { (s : ScaledProblem) (next : ℤ) → IsEps s eps → result ≡ Some next
        → IsEps s next }
{
    if eps == 1 { None } else { Some(fifth(eps)) }
}

// `count` times `step`.
pub fn steps(count: u16, step: i64) -> Price
    requires few { count ≤ MOST_PERSONS }
    requires least { pos 0 ≤ℤ step }
    requires greatest { step ≤ℤ most_step }
    ensures value { result ≡ pos count *ℤ step }
    ensures least { pos 0 ≤ℤ result }
    ensures greatest { result ≤ℤ (pos MOST_PERSONS *ℤ most_step) }
{
    Price::from(count) * Price::from(step)
}
