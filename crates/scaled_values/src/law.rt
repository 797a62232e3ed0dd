// Laws of the least and the greatest benefit, and of the slacknesses of all phases.
ghost use Rattle.std.specs.Prelude.{◌≡◌, ℕ, ℤ, pos, List, ◌<◌, ◌≤ℤ◌, Some};
ghost use Rattle.assign_core.specs.Rows.{IsProblem};
ghost use Rattle.scaled_values.specs.Scaled.{ScaledProblem, first_eps, eps_after, IsEps};
ghost use Rattle.scaled_values.specs.Scaled.{least_of, greatest_of, IsLeastOf, IsGreatestOf};

use super::phases::EPS_DIVISOR;

/// The divisor of slacknesses.
pub fn eps_divisor()
    ensures { EPS_DIVISOR ≡ pos 5 }
{}

/// There are at most 23 phases.
pub fn few_phases()
    ensures { (s : ScaledProblem) (k : ℕ) (eps : ℤ) → IsProblem s.problem
        → eps_after s k ≡ Some eps → k < 23 }
{}

/// No slackness is below 1 or above the first.
pub fn eps_in_range()
    ensures { (s : ScaledProblem) (eps : ℤ) → IsEps s eps
        → (pos 1 ≤ℤ eps) × (eps ≤ℤ first_eps s) }
{}

/// The slackness of the last phase is 1.
pub fn last_eps_is_one()
    ensures { (s : ScaledProblem) → IsProblem s.problem → IsEps s (pos 1) }
{}

/// The least of some benefits is among them, and none is below it; the greatest is among them, and
/// none is above it.
pub fn extremes_are_listed()
    ensures { (xs : List ℤ) → IsLeastOf xs (least_of xs) × IsGreatestOf xs (greatest_of xs) }
{}
