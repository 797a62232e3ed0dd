// Whether each person lists its object.
ghost use Rattle.std.specs.Prelude.{◌≡◌, ◌↔◌, ◌≤◌, ℕ, IsTrue, List, length, MatchOption};
ghost use Rattle.assign_core.specs.Assignment.{AreListed};
ghost use Rattle.dual_checker.specs.Faults.{IsFirst, IsUnlisted};
ghost use Rattle.cost_lists.specs.ListedCosts.{ListedCosts};
ghost use Rattle.wide_checker.specs.WideLimits.{AreInWideLimits};
ghost use Rattle.wide_checker.specs.inside.Own.{AreWideOwn};

use super::numbers::UNLISTED;
use cost_lists::{GREATEST_NUMBER, Person};

// Whether a cost is the mark of an unlisted object.
fn is_unlisted(cost: i128) -> bool
    ensures { IsTrue result ↔ (cost ≡ UNLISTED) }
{
    cost == UNLISTED
}

// The lowest of the persons that doesn't list its object.
pub fn first_unlisted(own: &[i128]) -> Option<Person>
    requires { length own.now ≤ GREATEST_NUMBER }
    ensures { (l : ListedCosts) (xs : List ℕ) → AreInWideLimits l → length xs ≡ length l.rows
        → AreWideOwn l.sense l.rows xs own.now → MatchOption result (AreListed l.rows xs)
        (λ i. IsFirst (IsUnlisted l.rows xs) (length l.rows) i) }
{
    for (i, cost) in own.iter().enumerate() {
        if is_unlisted(*cost) {
            return Some(i as u32 + 1);
        }
    }
    None
}
