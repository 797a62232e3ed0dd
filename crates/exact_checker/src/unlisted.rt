// Whether each person lists its object.
ghost use Rattle.std.specs.Prelude.{◌≡◌, ◌↔◌, ◌≤◌, ℕ, IsTrue, List, length, MatchOption};
ghost use Rattle.assign_core.specs.declared.sense.Sense.{Sense};
ghost use Rattle.assign_core.specs.Assignment.{AreListed};
ghost use Rattle.assign_core.specs.Rows.{Listing, HasCosts};
ghost use Rattle.dual_checker.specs.Faults.{IsFirst, IsUnlisted};
ghost use Rattle.cost_lists.specs.ListedCosts.{ListedCosts, AreInLimits};
ghost use Rattle.cost_lists.specs.Own.{AreOwnCosts};

use assign_core::Cost;
use cost_lists::{GREATEST_NUMBER, Person, UNLISTED};

// Whether a cost is the mark of an unlisted object.
fn is_unlisted(cost: Cost) -> bool
    ensures { IsTrue result ↔ (cost ≡ UNLISTED) }
{
    cost == UNLISTED
}

// The lowest of the persons that doesn't list its object.
pub fn first_unlisted(own: &[Cost]) -> Option<Person>
    requires { length own.now ≤ GREATEST_NUMBER }
    ensures { (l : ListedCosts) (xs : List ℕ) → AreInLimits l → length xs ≡ length l.rows
        → AreOwnCosts l.sense l.rows xs own.now → MatchOption result (AreListed l.rows xs)
        (λ i. IsFirst (IsUnlisted l.rows xs) (length l.rows) i) }
{
    for (i, cost) in own.iter().enumerate() {
        if is_unlisted(*cost) {
            return Some(i as u32 + 1);
        }
    }
    None
}
