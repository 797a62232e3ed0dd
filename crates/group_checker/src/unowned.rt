// Whether numbers fall along the arrows to 0, and from it.
ghost use Rattle.std.specs.Prelude.{◌≡◌, ◌<◌, ◌≤◌, ℕ, IsTrue, length};
ghost use Rattle.group_checker.specs.inside.Reading.{FallsOut, FallsOutAt, IsPlan};

use super::plan::{Group, Plan};
use cost_lists::Price;

// Whether the number of 0 isn't higher than that of an object that nobody has, and not lower than that
// of one that may be left.
fn falls_out(owned: bool, price: Price, group: Group, out: Group) -> bool
    ensures { IsTrue result → FallsOut owned price group out }
{
    if owned {
        price != 0 || group <= out
    } else {
        out <= group
    }
}

// Whether that holds of each object.
pub fn all_fall_out(plan: Plan<'_>) -> bool
    requires { (n m : ℕ) × IsPlan n m plan }
    ensures { IsTrue result → (j : ℕ) → j < length plan.entry.owned.now
        → FallsOutAt plan.entry j }
{
    for j in 0..plan.owned.len() {
        if !falls_out(plan.owned[j], plan.prices[j], plan.groups[j], plan.out) {
            return false;
        }
    }
    true
}
