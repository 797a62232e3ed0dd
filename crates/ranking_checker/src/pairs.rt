// Pairs with their costs.
ghost use Rattle.std.specs.Prelude.{◌≡◌, ◌⊎◌, ℕ, IfOk, IsTrue};
ghost use Rattle.ranking_checker.specs.inside.Adding.{Adds};
ghost use Rattle.ranking_checker.specs.inside.Core.{pair};

use assign_core::Cost;
use cost_lists::{Object, Person};

// A pair with its cost.
#[derive(Clone, Copy)]
pub struct Pair {
    pub person: Person,
    pub object: Object,
    pub cost: Cost,
}
