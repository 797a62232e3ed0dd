// What the flag says of numbers near the costs.
ghost use Rattle.std.specs.Prelude.{ℕ, List, true};
ghost use lib.Ieee.{Float};
ghost use Rattle.assign_core.specs.declared.sense.Sense.{Sense};
ghost use Rattle.assign_core.specs.Rows.{Listing};
ghost use Rattle.assign_core.specs.Assignment.{IsBest};
ghost use Rattle.double_costs.specs.Margins.{AreRowsBeside, IsRoundedTo};
ghost use Rattle.c_calls.specs.doubles.Answers.{IsBestBy};
ghost use Rattle.c_calls.specs.doubles.Input.{InputDoubles, rows_in};

/// A plan that is marked as best by a margin is best for all numbers of which the costs are the
/// nearest doubles, as for the decimals that they print as.
pub fn marked_plans_stay_best()
    ensures { (g : InputDoubles) (sense : Sense) (objects : List ℕ) (prices : List Float)
        (scale : ℕ) (others : List Listing) → IsBestBy g sense objects prices true
        → AreRowsBeside (IsRoundedTo scale) (rows_in g) others → IsBest sense others objects }
{}
