// What the elements of lists must be.
ghost use Rattle.std.specs.Prelude.{◌≡◌, ◌<◌, ◌↔◌, ℕ, Some, None, IsTrue, length, All, MatchOption};
ghost use Rattle.assign_core.specs.Numbered.{IsNumber};
ghost use Rattle.assign_core.specs.Rows.{IsCost};
ghost use Rattle.cost_lists.specs.Exact.{IsPriceInLimits};
ghost use Rattle.c_calls.specs.lists.Faults.{IsFirstWithout};

use assign_core::{Cost, GREATEST_COST};
use cost_lists::{GREATEST_PRICE, Price};

/// A rule that an element of a list meets or breaks.
pub trait Rule<T: Copy>: Copy {
    ghost is_right: { Self → T → Type 0 };

    fn allows(self, element: T) -> bool
        ensures { IsTrue result ↔ is_right self element };
}

/// Numbers from 1 to this one.
#[derive(Clone, Copy)]
pub struct UpTo(pub u32);

impl Rule<u32> for UpTo {
    ghost is_right = { λ most number. IsNumber most.0 number };

    fn allows(self, element: u32) -> bool {
        0 < element && element <= self.0
    }
}

/// Costs in range.
#[derive(Clone, Copy)]
pub struct InCosts;

impl Rule<Cost> for InCosts {
    ghost is_right = { λ _ cost. IsCost cost };

    fn allows(self, element: Cost) -> bool {
        -GREATEST_COST <= element && element <= GREATEST_COST
    }
}

/// Prices in range.
#[derive(Clone, Copy)]
pub struct InPrices;

impl Rule<Price> for InPrices {
    ghost is_right = { λ _ price. IsPriceInLimits price };

    fn allows(self, element: Price) -> bool {
        0 <= element && element <= GREATEST_PRICE
    }
}

// Whether each element is right. It reads on after a wrong one, so that several are looked at in one
// step.
fn are_right<T: Copy, R: Rule<T>>(rule: R, all: &[T]) -> bool
    ensures { IsTrue result → All (R.is_right rule) all.now }
{
    let mut right = true;
    for i in 0..all.len() {
        right = rule.allows(all[i]) & right;
    }
    right
}

/// The place of the first element that breaks the rule.
pub fn first_wrong<T: Copy, R: Rule<T>>(rule: R, all: &[T]) -> Option<usize>
    ensures { MatchOption result (All (R.is_right rule) all.now) (IsFirstWithout (R.is_right rule) all.now) }
{
    if are_right(rule, all) {
        return None;
    }
    for i in 0..all.len() {
        if !rule.allows(all[i]) {
            return Some(i);
        }
    }
    None
}
