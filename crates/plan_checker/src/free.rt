// Ranks of objects that nobody owns, and of those whose price is below a bound.
ghost use Rattle.std.specs.Prelude.{◌≡◌, ◌↔◌, ◌⊎◌, ◌≤◌, ◌≤ℤ◌, ◌<ℤ◌, ◌<◌, ℕ, pos, IsTrue, length};
ghost use Rattle.assign_core.specs.Numbered.{IsNumber};
ghost use Rattle.plan_checker.specs.Ranks.{IsRank};
ghost use Rattle.plan_checker.specs.inside.Rises.{HasNoPrice, IsFreeAt, IsPlan, StaysLow};

use super::further::{has_no_price, stays_low};
use super::rank::Rank;
use super::rises::Plan;
use cost_lists::{GREATEST_NUMBER, Object, Price};

// Whether the price of an object is below the bound, and stays so.
fn is_low(plan: Plan<'_>, price: Price, object: Object) -> bool
    requires plan { (n m : ℕ) × IsPlan n m plan × IsNumber m object }
    ensures { IsTrue result ↔ ((price <ℤ plan.entry.bound) × StaysLow plan.entry object) }
{
    price < plan.bound && stays_low(plan, object)
}

// Whether an object that isn't owned has price 0 by each further list.
fn is_unpriced(plan: Plan<'_>, owned: bool, object: Object) -> bool
    requires plan { (n m : ℕ) × IsPlan n m plan × IsNumber m object }
    ensures { IsTrue result ↔ (IsTrue owned ⊎ HasNoPrice plan.entry object) }
{
    owned || has_no_price(plan, object)
}

// Whether the rank of an object may stand with these prices.
fn is_free(owned: bool, unpriced: bool, low: bool, rank: Rank) -> bool
    ensures free { IsTrue result
        ↔ ((IsTrue owned ⊎ (rank ≡ pos 0)) × IsTrue unpriced × (IsTrue low → pos 0 ≤ℤ rank)) }
    ensures in_range { IsRank rank }
{
    (owned || rank == 0) && unpriced && (!low || rank >= 0)
}

// Whether each object has rank 0 and no further prices if it isn't marked, and a rank from 0 if its
// price stays below the bound.
pub fn are_free(owned: &[bool], plan: Plan<'_>) -> bool
    requires plan { (n : ℕ) × IsPlan n (length owned.now) plan }
    requires few { length owned.now ≤ GREATEST_NUMBER }
    ensures { IsTrue result ↔ ((j : ℕ) → j < length owned.now → IsFreeAt owned.now plan.entry j) }
{
    for j in 0..owned.len() {
        let object = j as u32 + 1;
        let unpriced = is_unpriced(plan, owned[j], object);
        let low = is_low(plan, plan.prices[j], object);
        if !is_free(owned[j], unpriced, low, plan.ranks[j]) {
            return false;
        }
    }
    true
}
