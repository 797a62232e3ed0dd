// Whether a plan and its prices are best, where no sum is below its person's value.
ghost use Rattle.std.specs.Prelude.{◌≡◌, ◌<◌, ◌+ℤ◌, ℕ, pos, true, nat_eq, IsTrue, length, slice_index, slice_index_or, All, IfOk};
ghost use Rattle.std.specs.List.{IsDistinct};
ghost use Rattle.assign_core.specs.Numbered.{IsNumber};
ghost use Rattle.assign_core.specs.Rows.{IsCost};
ghost use Rattle.assign_core.specs.Prices.{price_of};
ghost use Rattle.assign_core.specs.Assignment.{AreListed};
ghost use Rattle.cost_lists.specs.ListedCosts.{IsCount};
ghost use Rattle.cost_lists.specs.Exact.{AreFree, IsOptimum, IsPriceInLimits};
ghost use Rattle.exact_checker.specs.Under.{IsUnder};

use super::numbers::first_numbers;
use assign_core::{Cost, Sense};
use cost_lists::{CostLists, Object, Pairs, Price, are_within};
use exact_checker::{Verdict, check, sum_of};
use std::alloc::{AllocError, Global};

// Whether each value is the sum of the own cost and the price of the own object.
fn are_values(values: &[Cost], own: &[Cost], objects: &[Object], prices: &[Price]) -> bool
    requires own_long { length own.now ≡ length values.now }
    requires long { length objects.now ≡ length values.now }
    requires costs { All IsCost own.now }
    requires within { All (IsNumber (length prices.now)) objects.now }
    requires in_range { All IsPriceInLimits prices.now }
    ensures { IsTrue result → (i : ℕ) → i < length values.now
        → slice_index_or values.now i (pos 0) ≡ (slice_index_or own.now i (pos 0)
        +ℤ price_of prices.now (slice_index objects.now i)) }
{
    for i in 0..values.len() {
        let sum = sum_of(Sense::Min, own[i], prices[objects[i] as usize - 1]);
        if values[i] != sum {
            return false;
        }
    }
    true
}

// Whether the checker accepts a plan and its prices for the own pairs alone: no object is given twice,
// and each is owned or its price is 0.
fn are_apart(
    alloc: Global,
    m: Object,
    own: &[Cost],
    objects: &[Object],
    prices: &[Price],
) -> Result<bool, AllocError>
    requires persons { IsCount (length own.now) }
    requires objects { IsCount m }
    requires long { length objects.now ≡ length own.now }
    requires costs { All IsCost own.now }
    requires within { All (IsNumber m) objects.now }
    ensures apart { IfOk result (λ yes. yes ≡ true → IsDistinct nat_eq objects.now) }
    ensures free { IfOk result (λ yes. yes ≡ true → AreFree m prices.now objects.now) }
{
    let n = own.len() as u32;
    let persons = first_numbers(alloc, own.len())?;
    if persons.len() != own.len() || !are_within(n, persons.as_slice()) {
        return Ok(false);
    }
    let pairs = Pairs {
        persons: persons.as_slice(),
        objects,
        costs: own,
    };
    let lists = CostLists::sparse(Sense::Min, n, m, pairs);
    Ok(check(alloc, &lists, objects, prices)? == Verdict::Yes)
}

// Whether a plan of listed objects and its prices are best, where no sum is below its person's value.
pub fn is_best(
    alloc: Global,
    lists: &CostLists<'_>,
    values: &[Cost],
    objects: &[Object],
    prices: &[Price],
) -> Result<bool, AllocError>
    requires values { length values.now ≡ length lists.now.rows }
    requires persons { length objects.now ≡ length lists.now.rows }
    requires objects { length prices.now ≡ lists.now.m }
    requires within { All (IsNumber lists.now.m) objects.now }
    requires listed { AreListed lists.now.rows objects.now }
    requires in_range { All IsPriceInLimits prices.now }
    requires none_under { (i k : ℕ)
        → ¬ IsUnder lists.now.sense lists.now.rows prices.now values.now i k }
    ensures { IfOk result (λ yes. yes ≡ true → IsOptimum lists.now objects.now prices.now) }
{
    // These calls show the prover that persons and objects are few enough.
    let (_persons, m) = (lists.persons(), lists.objects());
    let costs = lists.own_costs(alloc, objects)?;
    let own = costs.as_slice();
    if !are_values(values, own, objects, prices) {
        return Ok(false);
    }
    let yes = are_apart(alloc, m, own, objects, prices)?;
    Ok(yes)
}
