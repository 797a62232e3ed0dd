// A given plan after few changes: mended, and accepted in one pass over all costs.
ghost use Rattle.std.specs.Prelude.{◌≡◌, ◌↔◌, ◌*◌, ℕ, IsTrue, length, All, IfOk, IfSome};
ghost use Rattle.assign_core.specs.Numbered.{IsNumber};
ghost use Rattle.assign_core.specs.Assignment.{AreListed, total};
ghost use Rattle.cost_lists.specs.Exact.{IsOptimum, IsPriceInLimits};
ghost use Rattle.cost_lists.specs.ListedCosts.{IsCount};
ghost use Rattle.exact_checker.specs.Under.{IsUnder};
ghost use Rattle.plan_repair.specs.Mended.{IsMended};

use super::mending::mend;
use super::numbers::{numbers_of, places_of};
use super::one_pass::first_beyond;
use super::own_pairs::is_best;
use super::plan::Plan;
use super::rows::Rows;
use assign_core::{Cost, Sense};
use cost_lists::{CostLists, GREATEST_PRICE, Object, Person, Price, are_within};
use std::alloc::{AllocError, Global};

// So often a plan is mended.
const ROUNDS: usize = 3;

/// An optimal assignment with exact prices, and its cost.
#[derive(Drop)]
pub struct Mended {
    pub objects: Vec<Object>,
    pub prices: Vec<Price>,
    pub total: Cost,
}

fn are_prices(prices: &[Price]) -> bool
    ensures { IsTrue result ↔ All IsPriceInLimits prices.now }
{
    prices
        .iter()
        .all(|price| 0 <= *price && *price <= GREATEST_PRICE)
}

// The cost of a plan, if its prices show that it is best. No sum of cost and price is below its person's
// value.
fn total_if_best(
    alloc: Global,
    lists: &CostLists<'_>,
    values: &[Cost],
    objects: &[Object],
    prices: &[Price],
) -> Result<Option<Cost>, AllocError>
    requires values { length values.now ≡ length lists.now.rows }
    requires persons { length objects.now ≡ length lists.now.rows }
    requires objects { length prices.now ≡ lists.now.m }
    requires within { All (IsNumber lists.now.m) objects.now }
    requires listed { AreListed lists.now.rows objects.now }
    requires in_range { All IsPriceInLimits prices.now }
    requires none_under { (i k : ℕ)
        → ¬ IsUnder lists.now.sense lists.now.rows prices.now values.now i k }
    ensures { IfOk result (λ cost. IfSome cost (λ sum.
        IsOptimum lists.now objects.now prices.now × (sum ≡ total lists.now.rows objects.now))) }
{
    if !is_best(alloc, lists, values, objects, prices)? {
        return Ok(None);
    }
    Ok(Some(lists.total(alloc, objects)?))
}

// A plan that one pass over all costs accepts; else it lets go what the pass met first.
fn accept(
    alloc: Global,
    sense: Sense,
    n: Person,
    m: Object,
    costs: &[Cost],
    plan: &mut Plan<'_>,
) -> Result<Option<Mended>, AllocError>
    requires persons { IsCount n }
    requires objects { IsCount m }
    requires long { length costs.now ≡ n * m }
    ensures { IfOk result (λ mended. IfSome mended (IsMended sense n m costs.now)) }
{
    let values = plan.values(alloc)?;
    let objects = numbers_of(alloc, plan.objects.as_slice())?;
    let prices = plan.prices.as_slice().to_vec(alloc)?;
    if values.len() != n as usize || objects.len() != n as usize || prices.len() != m as usize {
        return Ok(None);
    }
    let (sums, places, slice) = (values.as_slice(), objects.as_slice(), prices.as_slice());
    if !are_within(m, places) || !are_prices(slice) {
        return Ok(None);
    }
    if let Some(person) = first_beyond(sense, costs, sums, slice) {
        plan.let_go(person);
        return Ok(None);
    }
    let lists = CostLists::dense(sense, n, m, costs);
    let Some(total) = total_if_best(alloc, &lists, sums, places, slice)? else {
        return Ok(None);
    };
    Ok(Some(Mended {
        objects,
        prices,
        total,
    }))
}

/// Mends a given plan with prices where few persons have no object, or few rows, columns or costs have
/// changed, by shortest paths, and accepts it in one pass over all costs, which shows that they are in
/// range too. Nothing if that isn't so, or takes as long as a search.
///
/// # Errors
/// `AllocError` if memory is refused.
pub fn mend_dense(
    alloc: Global,
    sense: Sense,
    n: Person,
    m: Object,
    costs: &[Cost],
    objects: &[Object],
    prices: &[Price],
) -> Result<Option<Mended>, AllocError>
    requires persons { IsCount n }
    requires objects { IsCount m }
    requires long { length costs.now ≡ n * m }
    ensures { IfOk result (λ mended. IfSome mended (IsMended sense n m costs.now)) }
{
    if n > m {
        return Ok(None);
    }
    let rows = Rows {
        sense,
        objects: m as usize,
        costs,
    };
    let places = places_of(alloc, objects)?;
    let mut plan = Plan::of(alloc, rows, places.as_slice(), prices)?;
    let mut rows_left = n as usize;
    for _ in 0..ROUNDS {
        if !mend(alloc, &mut plan, &mut rows_left)? {
            return Ok(None);
        }
        if let Some(mended) = accept(alloc, sense, n, m, costs, &mut plan)? {
            return Ok(Some(mended));
        }
    }
    Ok(None)
}
