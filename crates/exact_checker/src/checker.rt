// The checker: the first fault of the verdicts' order.
ghost use Rattle.std.specs.Prelude.{◌≡◌, ◌↔◌, ◌≤◌, ℕ, length, replicate, All, IfOk, MatchOption};
ghost use Rattle.assign_core.specs.Assignment.{IsBest};
ghost use Rattle.dual_checker.specs.Faults.{IsFirst, AreLong};
ghost use Rattle.cost_lists.specs.Exact.{IsOptimum, IsPriceInLimits};
ghost use Rattle.cost_lists.specs.Own.{AreOwnCosts};
ghost use Rattle.exact_checker.specs.Verdicts.{IsVerdict};
ghost use Rattle.exact_checker.specs.Under.{HasUnder, IsUnder};

use super::overpriced::first_priced_unowned;
use super::pairs::first_of_pairs;
use super::priced::first_out_of_range;
use super::rows::first_of_rows;
use super::unlisted::first_unlisted;
use super::values::add_prices;
use super::verdict::Verdict;
use assign_core::Cost;
use cost_lists::{CostLists, Object, Person, Price, Source};
use dual_checker::first_given_twice;
use std::alloc::{AllocError, Global};

/// The lowest person that lists an object whose sum of cost and price is below the person's value,
/// and its lowest object of this kind. Under `Max` a sum is the price less the cost. A value may be
/// any number.
///
/// The time is linear in the costs; it takes no memory.
pub fn first_under_value(
    lists: &CostLists<'_>,
    values: &[Cost],
    prices: &[Price],
) -> Option<(Person, Object)>
    requires persons { length values.now ≡ length lists.now.rows }
    requires objects { length prices.now ≡ lists.now.m }
    requires in_range { All IsPriceInLimits prices.now }
    ensures { let l = lists.now in MatchOption result
        ((i k : ℕ) → ¬ IsUnder l.sense l.rows prices.now values.now i k)
        (λ p. IsFirst (HasUnder l.sense l.rows prices.now values.now) (length l.rows) p.0
        × IsFirst (IsUnder l.sense l.rows prices.now values.now p.0) l.m p.1) }
{
    // These calls show the prover that persons and objects are few enough.
    let (_persons, _objects) = (lists.persons(), lists.objects());
    match lists.source() {
        Source::Dense(costs) => first_of_rows(lists.sense(), costs, values, prices),
        Source::Listed(pairs) => first_of_pairs(lists.sense(), pairs, values, prices),
    }
}

// The first fault of lists of the right lengths. The own costs are those of the persons' objects,
// and the counts are 0.
fn first_fault(
    own: &mut [Cost],
    counts: &mut [u32],
    lists: &CostLists<'_>,
    objects: &[Object],
    prices: &[Price],
) -> Verdict
    requires long { AreLong lists.now.m lists.now.rows objects.now prices.now }
    requires own { AreOwnCosts lists.now.sense lists.now.rows objects.now own.old }
    requires counts { counts.old ≡ replicate lists.now.m 0 }
    ensures { IsVerdict lists.now objects.now prices.now result }
{
    // These calls show the prover that persons and objects are few enough.
    let (_persons, _objects) = (lists.persons(), lists.objects());
    if let Some(person) = first_unlisted(own) {
        return Verdict::Unlisted(person);
    }
    if let Some(object) = first_given_twice(counts, objects) {
        return Verdict::Twice(object);
    }
    if let Some(object) = first_out_of_range(prices) {
        return Verdict::PriceRange(object);
    }
    add_prices(own, objects, prices);
    if let Some((person, object)) = first_under_value(lists, own, prices) {
        return Verdict::Slack(person, object);
    }
    if let Some(object) = first_priced_unowned(counts, prices) {
        return Verdict::Overpriced(object);
    }
    Verdict::Yes
}

/// Whether the objects of persons 1 to `n` and the prices of objects 1 to `m` are an assignment with
/// exact prices; if not, the first fault in the order of `Verdict`, by its lowest number.
///
/// `Yes` proves the assignment optimal: complementary slackness 0, in the unit of the costs
/// (Bertsekas, Network Optimization, 1998, section 7.1). The lists may have any length and hold any
/// numbers. The time is linear in the costs; the memory is 8 bytes a person and 4 an object.
///
/// # Errors
/// `AllocError` if memory is refused. None is taken for lists of wrong lengths.
pub fn check(
    alloc: Global,
    lists: &CostLists<'_>,
    objects: &[Object],
    prices: &[Price],
) -> Result<Verdict, AllocError>
    ensures verdict { IfOk result (λ v. IsVerdict lists.now objects.now prices.now v) }
    ensures yes { IfOk result (λ v.
        (v ≡ Verdict.Yes) ↔ IsOptimum lists.now objects.now prices.now) }
    ensures best { IfOk result (λ v.
        v ≡ Verdict.Yes → IsBest lists.now.sense lists.now.rows objects.now) }
{
    let (n, m) = (lists.persons() as usize, lists.objects() as usize);
    if objects.len() != n || prices.len() != m {
        return Ok(Verdict::Length);
    }
    let mut own = lists.own_costs(alloc, objects)?;
    let mut counts = vec![in alloc; 0u32; m]?;
    let (own, counts) = (own.as_mut_slice(), counts.as_mut_slice());
    Ok(first_fault(own, counts, lists, objects, prices))
}
