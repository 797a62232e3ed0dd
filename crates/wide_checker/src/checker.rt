// The checker: the first fault of the verdicts' order.
ghost use Rattle.std.specs.Prelude.{◌≡◌, ◌↔◌, ◌≤◌, ℕ, length, map, replicate, All, IfOk, MatchOption};
ghost use Rattle.assign_core.specs.Assignment.{IsBest};
ghost use Rattle.dual_checker.specs.Faults.{IsFirst, AreLong};
ghost use Rattle.exact_checker.specs.Under.{HasUnder, IsUnder};
ghost use Rattle.wide_checker.specs.WideNumbers.{IsInPrices, wide_value};
ghost use Rattle.wide_checker.specs.WideOptimum.{IsWideOptimum};
ghost use Rattle.wide_checker.specs.WideVerdicts.{IsWideVerdict};
ghost use Rattle.wide_checker.specs.inside.Own.{AreWideOwn};

use super::lists::WideLists;
use super::numbers::Wide;
use super::overpriced::first_priced_unowned;
use super::own::own_costs;
use super::pairs::first_of_pairs;
use super::priced::first_out_of_range;
use super::rows::first_of_rows;
use super::source::WideSource;
use super::unlisted::first_unlisted;
use super::values::add_prices;
use cost_lists::{Object, Person};
use dual_checker::first_given_twice;
use exact_checker::Verdict;
use std::alloc::{AllocError, Global};

// The lowest person that lists an object whose sum of cost and price is below the person's value,
// and its lowest object of this kind. Under `Max` a sum is the price less the cost.
fn first_under_value(
    lists: &WideLists<'_>,
    values: &[i128],
    prices: &[Wide],
) -> Option<(Person, Object)>
    requires persons { length values.now ≡ length lists.now.rows }
    requires objects { length prices.now ≡ lists.now.m }
    requires in_range { All IsInPrices (map wide_value prices.now) }
    ensures { let l = lists.now in let p = map wide_value prices.now in MatchOption result
        ((i k : ℕ) → ¬ IsUnder l.sense l.rows p values.now i k)
        (λ r. IsFirst (HasUnder l.sense l.rows p values.now) (length l.rows) r.0
        × IsFirst (IsUnder l.sense l.rows p values.now r.0) l.m r.1) }
{
    // These calls show the prover that persons and objects are few enough.
    let (_persons, _objects) = (lists.persons(), lists.objects());
    match lists.source() {
        WideSource::Dense(costs) => first_of_rows(lists.sense(), costs, values, prices),
        WideSource::Listed(pairs) => first_of_pairs(lists.sense(), pairs, values, prices),
    }
}

// The first fault of lists of the right lengths. The own costs are those of the persons' objects,
// and the counts are 0.
fn first_fault(
    own: &mut [i128],
    counts: &mut [u32],
    lists: &WideLists<'_>,
    objects: &[Object],
    prices: &[Wide],
) -> Verdict
    requires long { AreLong lists.now.m lists.now.rows objects.now (map wide_value prices.now) }
    requires own { AreWideOwn lists.now.sense lists.now.rows objects.now own.old }
    requires counts { counts.old ≡ replicate lists.now.m 0 }
    ensures { IsWideVerdict lists.now objects.now (map wide_value prices.now) result }
{
    // These calls show the prover that persons and objects are few enough.
    let (_persons, _objects) = (lists.persons(), lists.objects());
    if let Some(person) = first_unlisted(own) {
        return Verdict::Unlisted(person);
    }
    if let Some(object) = first_given_twice(counts, objects) {
        return Verdict::Twice(object);
    }
    if let Some(object) = first_out_of_range(prices) {
        return Verdict::PriceRange(object);
    }
    add_prices(own, objects, prices);
    if let Some((person, object)) = first_under_value(lists, own, prices) {
        return Verdict::Slack(person, object);
    }
    if let Some(object) = first_priced_unowned(counts, prices) {
        return Verdict::Overpriced(object);
    }
    Verdict::Yes
}

/// Whether the objects of persons 1 to `n` and the prices of objects 1 to `m` are an assignment
/// with exact prices; if not, the first fault in the order of `Verdict`, by its lowest number.
/// Prices are from 0 to `GREATEST_WIDE_PRICE`.
///
/// `Yes` proves the assignment optimal: complementary slackness 0, in the unit of the costs
/// (Bertsekas, Network Optimization, 1998, section 7.1). The lists may have any length and hold any
/// numbers. The time is linear in the costs; the memory is 16 bytes a person and 4 an object.
///
/// # Errors
/// `AllocError` if memory is refused. None is taken for lists of wrong lengths.
pub fn check(
    alloc: Global,
    lists: &WideLists<'_>,
    objects: &[Object],
    prices: &[Wide],
) -> Result<Verdict, AllocError>
    ensures verdict { IfOk result (λ v.
        IsWideVerdict lists.now objects.now (map wide_value prices.now) v) }
    ensures yes { IfOk result (λ v. (v ≡ Verdict.Yes)
        ↔ IsWideOptimum lists.now objects.now (map wide_value prices.now)) }
    ensures best { IfOk result (λ v.
        v ≡ Verdict.Yes → IsBest lists.now.sense lists.now.rows objects.now) }
{
    let (n, m) = (lists.persons() as usize, lists.objects() as usize);
    if objects.len() != n || prices.len() != m {
        return Ok(Verdict::Length);
    }
    let mut own = own_costs(alloc, lists, objects)?;
    let mut counts = vec![in alloc; 0u32; m]?;
    let (own, counts) = (own.as_mut_slice(), counts.as_mut_slice());
    Ok(first_fault(own, counts, lists, objects, prices))
}
