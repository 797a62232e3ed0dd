// The checker of plans.
ghost use Rattle.std.specs.Prelude.{◌≡◌, ◌<◌, ◌^◌, Bool, true, false, All, IsTrue, length};
ghost use Rattle.assign_core.specs.Assignment.{IsAssignment, IsBest};
ghost use Rattle.double_costs.specs.DoubleRows.{rows_of_doubles};
ghost use Rattle.double_costs.specs.Prices.{IsOnlyBest};
ghost use Rattle.double_costs.specs.Units.{is_number};
ghost use Rattle.double_checker.specs.Verdicts.{AreCosts, AreLong, IsVerdict};
ghost use Rattle.double_checker.specs.inside.Plans.{AreOwn, MarksJust};
ghost use Rattle.double_checker.specs.inside.Outcome.{IsVerdictOrFault};

use super::margins::is_by_margin;
use super::objects::{clear, first_given_before, first_unlisted};
use super::prices::{are_least_unmarked, first_no_price};
use super::rows::are_rows_seen;
use super::verdict::Verdict;
use assign_core::Sense;
use cost_lists::{Object, Person};
use double_costs::first_fault;

// The verdict on a plan with finite prices, if the costs have no fault.
fn verdict_on_prices(
    sense: Sense,
    costs: &[f64],
    objects: &[Object],
    prices: &[f64],
    margin: f64,
    owned: &[bool],
) -> Verdict
    requires long { AreLong (length objects.now) (length prices.now) costs.now objects.now
        prices.now }
    requires own { AreOwn (length prices.now) costs.now objects.now }
    requires assigned { IsAssignment
        (rows_of_doubles (length prices.now) (length objects.now) costs.now) objects.now }
    requires finite { All (λ p. IsTrue (is_number p)) prices.now }
    requires marks { MarksJust owned.now objects.now }
    requires owned { length owned.now ≡ length prices.now }
    ensures verdict { AreCosts sense costs.now → IsVerdict sense (length objects.now)
        (length prices.now) costs.now objects.now prices.now margin result }
    ensures best { (by_margin : Bool) → result ≡ Verdict.Best by_margin → AreCosts sense costs.now }
{
    if !are_least_unmarked(owned, prices) {
        return Verdict::Undecided;
    }
    match are_rows_seen(sense, costs, objects, prices, margin) {
        Some(is_worse) => Verdict::Best {
            by_margin: is_by_margin(is_worse, costs, margin),
        },
        None => Verdict::Undecided,
    }
}

// The verdict on a plan, if the costs have no fault.
fn verdict_on_plan(
    sense: Sense,
    costs: &[f64],
    objects: &[Object],
    prices: &[f64],
    margin: f64,
    owned: &mut [bool],
) -> Verdict
    requires long { AreLong (length objects.now) (length prices.now) costs.now objects.now
        prices.now }
    requires owned { length owned.old ≡ length prices.now }
    requires persons { length objects.now < 2 ^ 32 }
    requires objects { length prices.now < 2 ^ 32 }
    ensures verdict { AreCosts sense costs.now → IsVerdict sense (length objects.now)
        (length prices.now) costs.now objects.now prices.now margin result }
    ensures best { (by_margin : Bool) → result ≡ Verdict.Best by_margin → AreCosts sense costs.now }
{
    if let Some(person) = first_unlisted(costs, objects, prices.len()) {
        return Verdict::Unlisted(person);
    }
    clear(owned);
    if let Some(person) = first_given_before(owned, objects) {
        return Verdict::Twice(person);
    }
    if let Some(object) = first_no_price(prices) {
        return Verdict::Price(object);
    }
    verdict_on_prices(sense, costs, objects, prices, margin, owned)
}

// Whether the plan is best.
fn is_best(verdict: Verdict) -> bool
    ensures yes { IsTrue result → (b : Bool) × (verdict ≡ Verdict.Best b) }
    ensures no { result ≡ false → (b : Bool) → ¬ (verdict ≡ Verdict.Best b) }
{
    match verdict {
        Verdict::Best { by_margin: _ } => true,
        _ => false,
    }
}

// The verdict, or the first fault of the costs if the plan isn't best and they have one.
fn verdict_or_fault(sense: Sense, costs: &[f64], verdict: Verdict) -> Verdict
    ensures { IsVerdictOrFault sense costs.now verdict result }
{
    if is_best(verdict) {
        return verdict;
    }
    match first_fault(sense, costs) {
        Some(place) => Verdict::Cost(place),
        None => verdict,
    }
}

/// Whether the objects of persons 1 to `n` are a plan that the prices of objects 1 to `m` prove
/// best among `n * m` costs, row by row. An infinite cost forbids its pair: the positive infinity
/// under `Min`, the negative one under `Max`.
///
/// At these prices each person's own object is a cheapest by cost plus price under `Min`, a dearest
/// by cost less price under `Max`, and no price is below that of an unowned object. The prices may
/// have any sign and size. All of this is decided in exact arithmetic. The lists may have any
/// length and hold any doubles. `Best` says whether each other pair is worse by more than a margin
/// too, which is above 0 and at least 2^-52 of the size of each cost: then no other plan is as good.
///
/// The time is linear in the costs. `owned` has a mark for each object, which may be of any value
/// before; no other memory is taken.
pub fn check(
    sense: Sense,
    n: Person,
    m: Object,
    costs: &[f64],
    objects: &[Object],
    prices: &[f64],
    margin: f64,
    owned: &mut [bool],
) -> Verdict
    requires { length owned.old ≡ m }
    ensures verdict { IsVerdict sense n m costs.now objects.now prices.now margin result }
    ensures best { (by_margin : Bool) → result ≡ Verdict.Best by_margin
        → IsBest sense (rows_of_doubles m n costs.now) objects.now }
    ensures alone { result ≡ Verdict.Best true
        → IsOnlyBest sense (rows_of_doubles m n costs.now) objects.now }
{
    let (persons, width) = (n as usize, m as usize);
    if objects.len() != persons || prices.len() != width || costs.len() != persons * width {
        return Verdict::Length;
    }
    let verdict = verdict_on_plan(sense, costs, objects, prices, margin, owned);
    verdict_or_fault(sense, costs, verdict)
}
