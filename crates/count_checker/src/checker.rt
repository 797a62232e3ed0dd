// The checker of plans.
ghost use Rattle.std.specs.Prelude.{IsTrue, ◌≡◌, ◌↔◌, ◌<◌, ◌+◌, ◌*◌, ◌^◌, ℕ, length, All, IfOk, MatchOption};
ghost use Rattle.assign_core.specs.Numbered.{IsNumber};
ghost use Rattle.assign_core.specs.Prices.{price_of};
ghost use Rattle.dual_checker.specs.Faults.{IsFirst};
ghost use Rattle.count_checker.specs.Counts.{IsBestPlan, IsPlan};
ghost use Rattle.count_checker.specs.CountPrices.{AreCountPrices};
ghost use Rattle.count_checker.specs.CountLists.{AreCountLists, problem_in};
ghost use Rattle.count_checker.specs.CountFaults.{HaveLengths, IsCountVerdict, IsDouble, IsFirstPlace, IsKept, IsPairRight};
ghost use Rattle.count_checker.specs.inside.Holders.{IsHolding};
ghost use Rattle.count_checker.specs.inside.Tallies.{bounds_of, chosen_count};

use super::checked::CheckedLists;
use super::counts::{count, first_loose};
use super::holders::first_double;
use super::lists::CountLists;
use super::marks::Marks;
use super::prices::{are_plain, first_wrong};
use super::verdict::CountVerdict;
use std::alloc::{AllocError, Global};

// The first place whose pair is chosen and has a chosen rival before it.
#[tactic(auto, using(crate::proofs::Fresh::fresh))]
fn find_double(
    alloc: Global,
    lists: CountLists<'_>,
    plan: &Marks<'_>,
) -> Result<Option<usize>, AllocError>
    requires lists { AreCountLists lists }
    requires plan { length plan.now ≡ length lists.rows.now }
    ensures { let l = lists.entry in IfOk result (λ o. MatchOption o
        ((k : ℕ) → k < length l.rows.now → ¬ IsDouble l plan.now k)
        (λ k. IsFirstPlace (IsDouble l plan.now) (length l.rows.now) k)) }
{
    let mut holders = vec![in alloc; 0usize; 2 * lists.groups.len() + 1]?;
    Ok(first_double(holders.as_mut_slice(), lists, plan))
}

// The first row, or column, whose count isn't kept or whose number isn't tight.
fn find_loose(
    alloc: Global,
    keys: &[u32],
    plan: &Marks<'_>,
    least: &[u32],
    most: &[u32],
    prices: &[i64],
) -> Result<Option<usize>, AllocError>
    requires plan { length plan.now ≡ length keys.now }
    requires within { All (IsNumber (length least.now)) keys.now }
    requires most { length most.now ≡ length least.now }
    requires prices { length prices.now ≡ length least.now }
    ensures { let b = bounds_of least.now most.now in
        let count = λ (i : ℕ). chosen_count keys.now plan.now i (length keys.now) in
        IfOk result (λ o. MatchOption o
        ((i : ℕ) → IsNumber (length least.now) i → IsKept b i (count i) (price_of prices.now i))
        (λ i. IsFirst (λ i. ¬ IsKept b i (count i) (price_of prices.now i))
        (length least.now) i)) }
{
    let mut counts = vec![in alloc; 0usize; least.len()]?;
    count(counts.as_mut_slice(), keys, plan);
    Ok(first_loose(counts.as_slice(), least, most, prices))
}

// The first place whose pair isn't right, where no two chosen pairs are rivals.
#[tactic(auto, using(crate::proofs::Fresh::fresh))]
fn find_wrong(
    alloc: Global,
    lists: CountLists<'_>,
    plan: &Marks<'_>,
    row_prices: &[i64],
    column_prices: &[i64],
) -> Result<Option<usize>, AllocError>
    requires lists { AreCountLists lists }
    requires plan { length plan.now ≡ length lists.rows.now }
    requires rows { length row_prices.now ≡ length lists.row_least.now }
    requires columns { length column_prices.now ≡ length lists.column_least.now }
    requires single { (k : ℕ) → k < length lists.rows.now → ¬ IsDouble lists plan.now k }
    ensures { let l = lists.entry in IfOk result (λ o. MatchOption o
        ((k : ℕ) → k < length l.rows.now
        → IsPairRight l plan.now row_prices.now column_prices.now k)
        (λ k. IsFirstPlace (λ q. ¬ IsPairRight l plan.now row_prices.now column_prices.now q)
        (length l.rows.now) k)) }
{
    if are_plain(lists, plan, row_prices, column_prices) {
        return Ok(None);
    }
    let mut holders = vec![in alloc; 0usize; 2 * lists.groups.len() + 1]?;
    let holders = holders.as_mut_slice();
    Ok(first_wrong(holders, lists, plan, row_prices, column_prices))
}

// The first fault of lists of the right lengths.
fn first_fault(
    alloc: Global,
    lists: CountLists<'_>,
    plan: &Marks<'_>,
    row_prices: &[i64],
    column_prices: &[i64],
) -> Result<CountVerdict, AllocError>
    requires lists { AreCountLists lists }
    requires plan { length plan.now ≡ length lists.rows.now }
    requires rows { length row_prices.now ≡ length lists.row_least.now }
    requires columns { length column_prices.now ≡ length lists.column_least.now }
    ensures { IfOk result (λ v.
        IsCountVerdict lists.entry plan.now row_prices.now column_prices.now v) }
{
    let l = lists;
    if let Some(place) = find_double(alloc, l, plan)? {
        return Ok(CountVerdict::Twice(place));
    }
    if let Some(row) = find_loose(alloc, l.rows, plan, l.row_least, l.row_most, row_prices)? {
        return Ok(CountVerdict::Row(row));
    }
    let (least, most) = (l.column_least, l.column_most);
    if let Some(column) = find_loose(alloc, l.columns, plan, least, most, column_prices)? {
        return Ok(CountVerdict::Column(column));
    }
    match find_wrong(alloc, l, plan, row_prices, column_prices)? {
        Some(place) => Ok(CountVerdict::Pair(place)),
        None => Ok(CountVerdict::Yes),
    }
}

// Whether lists have the right lengths.
fn are_long(
    lists: CountLists<'_>,
    plan: &Marks<'_>,
    row_prices: &[i64],
    column_prices: &[i64],
) -> bool
    ensures { IsTrue result ↔ HaveLengths lists.entry plan.now row_prices.now column_prices.now }
{
    plan.len() == lists.rows.len()
        && row_prices.len() == lists.row_least.len()
        && column_prices.len() == lists.column_least.len()
}

/// Whether a plan keeps counts and groups and the numbers of rows and columns prove it best; if not,
/// the first fault in the order of `CountVerdict`, by its lowest number.
///
/// `Yes` proves that no plan is better: with r and v the numbers of a pair's row and column and e its
/// cost less r and v (under `Max` its negated cost), each chosen pair has e at most 0 and the least e of
/// its row's group, each other pair has e at least 0 or its row has chosen another column of its group,
/// and a number is above 0 only where its count is the least, and below 0 only where it is the greatest
/// (complementary slackness for the transportation problem: Bertsekas and Castañon, Annals of
/// Operations Research 20, 1989). The marks and the numbers may be of any length and hold anything. The
/// time is linear in the pairs, rows and columns; the memory is the greater of 8 bytes a row and 16 bytes a
/// column.
///
/// # Errors
/// `AllocError` if memory is refused. None is taken for lists of wrong lengths.
pub fn check(
    alloc: Global,
    problem: &CheckedLists<'_>,
    plan: &Marks<'_>,
    row_prices: &[i64],
    column_prices: &[i64],
) -> Result<CountVerdict, AllocError>
    ensures verdict { IfOk result (λ v.
        IsCountVerdict problem.now plan.now row_prices.now column_prices.now v) }
    ensures yes { let p = problem_in problem.now in IfOk result (λ v. (v ≡ CountVerdict.Yes)
        ↔ (IsPlan p plan.now × AreCountPrices p plan.now row_prices.now column_prices.now)) }
    ensures best { IfOk result (λ v.
        v ≡ CountVerdict.Yes → IsBestPlan (problem_in problem.now) plan.now) }
{
    let lists = problem.lists();
    if !are_long(lists, plan, row_prices, column_prices) {
        return Ok(CountVerdict::Length);
    }
    first_fault(alloc, lists, plan, row_prices, column_prices)
}
