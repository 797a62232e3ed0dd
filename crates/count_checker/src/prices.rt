// What pairs leave of their costs.
ghost use Rattle.std.specs.Prelude.{◌≡◌, ◌+◌, ◌*◌, ◌<◌, ◌≤◌, ◌-ℤ◌, ◌≤ℤ◌, ◌<ℤ◌, ℕ, ℤ, pos, length, MatchOption, slice_index, slice_index_or, true, false};
ghost use Rattle.cost_lists.specs.Own.{minimised};
ghost use Rattle.count_checker.specs.CountLists.{AreCountLists, pair_at};
ghost use Rattle.count_checker.specs.CountPrices.{rest_of};
ghost use Rattle.count_checker.specs.CountFaults.{AreRivalsAt, IsChosen, IsDouble, IsFirstPlace, IsPairRight};
ghost use Rattle.count_checker.specs.inside.Holders.{IsHolding};
ghost use Rattle.count_checker.specs.inside.Plain.{IsPairPlain};

use super::holders::{hold_row, rival};
use super::lists::CountLists;
use super::marks::Marks;
use assign_core::Cost;
use cost_lists::to_minimise;

// The cost of the pair at a place, as one to minimise.
#[inline(always)]
fn cost_at(lists: CountLists<'_>, place: usize) -> Cost
    requires lists { AreCountLists lists }
    requires place { place < length lists.rows.now }
    ensures { result ≡ minimised lists.entry.sense
        (slice_index_or lists.entry.costs.now place (pos 0)) }
{
    to_minimise(lists.sense, lists.costs[place])
}

// A cost without two numbers.
#[inline(always)]
fn rest(cost: Cost, row_price: i64, column_price: i64) -> i128
    ensures { result ≡ cost -ℤ row_price -ℤ column_price }
{
    i128::from(cost) - i128::from(row_price) - i128::from(column_price)
}

// What the pair at a place leaves of its cost.
#[inline(always)]
fn rest_at(lists: CountLists<'_>, row_prices: &[i64], column_prices: &[i64], place: usize) -> i128
    requires lists { AreCountLists lists }
    requires rows { length row_prices.now ≡ length lists.row_least.now }
    requires columns { length column_prices.now ≡ length lists.column_least.now }
    requires place { place < length lists.rows.now }
    ensures { result ≡ rest_of lists.entry.sense row_prices.now column_prices.now (pair_at lists.entry place) }
{
    rest(
        cost_at(lists, place),
        row_prices[lists.rows[place] as usize - 1],
        column_prices[lists.columns[place] as usize - 1],
    )
}

// Whether the pair at a place isn't right. The pairs of its row are held, and none of the rows after.
fn is_wrong(
    holders: &[usize],
    lists: CountLists<'_>,
    plan: &Marks<'_>,
    row_prices: &[i64],
    column_prices: &[i64],
    end: usize,
    place: usize,
) -> bool
    requires lists { AreCountLists lists }
    requires plan { length plan.now ≡ length lists.rows.now }
    requires rows { length row_prices.now ≡ length lists.row_least.now }
    requires columns { length column_prices.now ≡ length lists.column_least.now }
    requires place { place < length lists.rows.now }
    requires single { (k : ℕ) → k < length lists.rows.now → ¬ IsDouble lists plan.now k }
    requires holding { IsHolding lists plan.now end holders.now }
    requires before { (q : ℕ) → q < end
        → slice_index lists.rows.now q ≤ slice_index lists.rows.now place }
    requires after { (q : ℕ) → end ≤ q → q < length lists.rows.now
        → slice_index lists.rows.now place < slice_index lists.rows.now q }
    ensures yes { result ≡ true
        → ¬ IsPairRight lists.entry plan.now row_prices.now column_prices.now place }
    ensures no { result ≡ false
        → IsPairRight lists.entry plan.now row_prices.now column_prices.now place }
{
    let own = rest_at(lists, row_prices, column_prices, place);
    if plan.has(place) && own > 0 {
        return true;
    }
    match rival(holders, lists, plan, end, place) {
        Some(held) => rest_at(lists, row_prices, column_prices, held) > own,
        None => own < 0,
    }
}

// Whether the pair at a place is right whatever its row takes: it leaves at most 0 if it is chosen,
// otherwise at least 0.
#[inline(always)]
fn is_plain(
    lists: CountLists<'_>,
    plan: &Marks<'_>,
    row_prices: &[i64],
    column_prices: &[i64],
    place: usize,
) -> bool
    requires lists { AreCountLists lists }
    requires plan { length plan.now ≡ length lists.rows.now }
    requires rows { length row_prices.now ≡ length lists.row_least.now }
    requires columns { length column_prices.now ≡ length lists.column_least.now }
    requires place { place < length lists.rows.now }
    ensures { result ≡ true
        → IsPairPlain lists.entry plan.now row_prices.now column_prices.now place }
{
    let left = rest_at(lists, row_prices, column_prices, place);
    if plan.has(place) {
        left <= 0
    } else {
        left >= 0
    }
}

// Whether all pairs are so.
pub fn are_plain(
    lists: CountLists<'_>,
    plan: &Marks<'_>,
    row_prices: &[i64],
    column_prices: &[i64],
) -> bool
    requires lists { AreCountLists lists }
    requires plan { length plan.now ≡ length lists.rows.now }
    requires rows { length row_prices.now ≡ length lists.row_least.now }
    requires columns { length column_prices.now ≡ length lists.column_least.now }
    requires single { (k : ℕ) → k < length lists.rows.now → ¬ IsDouble lists plan.now k }
    ensures { let l = lists.entry in result ≡ true → (k : ℕ) → k < length l.rows.now
        → IsPairRight l plan.now row_prices.now column_prices.now k }
{
    for place in 0..lists.rows.len() {
        if !is_plain(lists, plan, row_prices, column_prices, place) {
            return false;
        }
    }
    true
}

// The first place whose pair isn't right.
pub fn first_wrong(
    holders: &mut [usize],
    lists: CountLists<'_>,
    plan: &Marks<'_>,
    row_prices: &[i64],
    column_prices: &[i64],
) -> Option<usize>
    requires lists { AreCountLists lists }
    requires plan { length plan.now ≡ length lists.rows.now }
    requires rows { length row_prices.now ≡ length lists.row_least.now }
    requires columns { length column_prices.now ≡ length lists.column_least.now }
    requires single { (k : ℕ) → k < length lists.rows.now → ¬ IsDouble lists plan.now k }
    requires holding { IsHolding lists plan.now 0 holders.old }
    ensures { let l = lists.entry in MatchOption result
        ((k : ℕ) → k < length l.rows.now
        → IsPairRight l plan.now row_prices.now column_prices.now k)
        (λ k. IsFirstPlace (λ q. ¬ IsPairRight l plan.now row_prices.now column_prices.now q)
        (length l.rows.now) k) }
{
    let mut end = 0;
    for place in 0..lists.rows.len() {
        end = hold_row(holders, lists, plan, end, lists.rows[place]);
        if is_wrong(holders, lists, plan, row_prices, column_prices, end, place) {
            return Some(place);
        }
    }
    None
}
