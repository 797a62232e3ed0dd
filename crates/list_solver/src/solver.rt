// The solver: a search, then the checker, and a proved search where the checker accepts nothing.
ghost use Rattle.std.specs.Prelude.{◌≡◌, length, IfOk, MatchOption};
ghost use Rattle.list_solver.specs.Found.{IsFound, MayStop};

use super::dense_lists::search_rows;
use super::found::{Ended, Found};
use super::judging::judge;
use super::listed_pairs::search_pairs;
use super::proved::decide;
use super::record::Record;
use super::state::SearchState;
use cost_lists::{CostLists, Source};
use std::alloc::{AllocError, Global};

fn search_lists(
    alloc: Global,
    lists: &CostLists<'_>,
    state: &mut SearchState,
    budget: u64,
) -> Result<Ended, AllocError>
    ensures prices { length state.new.prices.items ≡ length state.old.prices.items }
    ensures objects { length state.new.objects.items ≡ length state.old.objects.items }
{
    let (sense, n, m) = (lists.sense(), lists.persons(), lists.objects());
    match lists.source() {
        Source::Dense(costs) => search_rows(alloc, sense, n, m, costs, state, budget),
        Source::Listed(pairs) => search_pairs(alloc, sense, n, m, pairs, state, budget),
    }
}

// One search, and what the checker says of it.
fn try_once(
    alloc: Global,
    lists: &CostLists<'_>,
    state: &mut SearchState,
    budget: u64,
) -> Result<Option<Found>, AllocError>
    ensures prices { length state.new.prices.items ≡ length state.old.prices.items }
    ensures objects { length state.new.objects.items ≡ length state.old.objects.items }
    ensures found { IfOk result
        (λ found. MatchOption found (Unit {0}) (IsFound lists.now state.new)) }
    ensures allowed { IfOk result (λ found. MatchOption found (Unit {0}) (MayStop budget)) }
{
    let ended = search_lists(alloc, lists, state, budget)?;
    judge(alloc, lists, state, budget, ended)
}

fn clear_prices(prices: &mut [i64]) {
    for price in prices.iter_mut() {
        *price = 0;
    }
}

fn clear_objects(objects: &mut [u32]) {
    for object in objects.iter_mut() {
        *object = 0;
    }
}

// Lets the search begin with nothing; the arc scans so far stay.
fn begin_anew(state: &mut SearchState)
    ensures prices { length state.new.prices.items ≡ length state.old.prices.items }
    ensures objects { length state.new.objects.items ≡ length state.old.objects.items }
{
    clear_prices(state.prices.as_mut_slice());
    clear_objects(state.objects.as_mut_slice());
    state.record = Record {
        arc_scans: state.record.arc_scans,
        ..Record::cold()
    };
}

// Searches again with nothing and without a limit; where that finds nothing, the proved search decides.
fn try_anew(
    alloc: Global,
    lists: &CostLists<'_>,
    state: &mut SearchState,
    is_first: bool,
) -> Result<Found, AllocError>
    requires prices { length state.old.prices.items ≡ lists.now.m }
    requires objects { length state.old.objects.items ≡ length lists.now.rows }
    ensures prices { length state.new.prices.items ≡ length state.old.prices.items }
    ensures objects { length state.new.objects.items ≡ length state.old.objects.items }
    ensures found { IfOk result (IsFound lists.now state.new) }
    ensures allowed { IfOk result (MayStop 0) }
{
    if !is_first {
        begin_anew(state);
        if let Some(found) = try_once(alloc, lists, state, 0)? {
            return Ok(found);
        }
    }
    decide(alloc, lists, state)
}

/// An optimal assignment with exact prices, or a Hall set: each problem has one of them. A call first
/// passes over all pairs, and then stops after about `budget` arc scans (0: it doesn't).
///
/// A record whose stage is 0 begins: from the prices and the objects of the state, or with nothing
/// if all prices are 0. Objects that aren't from 1 to `m`, or are given twice, count as nobody's.
/// Prices may be left out if far more objects are overpriced than there are persons. Any other stage goes on
/// from the prices, the objects and the record, as a `Stopped` call left them. Whatever they hold, the
/// answer is as good: `Best` and `Hall` are what the checker accepts. Where a search from there finds
/// nothing that it accepts, another one begins with nothing; and where that doesn't either, a proved
/// search decides, which is slow (crate `hungarian`). These two don't stop before their end.
///
/// # Errors
/// `AllocError` if memory is refused.
pub fn solve_lists(
    alloc: Global,
    lists: &CostLists<'_>,
    state: &mut SearchState,
    budget: u64,
) -> Result<Found, AllocError>
    requires prices { length state.old.prices.items ≡ lists.now.m }
    requires objects { length state.old.objects.items ≡ length lists.now.rows }
    ensures prices { length state.new.prices.items ≡ length state.old.prices.items }
    ensures objects { length state.new.objects.items ≡ length state.old.objects.items }
    ensures found { IfOk result (IsFound lists.now state.new) }
    ensures allowed { IfOk result (MayStop budget) }
{
    let is_first = state.record.stage == 0 && state.has_nothing();
    if let Some(found) = try_once(alloc, lists, state, budget)? {
        return Ok(found);
    }
    try_anew(alloc, lists, state, is_first)
}
