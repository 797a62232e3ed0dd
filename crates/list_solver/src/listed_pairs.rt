// The search over listed pairs.
ghost use Rattle.std.specs.Prelude.{◌≡◌, length};

use super::found::Ended;
use super::grouped::Grouped;
use super::places::{to_numbers, to_places};
use super::record::Record;
use super::state::SearchState;
use super::whole::all_of_pairs;
use assign_core::Sense;
use cost_lists::{Object, Pairs, Person, Price};
use hungarian::HallSet;
use sparse_search::{Outcome, Record as SparseRecord, SparseProblem, search};
use std::alloc::{AllocError, Global};

// Whether far more objects are overpriced than there are persons. At exact prices no unowned object is, and
// to bring so many down takes longer than a search without prices.
fn are_far_off(prices: &[Price], persons: usize) -> bool {
    let least = prices.iter().copied().min().unwrap_or(0);
    let overpriced = prices.iter().filter(|price| **price > least).count();
    overpriced > persons.saturating_add(persons / 256).saturating_add(8)
}

// Prices in the unit of the costs as prices of the search.
fn divide(prices: &mut [Price], factor: i64) {
    for price in prices.iter_mut() {
        *price = price.checked_div(factor).unwrap_or(0);
    }
}

// Prices of the search as prices in the unit of the costs.
fn multiply(prices: &mut [Price], factor: i64) {
    for price in prices.iter_mut() {
        *price = price.wrapping_mul(factor);
    }
}

fn numbered(set: sparse_search::HallSet) -> HallSet {
    let sparse_search::HallSet { persons, objects } = set;
    let (mut persons, mut objects) = (persons, objects);
    to_numbers(persons.as_mut_slice());
    to_numbers(objects.as_mut_slice());
    HallSet { persons, objects }
}

fn ended_as(outcome: Outcome) -> Ended {
    match outcome {
        Outcome::Best => Ended::Best,
        Outcome::Hall(set) => Ended::Hall(numbered(set)),
        Outcome::Stopped => Ended::Stopped,
        Outcome::Lost => Ended::Lost,
    }
}

// The search over places, in its own unit.
fn search_places(
    alloc: Global,
    problem: SparseProblem<'_>,
    prices: &mut Vec<Price>,
    objects: &mut Vec<Object>,
    record: &mut SparseRecord,
    budget: u64,
) -> Result<Outcome, AllocError>
    ensures prices { length prices.new.items ≡ length prices.old.items }
    ensures objects { length objects.new.items ≡ length objects.old.items }
{
    to_places(objects.as_mut_slice());
    let (slice, places) = (prices.as_mut_slice(), objects.as_mut_slice());
    let outcome = search(alloc, problem, slice, places, record, budget);
    to_numbers(objects.as_mut_slice());
    outcome
}

// One search over rows of pairs.
fn search_grouped(
    alloc: Global,
    grouped: &Grouped,
    state: &mut SearchState,
    budget: u64,
) -> Result<Ended, AllocError>
    ensures prices { length state.new.prices.items ≡ length state.old.prices.items }
    ensures objects { length state.new.objects.items ≡ length state.old.objects.items }
{
    let persons = state.objects.len();
    let has_nothing = state.has_nothing() || are_far_off(state.prices.as_slice(), persons);
    let mut record = state.record.to_sparse(has_nothing);
    if state.record.begins_sparse() && grouped.factor != 1 {
        divide(state.prices.as_mut_slice(), grouped.factor);
    }
    let outcome = search_places(
        alloc,
        grouped.problem(),
        &mut state.prices,
        &mut state.objects,
        &mut record,
        budget,
    );
    state.record = Record::of_sparse(&record);
    let ended = ended_as(outcome?);
    if matches!(&ended, Ended::Best) && grouped.factor != 1 {
        multiply(state.prices.as_mut_slice(), grouped.factor);
    }
    Ok(ended)
}

// Searches over listed pairs of `n` persons and `m` objects.
pub fn search_pairs(
    alloc: Global,
    sense: Sense,
    n: Person,
    m: Object,
    pairs: Pairs<'_>,
    state: &mut SearchState,
    budget: u64,
) -> Result<Ended, AllocError>
    ensures prices { length state.new.prices.items ≡ length state.old.prices.items }
    ensures objects { length state.new.objects.items ≡ length state.old.objects.items }
{
    if n > m {
        return Ok(Ended::Hall(all_of_pairs(alloc, n, m, pairs)?));
    }
    let grouped = Grouped::of(alloc, sense, n, m, pairs)?;
    search_grouped(alloc, &grouped, state, budget)
}
