// The search over all costs of persons and objects.
ghost use Rattle.std.specs.Prelude.{◌≡◌, length};

use super::found::Ended;
use super::places::{to_numbers, to_places};
use super::record::Record;
use super::state::SearchState;
use super::whole::all_of_rows;
use assign_core::{Cost, Sense};
use cost_lists::{Object, Person, Price};
use dense_search::{DenseProblem, Outcome, Record as DenseRecord, search};
use std::alloc::{AllocError, Global};

fn ended_as(outcome: Outcome) -> Ended {
    match outcome {
        Outcome::Best => Ended::Best,
        Outcome::Stopped => Ended::Stopped,
        Outcome::Lost => Ended::Lost,
    }
}

// The search over places.
fn search_places(
    alloc: Global,
    problem: DenseProblem<'_>,
    prices: &mut Vec<Price>,
    objects: &mut Vec<Object>,
    record: &mut DenseRecord,
    budget: u64,
) -> Result<Outcome, AllocError>
    ensures prices { length prices.new.items ≡ length prices.old.items }
    ensures objects { length objects.new.items ≡ length objects.old.items }
{
    to_places(objects.as_mut_slice());
    let (slice, places) = (prices.as_mut_slice(), objects.as_mut_slice());
    let outcome = search(alloc, problem, slice, places, record, budget);
    to_numbers(objects.as_mut_slice());
    outcome
}

// Searches over the costs of `n` persons and `m` objects, which are read where they are.
pub fn search_rows(
    alloc: Global,
    sense: Sense,
    n: Person,
    m: Object,
    costs: &[Cost],
    state: &mut SearchState,
    budget: u64,
) -> Result<Ended, AllocError>
    ensures prices { length state.new.prices.items ≡ length state.old.prices.items }
    ensures objects { length state.new.objects.items ≡ length state.old.objects.items }
{
    if n > m {
        return Ok(Ended::Hall(all_of_rows(alloc, n, m)?));
    }
    let problem = DenseProblem {
        sense,
        persons: n as usize,
        objects: m as usize,
        costs,
    };
    let mut record = state.record.to_dense(state.has_nothing());
    let outcome = search_places(
        alloc,
        problem,
        &mut state.prices,
        &mut state.objects,
        &mut record,
        budget,
    );
    state.record = Record::of_dense(&record);
    Ok(ended_as(outcome?))
}
