// From given lists to an answer in the caller's buffers.
ghost use Rattle.std.specs.Prelude.{◌≡◌, ◌≢◌, pos, length};
ghost use Rattle.list_solver.specs.Found.{IsFound};
ghost use Rattle.c_calls.specs.lists.Ends.{HoldsEnd, IsReported, buffers};
ghost use Rattle.c_calls.specs.lists.Input.{HasLengths};

use super::answer::{search_anew, search_from};
use super::codes::{code_of_found, refuse};
use super::costs::lists_of;
use super::info::Info;
use super::input::Input;
use crate::buffers::put_hall;
use assign_core::hall_set_forbids;
use cost_lists::{CostLists, Object, Person, Price, exact_means_best};
use list_solver::{Found, Record, SearchState};
use std::alloc::Global;

// Writes the objects of all persons and the prices of all objects.
fn put_state(objects: &mut [Object], prices: &mut [Price], state: &SearchState)
    requires objects { length objects.old ≡ length state.now.objects.items }
    requires prices { length prices.old ≡ length state.now.prices.items }
    ensures objects { objects.new ≡ state.now.objects.items }
    ensures prices { prices.new ≡ state.now.prices.items }
{
    objects.copy_from_slice(state.objects.as_slice());
    prices.copy_from_slice(state.prices.as_slice());
}

// Writes what a search found into the buffers.
fn put_answer(
    lists: &CostLists<'_>,
    state: &SearchState,
    found: &Found,
    objects: &mut [Object],
    persons: &mut [Person],
    prices: &mut [Price],
    info: &mut Info,
)
    requires found { IsFound lists.now state.now found.now }
    requires objects { length objects.old ≡ length state.now.objects.items }
    requires prices { length prices.old ≡ length state.now.prices.items }
    requires persons { length persons.old ≡ length lists.now.rows }
    requires long { length state.now.objects.items ≡ length lists.now.rows }
    ensures { HoldsEnd lists.now
        (buffers objects.old persons.old prices.old info.old)
        (buffers objects.new persons.new prices.new info.new) found.now }
{
    // These calls show the prover that an assignment with exact prices is optimal, and that a Hall
    // set leaves no assignment.
    let _persons = lists.persons();
    exact_means_best();
    hall_set_forbids();
    match found {
        Found::Best(total) => {
            put_state(objects, prices, state);
            info.total = *total;
        }
        Found::Hall(set) => {
            put_hall(objects, persons, set);
            info.persons = set.persons.len() as u64;
            info.objects = set.objects.len() as u64;
        }
        Found::Stopped => put_state(objects, prices, state),
    }
}

/// Solves the given problem from nothing but first prices, if there are any. Writes the answer into
/// the buffers, and returns its code. If there is no answer, the lists stay as they were.
pub fn solve_input(
    alloc: Global,
    input: &Input<'_>,
    objects: &mut [Object],
    persons: &mut [Person],
    prices: &mut [Price],
    info: &mut Info,
) -> i32
    requires objects { HasLengths input.now → length objects.old ≡ input.now.n }
    requires persons { HasLengths input.now → length persons.old ≡ input.now.n }
    requires prices { HasLengths input.now → length prices.old ≡ input.now.m }
    ensures { IsReported input.now 0
        (buffers objects.old persons.old prices.old info.old)
        (buffers objects.new persons.new prices.new info.new) result }
{
    let searched = match search_anew(alloc, input) {
        Ok(searched) => searched,
        Err(fault) => return refuse(fault, info),
    };
    let lists = lists_of(searched.shape, input);
    put_answer(
        &lists,
        &searched.state,
        &searched.found,
        objects,
        persons,
        prices,
        info,
    );
    code_of_found(&searched.found)
}

/// Solves the given problem from the objects and the prices in the buffers, first prices and a
/// record, and stops where a budget is spent (0: there is none). Whatever the lists and the record
/// hold, the answer is as good.
pub fn solve_from(
    alloc: Global,
    input: &Input<'_>,
    budget: u64,
    objects: &mut [Object],
    persons: &mut [Person],
    prices: &mut [Price],
    progress: &mut Record,
    info: &mut Info,
) -> i32
    requires objects { HasLengths input.now → length objects.old ≡ input.now.n }
    requires persons { HasLengths input.now → length persons.old ≡ input.now.n }
    requires prices { HasLengths input.now → length prices.old ≡ input.now.m }
    ensures reported { IsReported input.now budget
        (buffers objects.old persons.old prices.old info.old)
        (buffers objects.new persons.new prices.new info.new) result }
    ensures progress { result ≢ pos 21 → progress.new ≡ progress.old }
{
    let searched = match search_from(alloc, input, budget, objects, prices, *progress) {
        Ok(searched) => searched,
        Err(fault) => return refuse(fault, info),
    };
    let lists = lists_of(searched.shape, input);
    put_answer(
        &lists,
        &searched.state,
        &searched.found,
        objects,
        persons,
        prices,
        info,
    );
    if let Found::Stopped = searched.found {
        *progress = searched.state.record;
    }
    code_of_found(&searched.found)
}
