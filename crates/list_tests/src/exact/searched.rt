// Drawn problems of every shape, solved from every start and in pieces, and compared with the slow search.
use super::called::{Finding, in_pieces, nothing};
use super::drawn::{draw, drawn_cost, drawn_numbers, drawn_problem};
use super::given::caller_lists;
use super::problem::{Problem, table_of};
use super::slow::best_of;
use list_solver::{Record, SearchState};
use std::alloc::{AllocError, Global};
use std::process::Abort;
use std::test::Fail;

// How a search begins.
#[derive(Clone, Copy)]
enum Start {
    Nothing,
    // From drawn prices, drawn objects or both.
    Drawn,
    // From these and a drawn record.
    Record,
}

// A record that no search wrote, mostly.
fn drawn_record(seed: &mut u64) -> Record {
    Record {
        stage: draw(seed, 19),
        shift: draw(seed, 70),
        slackness: drawn_cost(seed, 3),
        bids: u64::from(draw(seed, 100)),
        passes: u64::from(draw(seed, 4)),
        dummy_bids: draw(seed, 6),
        flags: draw(seed, 4),
        arc_scans: u64::from(draw(seed, 1000)),
    }
}

fn drawn_prices(alloc: Global, seed: &mut u64, m: u32) -> Result<Vec<i64>, AllocError> {
    let kind = draw(seed, 6);
    let mut prices = Vec::new(alloc);
    for _ in 0..m {
        prices.push(drawn_cost(seed, kind))?;
    }
    Ok(prices)
}

fn drawn_state(
    alloc: Global,
    seed: &mut u64,
    problem: &Problem,
    start: Start,
) -> Result<SearchState, AllocError> {
    let (n, m) = (problem.n, problem.m);
    let mut state = nothing(alloc, n, m)?;
    if let Start::Nothing = start {
        return Ok(state);
    }
    let which = draw(seed, 3);
    if which != 1 {
        state.prices = drawn_prices(alloc, seed, m)?;
    }
    if which != 2 {
        state.objects = drawn_numbers(alloc, seed, n, m.wrapping_add(2))?;
    }
    if let Start::Record = start {
        state.record = drawn_record(seed);
    }
    Ok(state)
}

// What the slow search finds.
fn slow_finding(alloc: Global, problem: &Problem) -> Result<Finding, AllocError> {
    let table = table_of(alloc, problem)?;
    Ok(match best_of(alloc, problem, table.as_slice())? {
        Some((_objects, cost)) => Finding::Best(cost),
        None => Finding::Hall,
    })
}

// One problem, solved in calls of a budget each.
fn solve_drawn(
    rt: &(impl Abort + AllocGlobal),
    seed: &mut u64,
    start: Start,
    budget: u64,
) -> Result<(), Fail> {
    let alloc = rt.alloc();
    let problem = drawn_problem(alloc, seed)?;
    let Some(lists) = caller_lists(&problem) else {
        return Err("a drawn problem is out of the limits".into());
    };
    let state = drawn_state(alloc, seed, &problem, start)?;
    let found = in_pieces(alloc, &lists, state, budget, 2000)?;
    assert_eq!(rt; found, slow_finding(alloc, &problem)?);
    Ok(())
}

#[test]
fn cold_searches_find_what_the_slow_one_does(rt: HostRuntime) -> Result<(), Fail> {
    let mut seed = 61;
    for _ in 0..20_000 {
        solve_drawn(&rt, &mut seed, Start::Nothing, 0)?;
    }
    Ok(())
}

#[test]
fn searches_from_any_start_find_what_the_slow_one_does(rt: HostRuntime) -> Result<(), Fail> {
    let mut seed = 62;
    for _ in 0..10_000 {
        solve_drawn(&rt, &mut seed, Start::Drawn, 0)?;
    }
    Ok(())
}

#[test]
fn searches_from_any_record_find_what_the_slow_one_does(rt: HostRuntime) -> Result<(), Fail> {
    let mut seed = 63;
    for _ in 0..10_000 {
        solve_drawn(&rt, &mut seed, Start::Record, 0)?;
    }
    Ok(())
}

#[test]
fn searches_in_pieces_find_what_the_slow_one_does(rt: HostRuntime) -> Result<(), Fail> {
    let mut seed = 64;
    for _ in 0..5_000 {
        let budget = u64::from(draw(&mut seed, 40)).wrapping_add(1);
        let start = match draw(&mut seed, 3) {
            0 => Start::Nothing,
            1 => Start::Drawn,
            _ => Start::Record,
        };
        solve_drawn(&rt, &mut seed, start, budget)?;
    }
    Ok(())
}
