// Larger drawn problems: exact prices and Hall sets are proofs, so no slow search is asked.
use super::called::{Finding, in_pieces, nothing};
use super::drawn::{draw, drawn_cost};
use super::given::caller_lists;
use super::problem::Problem;
use assign_core::{Cost, Sense};
use list_solver::Record;
use std::alloc::{AllocError, Global};
use std::process::Abort;
use std::test::Fail;

// Costs that are drawn, nearly sums of a person's and an object's part, products, or a multiple.
fn cost_at(seed: &mut u64, kind: u32, i: u32, j: u32) -> Cost {
    let (row, column) = (Cost::from(i), Cost::from(j));
    match kind {
        0..=5 => drawn_cost(seed, kind),
        6 => row
            .wrapping_mul(1000)
            .wrapping_add(column.wrapping_mul(7))
            .wrapping_add(Cost::from(draw(seed, 4))),
        7 => row.wrapping_mul(column),
        _ => Cost::from(draw(seed, 100)).wrapping_mul(1_000_000_000),
    }
}

fn empty_problem(alloc: Global, sense: Sense, n: u32, m: u32, is_dense: bool) -> Problem {
    Problem {
        sense,
        n,
        m,
        is_dense,
        persons: Vec::new(alloc),
        objects: Vec::new(alloc),
        costs: Vec::new(alloc),
    }
}

fn sense_of(turn: u32) -> Sense {
    if turn % 2 == 0 {
        Sense::Min
    } else {
        Sense::Max
    }
}

pub fn dense_problem(
    alloc: Global,
    seed: &mut u64,
    turn: u32,
    n: u32,
    m: u32,
) -> Result<Problem, AllocError> {
    let mut problem = empty_problem(alloc, sense_of(turn), n, m, true);
    for place in 0..n.wrapping_mul(m) {
        let (i, j) = (place / m.max(1), place % m.max(1));
        problem.costs.push(cost_at(seed, turn % 9, i, j))?;
    }
    Ok(problem)
}

fn push_pair(problem: &mut Problem, i: u32, j: u32, cost: Cost) -> Result<(), AllocError> {
    problem.persons.push(i)?;
    problem.objects.push(j)?;
    Ok(problem.costs.push(cost)?)
}

// Each person lists the object of its number, and `count` drawn ones.
pub fn sparse_problem(
    alloc: Global,
    seed: &mut u64,
    turn: u32,
    n: u32,
    m: u32,
    count: u32,
) -> Result<Problem, AllocError> {
    let mut problem = empty_problem(alloc, sense_of(turn), n, m, false);
    for i in 1..=n {
        let cost = cost_at(seed, turn % 9, i, i);
        push_pair(&mut problem, i, i.min(m), cost)?;
    }
    for _ in 0..n.wrapping_mul(count) {
        let i = draw(seed, n).wrapping_add(1);
        let j = draw(seed, m).wrapping_add(1);
        let cost = cost_at(seed, turn % 9, i, j);
        push_pair(&mut problem, i, j, cost)?;
    }
    Ok(problem)
}

// Solves a problem at once and in pieces, which find the same.
fn solve_twice(
    rt: &(impl Abort + AllocGlobal),
    problem: &Problem,
    budget: u64,
) -> Result<Finding, Fail> {
    let alloc = rt.alloc();
    let Some(lists) = caller_lists(problem) else {
        return Err("a drawn problem is out of the limits".into());
    };
    let state = nothing(alloc, problem.n, problem.m)?;
    let found = in_pieces(alloc, &lists, state, 0, 1)?;
    let state = nothing(alloc, problem.n, problem.m)?;
    let again = in_pieces(alloc, &lists, state, budget, 1000)?;
    assert_eq!(rt; found, again);
    Ok(found)
}

#[test]
fn larger_dense_problems_are_solved(rt: HostRuntime) -> Result<(), Fail> {
    let mut seed = 65;
    for turn in 0..54 {
        let m = draw(&mut seed, 120).wrapping_add(1);
        let n = if turn % 3 == 0 {
            m
        } else {
            draw(&mut seed, m).wrapping_add(1)
        };
        let problem = dense_problem(rt.alloc(), &mut seed, turn, n, m)?;
        let found = solve_twice(&rt, &problem, 20_000)?;
        assert!(rt; matches!(found, Finding::Best(_)), "problem {turn}");
    }
    Ok(())
}

fn drawn_factors(alloc: Global, seed: &mut u64, n: u32) -> Result<Vec<Cost>, AllocError> {
    let mut factors = Vec::new(alloc);
    for _ in 0..n {
        factors.push(Cost::from(draw(seed, 1_000_000)))?;
    }
    Ok(factors)
}

// Products of a person's number and an object's, cut to multiples of `unit`.
fn products(alloc: Global, seed: &mut u64, turn: u32, n: u32) -> Result<Problem, AllocError> {
    let mut problem = empty_problem(alloc, sense_of(turn), n, n, true);
    let (rows, columns) = (
        drawn_factors(alloc, seed, n)?,
        drawn_factors(alloc, seed, n)?,
    );
    let unit = Cost::from(turn % 3).wrapping_mul(1_000_000);
    for row in rows.as_slice() {
        for column in columns.as_slice() {
            let product = row.wrapping_mul(*column);
            let above = product.checked_rem(unit).unwrap_or(0);
            problem.costs.push(product.wrapping_sub(above))?;
        }
    }
    Ok(problem)
}

// Persons and objects of these can be sorted, as the search tries.
#[test]
fn products_of_drawn_numbers_are_solved(rt: HostRuntime) -> Result<(), Fail> {
    let mut seed = 70;
    for turn in 0..9 {
        let n = draw(&mut seed, 60).wrapping_add(130);
        let problem = products(rt.alloc(), &mut seed, turn, n)?;
        let found = solve_twice(&rt, &problem, 100_000)?;
        assert!(rt; matches!(found, Finding::Best(_)), "problem {turn}");
    }
    Ok(())
}

#[test]
fn larger_sparse_problems_are_solved(rt: HostRuntime) -> Result<(), Fail> {
    let mut seed = 66;
    for turn in 0..54 {
        let m = draw(&mut seed, 600).wrapping_add(1);
        let n = if turn % 3 == 0 {
            m
        } else {
            draw(&mut seed, m).wrapping_add(1)
        };
        let problem = sparse_problem(rt.alloc(), &mut seed, turn, n, m, turn % 7)?;
        let found = solve_twice(&rt, &problem, 5_000)?;
        assert!(rt; matches!(found, Finding::Best(_)), "problem {turn}");
    }
    Ok(())
}

// Person 1 gives up its own object, and two persons list one object alone.
#[test]
fn larger_problems_without_an_assignment_are_refused(rt: HostRuntime) -> Result<(), Fail> {
    let mut seed = 67;
    for turn in 0..18 {
        let n = draw(&mut seed, 300).wrapping_add(3);
        let problem = sparse_problem(rt.alloc(), &mut seed, turn, n, n, 0)?;
        let mut problem = problem;
        if let Some(object) = problem.objects.get_mut(0) {
            *object = n;
        }
        let found = solve_twice(&rt, &problem, 1_000)?;
        assert_eq!(rt; found, Finding::Hall, "problem {turn}");
    }
    Ok(())
}

// More persons than objects: in both forms nobody is solved for.
#[test]
fn more_persons_than_objects_have_no_assignment(rt: HostRuntime) -> Result<(), Fail> {
    let mut seed = 68;
    let rows = dense_problem(rt.alloc(), &mut seed, 0, 40, 39)?;
    assert_eq!(rt; solve_twice(&rt, &rows, 1)?, Finding::Hall);
    let pairs = sparse_problem(rt.alloc(), &mut seed, 1, 40, 39, 2)?;
    assert_eq!(rt; solve_twice(&rt, &pairs, 1)?, Finding::Hall);
    Ok(())
}

// A search that was stopped goes on, and a record of the other form's stages begins again.
#[test]
fn a_stage_of_the_other_form_begins_anew(rt: HostRuntime) -> Result<(), Fail> {
    let mut seed = 69;
    let rows = dense_problem(rt.alloc(), &mut seed, 0, 30, 30)?;
    let Some(lists) = caller_lists(&rows) else {
        return Err("the costs are out of the limits".into());
    };
    for stage in 8..11 {
        let mut state = nothing(rt.alloc(), 30, 30)?;
        state.record = Record {
            stage,
            ..Record::cold()
        };
        let found = in_pieces(rt.alloc(), &lists, state, 0, 1)?;
        assert!(rt; matches!(found, Finding::Best(_)), "stage {stage}");
    }
    Ok(())
}

// As many objects as persons, one more, one less, and two and three times as many.
fn objects_of_shape(n: u32, shape: u32) -> u32 {
    match shape {
        0 => n,
        1 => n.wrapping_add(1),
        2 => n.wrapping_sub(1).max(1),
        3 => n.wrapping_mul(2),
        _ => n.wrapping_mul(3),
    }
}

// A call without a budget finds what is confirmed.
#[test]
fn each_size_up_to_40_is_decided(rt: HostRuntime) -> Result<(), Fail> {
    let mut seed = 70;
    for turn in 0..400 {
        let n = (turn / 10 + 1).min(40);
        let m = objects_of_shape(n, turn % 5);
        let problem = if turn % 10 < 5 {
            dense_problem(rt.alloc(), &mut seed, turn / 5, n, m)?
        } else {
            sparse_problem(rt.alloc(), &mut seed, turn / 5, n, m, turn % 4)?
        };
        let found = solve_twice(&rt, &problem, 500)?;
        assert!(rt;
            matches!(found, Finding::Best(_) | Finding::Hall),
            "problem {turn}"
        );
    }
    Ok(())
}
