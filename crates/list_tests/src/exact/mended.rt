// Plans of solved dense problems, mended after changes: their totals are those of a fresh search.
use super::called::{Finding, call, nothing};
use super::drawn::draw;
use super::given::{costs_of, is_count, pairs_of};
use super::larger::dense_problem;
use super::problem::Problem;
use assign_core::GREATEST_COST;
use list_solver::SearchState;
use plan_repair::mend_dense;
use std::alloc::{AllocError, Global};
use std::process::Abort;
use std::test::Fail;

#[derive(Clone, Copy, Debug)]
enum Change {
    Row,
    Column,
    Cost,
}

// Numbers of persons and objects.
const SHAPES: [(u32, u32); 5] = [(1, 6), (5, 5), (12, 30), (29, 33), (30, 30)];

// Takes the changed costs of a row and a column from another problem of this size.
fn redraw(problem: &mut Problem, other: &Problem, change: Change, row: usize, column: usize) {
    let m = (problem.m as usize).max(1);
    for (place, (cost, new)) in problem.costs.iter_mut().zip(&other.costs).enumerate() {
        let is_changed = match change {
            Change::Row => place / m == row,
            Change::Column => place % m == column,
            Change::Cost => place / m == row && place % m == column,
        };
        if is_changed {
            *cost = *new;
        }
    }
}

// A best plan with its prices, and its cost.
fn solved(alloc: Global, problem: &Problem) -> Result<(SearchState, i64), Fail> {
    let lists = costs_of(problem)?;
    let mut state = nothing(alloc, problem.n, problem.m)?;
    match call(alloc, &lists, &mut state, 0)? {
        Finding::Best(total) => Ok((state, total)),
        _ => Err("a dense problem isn't solved".into()),
    }
}

// The cost of the mended plan, if it is mended.
fn mended(alloc: Global, problem: &Problem, plan: &SearchState) -> Result<Option<i64>, AllocError> {
    let (n, m, costs) = (problem.n, problem.m, problem.costs.as_slice());
    if !is_count(n) || !is_count(m) || costs.len() != pairs_of(n, m) {
        return Ok(None);
    }
    let (objects, prices) = (plan.objects.as_slice(), plan.prices.as_slice());
    let mended = mend_dense(alloc, problem.sense, n, m, costs, objects, prices)?;
    Ok(mended.map(|plan| plan.total))
}

// How many of 90 problems are mended after a change.
fn count_mended(rt: &(impl Abort + AllocGlobal), change: Change) -> Result<u32, Fail> {
    let (alloc, mut seed, mut count) = (rt.alloc(), 91, 0u32);
    for turn in 0..90u32 {
        let (n, m) = SHAPES[(turn % 5) as usize];
        let mut problem = dense_problem(alloc, &mut seed, turn / 5, n, m)?;
        let (plan, _) = solved(alloc, &problem)?;
        let other = dense_problem(alloc, &mut seed, turn / 5, n, m)?;
        let (row, column) = (draw(&mut seed, n) as usize, draw(&mut seed, m) as usize);
        redraw(&mut problem, &other, change, row, column);
        let (_, total) = solved(alloc, &problem)?;
        if let Some(found) = mended(alloc, &problem, &plan)? {
            assert_eq!(rt; found, total, "{turn} {change:?}");
            count = count.wrapping_add(1);
        }
    }
    Ok(count)
}

#[test]
fn most_changed_plans_are_mended(rt: HostRuntime) -> Result<(), Fail> {
    for change in [Change::Row, Change::Column, Change::Cost] {
        let count = count_mended(&rt, change)?;
        assert!(rt; count >= 72, "{change:?}: {count}");
    }
    Ok(())
}

// Nine persons without an object, or nine changed rows, are too many.
#[test]
fn few_persons_get_objects(rt: HostRuntime) -> Result<(), Fail> {
    let mut problem = dense_problem(rt.alloc(), &mut 92, 0, 30, 32)?;
    let (mut plan, total) = solved(rt.alloc(), &problem)?;
    for person in 0..9usize {
        assert_eq!(rt; mended(rt.alloc(), &problem, &plan)?, Some(total));
        if let Some(object) = plan.objects.get_mut(person) {
            *object = 0;
        }
    }
    assert_eq!(rt; mended(rt.alloc(), &problem, &plan)?, None);
    let (plan, _) = solved(rt.alloc(), &problem)?;
    let other = dense_problem(rt.alloc(), &mut 93, 0, 30, 32)?;
    for row in 0..9 {
        redraw(&mut problem, &other, Change::Row, row, 0);
    }
    assert_eq!(rt; mended(rt.alloc(), &problem, &plan)?, None);
    Ok(())
}

#[test]
fn costs_out_of_range_are_refused(rt: HostRuntime) -> Result<(), Fail> {
    for beyond in [GREATEST_COST + 1, -GREATEST_COST - 1, i64::MAX, i64::MIN] {
        let mut problem = dense_problem(rt.alloc(), &mut 94, 0, 9, 10)?;
        let (plan, _) = solved(rt.alloc(), &problem)?;
        if let Some(cost) = problem.costs.get_mut(57) {
            *cost = beyond;
        }
        assert_eq!(rt; mended(rt.alloc(), &problem, &plan)?, None, "{beyond}");
    }
    Ok(())
}
