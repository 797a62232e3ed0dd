// Drawn problems compared with the slow searches and checkers.
use super::confirmed::{confirmed, is_hall};
use super::drawn::{change_one, change_price, draw, drawn_numbers, drawn_problem};
use super::given::caller_lists;
use super::problem::{Problem, table_of};
use super::slow::{best_of, prices_of, verdict_of};
use super::slow_hall::{hall_set_of, hall_verdict_of};
use assign_core::Cost;
use cost_lists::CostLists;
use exact_checker::{check, check_hall};
use std::process::Abort;
use std::test::Fail;

// The optimal assignment of the slow search is confirmed with its cost, and no other verdict comes
// of it; lists with one number or price changed get the slow checker's verdict.
fn check_best(
    rt: &(impl Abort + AllocGlobal),
    seed: &mut u64,
    problem: &Problem,
    table: &[Option<Cost>],
    lists: &CostLists<'_>,
    objects: Vec<u32>,
    cost: Cost,
) -> Result<(), Fail> {
    let (mut objects, alloc) = (objects, rt.alloc());
    let mut prices = prices_of(alloc, problem, table, objects.as_slice())?;
    let found = confirmed(alloc, lists, objects.as_slice(), prices.as_slice())?;
    assert_eq!(rt; found, Some(cost));
    change_price(seed, prices.as_mut_slice());
    let verdict = check(alloc, lists, objects.as_slice(), prices.as_slice())?;
    let slow = verdict_of(problem, table, objects.as_slice(), prices.as_slice());
    assert!(rt; verdict == slow);
    change_one(seed, objects.as_mut_slice());
    let verdict = check(alloc, lists, objects.as_slice(), prices.as_slice())?;
    let slow = verdict_of(problem, table, objects.as_slice(), prices.as_slice());
    assert!(rt; verdict == slow);
    Ok(())
}

// A Hall set of the slow search is confirmed, and with one number changed it gets the slow
// checker's verdict.
fn check_none(
    rt: &(impl Abort + AllocGlobal),
    seed: &mut u64,
    problem: &Problem,
    table: &[Option<Cost>],
    lists: &CostLists<'_>,
) -> Result<(), Fail> {
    let alloc = rt.alloc();
    let Some((mut persons, mut objects)) = hall_set_of(alloc, problem, table)? else {
        return Err("neither an assignment nor a Hall set".into());
    };
    let found = is_hall(alloc, lists, persons.as_slice(), objects.as_slice())?;
    assert!(rt; found);
    if draw(seed, 2) == 0 {
        change_one(seed, persons.as_mut_slice());
    } else {
        change_one(seed, objects.as_mut_slice());
    }
    let verdict = check_hall(alloc, lists, persons.as_slice(), objects.as_slice())?;
    let slow = hall_verdict_of(problem, table, persons.as_slice(), objects.as_slice());
    assert!(rt; verdict == slow);
    Ok(())
}

// Any lists get the slow checkers' verdicts.
fn check_any(
    rt: &(impl Abort + AllocGlobal),
    seed: &mut u64,
    problem: &Problem,
    table: &[Option<Cost>],
    lists: &CostLists<'_>,
) -> Result<(), Fail> {
    let alloc = rt.alloc();
    let count = if draw(seed, 20) == 0 {
        problem.m
    } else {
        problem.n
    };
    let objects = drawn_numbers(alloc, seed, count, problem.m.wrapping_add(1))?;
    let prices: Vec<i64> = vec![in alloc; 0; problem.m as usize]?;
    let verdict = check(alloc, lists, objects.as_slice(), prices.as_slice())?;
    let slow = verdict_of(problem, table, objects.as_slice(), prices.as_slice());
    assert!(rt; verdict == slow);
    let (some, others) = (draw(seed, 3), draw(seed, 3));
    let persons = drawn_numbers(alloc, seed, some, problem.n.wrapping_add(2))?;
    let objects = drawn_numbers(alloc, seed, others, problem.m.wrapping_add(2))?;
    let verdict = check_hall(alloc, lists, persons.as_slice(), objects.as_slice())?;
    let slow = hall_verdict_of(problem, table, persons.as_slice(), objects.as_slice());
    assert!(rt; verdict == slow);
    Ok(())
}

fn check_drawn(rt: &(impl Abort + AllocGlobal), seed: &mut u64) -> Result<(), Fail> {
    let alloc = rt.alloc();
    let problem = drawn_problem(alloc, seed)?;
    let table = table_of(alloc, &problem)?;
    let Some(lists) = caller_lists(&problem) else {
        return Err("a drawn problem is out of the limits".into());
    };
    check_any(rt, seed, &problem, table.as_slice(), &lists)?;
    match best_of(alloc, &problem, table.as_slice())? {
        Some((objects, cost)) => {
            check_best(rt, seed, &problem, table.as_slice(), &lists, objects, cost)
        }
        None => check_none(rt, seed, &problem, table.as_slice(), &lists),
    }
}

#[test]
fn drawn_problems_get_the_slow_verdicts(rt: HostRuntime) -> Result<(), Fail> {
    let mut seed = 20261127;
    for _ in 0..20_000 {
        check_drawn(&rt, &mut seed)?;
    }
    Ok(())
}
