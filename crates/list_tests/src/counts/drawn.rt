// Drawn problems of every shape, next to a plain search of all plans: fresh, in pieces, and from a plan.
use super::held::{Held, Lists};
use super::plain::{are_numbers, cost_of, least_cost};
use count_search::{Found, Record};
use std::alloc::{AllocError, Global};
use std::test::Fail;
use test_helpers::draw_wide;

// What was found: a plan of this cost with numbers that prove it, or a shortage.
#[derive(Clone, Copy, Debug, PartialEq, Eq)]
enum Finding {
    Best(i64),
    Lack,
    Wrong,
}

fn short(seed: &mut u64, end: u64) -> u32 {
    (draw_wide(seed, end) & 0xffff) as u32
}

fn draw_cost(seed: &mut u64) -> i64 {
    i64::from(short(seed, 9)).wrapping_sub(4)
}

fn draw_row(seed: &mut u64, columns: u32, lists: &mut Lists) -> Result<(), AllocError> {
    for column in 0..columns {
        if draw_wide(seed, 4) > 0 {
            lists.columns.push(column)?;
            lists.costs.push(draw_cost(seed))?;
        }
    }
    Ok(lists.starts.push(lists.columns.len())?)
}

fn draw_bounds(
    seed: &mut u64,
    least: &mut Vec<u32>,
    most: &mut Vec<u32>,
) -> Result<(), AllocError> {
    let low = short(seed, 2);
    least.push(low)?;
    Ok(most.push(low.wrapping_add(short(seed, 3)))?)
}

fn empty(alloc: Global) -> Lists {
    Lists {
        starts: Vec::new(alloc),
        columns: Vec::new(alloc),
        costs: Vec::new(alloc),
        row_least: Vec::new(alloc),
        row_most: Vec::new(alloc),
        column_least: Vec::new(alloc),
        column_most: Vec::new(alloc),
        groups: Vec::new(alloc),
    }
}

fn draw_rows(seed: &mut u64, rows: u32, columns: u32, lists: &mut Lists) -> Result<(), AllocError> {
    lists.starts.push(0)?;
    for _row in 0..rows {
        draw_row(seed, columns, lists)?;
        draw_bounds(seed, &mut lists.row_least, &mut lists.row_most)?;
    }
    Ok(())
}

// Up to 3 rows and 3 columns, half of the time with groups.
fn draw_lists(alloc: Global, seed: &mut u64) -> Result<Lists, AllocError> {
    let (rows, columns) = (1 + short(seed, 3) % 3, 1 + short(seed, 3) % 3);
    let mut lists = empty(alloc);
    draw_rows(seed, rows, columns, &mut lists)?;
    let has_groups = draw_wide(seed, 2) == 0;
    for _column in 0..columns {
        draw_bounds(seed, &mut lists.column_least, &mut lists.column_most)?;
        if has_groups {
            lists.groups.push(short(seed, u64::from(columns) + 1))?;
        }
    }
    Ok(lists)
}

fn expected(alloc: Global, lists: &Lists) -> Result<Finding, AllocError> {
    let pairs = lists.costs.len();
    let mut plan = vec![in alloc; 0u8; pairs]?;
    let mut plans = 1u64;
    for _pair in 0..pairs {
        plans = plans.wrapping_mul(2);
    }
    let least = least_cost(lists, plan.as_mut_slice(), plans);
    Ok(match least {
        Some(cost) => Finding::Best(cost),
        None => Finding::Lack,
    })
}

// Calls until one ends otherwise than by its budget.
fn find(
    alloc: Global,
    lists: &Lists,
    held: &mut Held,
    budget: u64,
    first: Record,
) -> Result<Finding, AllocError> {
    let mut record = first;
    for _call in 0..2000 {
        match held.call(alloc, &lists.problem(), budget, &mut record)? {
            Found::Plan if are_numbers(lists, held) => {
                let cost = cost_of(lists, held.plan.as_slice());
                return Ok(cost.map_or(Finding::Wrong, Finding::Best));
            }
            Found::RowsLack | Found::ColumnsLack => return Ok(Finding::Lack),
            Found::Stopped => {}
            Found::Plan | Found::Nothing => return Ok(Finding::Wrong),
        }
    }
    Ok(Finding::Wrong)
}

fn held_for(alloc: Global, lists: &Lists) -> Result<Held, AllocError> {
    let (rows, columns) = (lists.row_least.len(), lists.column_least.len());
    Held::new(alloc, lists.costs.len(), rows, columns)
}

// The first problem whose finding differs from the plain search's, with a new cost from a plan too.
fn first_wrong(alloc: Global, problems: u64, budget: u64) -> Result<Option<u64>, AllocError> {
    let mut seed = 7u64;
    for turn in 0..problems {
        let mut lists = draw_lists(alloc, &mut seed)?;
        let mut held = held_for(alloc, &lists)?;
        let fresh = find(alloc, &lists, &mut held, budget, Record::cold())?;
        if fresh != expected(alloc, &lists)? {
            return Ok(Some(turn));
        }
        if let Some(cost) = lists.costs.as_mut_slice().first_mut() {
            *cost = draw_cost(&mut seed);
        }
        let warm = find(alloc, &lists, &mut held, budget, Record::warm())?;
        if warm != expected(alloc, &lists)? {
            return Ok(Some(turn));
        }
    }
    Ok(None)
}

#[test]
fn drawn_problems_in_one_call(rt: HostRuntime) -> Result<(), Fail> {
    assert_eq!(rt; first_wrong(rt.alloc(), 300, 0)?, None);
    Ok(())
}

#[test]
fn drawn_problems_in_pieces(rt: HostRuntime) -> Result<(), Fail> {
    assert_eq!(rt; first_wrong(rt.alloc(), 100, 1)?, None);
    Ok(())
}
