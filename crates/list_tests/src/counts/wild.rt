// Lists and records that hold anything: a call returns, and finds nothing where lists don't fit.
use super::held::Held;
use count_search::{Found, Problem, Record};
use std::alloc::{AllocError, Global};
use std::test::Fail;
use test_helpers::next_number;

const SMALL: Problem<'static> = Problem {
    starts: &[0, 2, 4],
    columns: &[0, 1, 0, 1],
    costs: &[1, -4, 2, 6],
    row_least: &[1, 0],
    row_most: &[1, 2],
    column_least: &[0, 1],
    column_most: &[1, 2],
    groups: &[],
};

fn is_nothing(alloc: Global, problem: Problem<'_>) -> Result<bool, AllocError> {
    let mut held = Held::new(alloc, 4, 2, 2)?;
    let found = held.call(alloc, &problem, 0, &mut Record::cold())?;
    Ok(matches!(found, Found::Nothing))
}

#[test]
fn lists_that_do_not_fit(rt: HostRuntime) -> Result<(), Fail> {
    let small = SMALL;
    let far = [1, 1_000_000_000_001, 1, 1];
    assert!(rt; !is_nothing(rt.alloc(), small)?);
    assert!(rt;
        is_nothing(
            rt.alloc(),
            Problem {
                starts: &[0, 3, 2],
                ..small
            }
        )?
    );
    assert!(rt;
        is_nothing(
            rt.alloc(),
            Problem {
                columns: &[0, 1, 0, 2],
                ..small
            }
        )?
    );
    assert!(rt;
        is_nothing(
            rt.alloc(),
            Problem {
                costs: &far,
                ..small
            }
        )?
    );
    assert!(rt;
        is_nothing(
            rt.alloc(),
            Problem {
                row_most: &[1],
                ..small
            }
        )?
    );
    assert!(rt;
        is_nothing(
            rt.alloc(),
            Problem {
                row_least: &[2, 0],
                ..small
            }
        )?
    );
    assert!(rt;
        is_nothing(
            rt.alloc(),
            Problem {
                groups: &[3, 1],
                ..small
            }
        )?
    );
    Ok(())
}

fn wild_record(seed: &mut u64, stage: u64) -> Record {
    Record {
        stage,
        slackness: next_number(seed).wrapping_mul(next_number(seed)),
        outside: next_number(seed).wrapping_mul(next_number(seed)),
        bids: next_number(seed),
        limit: next_number(seed).wrapping_mul(next_number(seed)),
        arc_scans: next_number(seed),
        until: next_number(seed),
        paths: 0,
    }
}

// How many of these calls found a plan.
fn count_plans(alloc: Global, calls: u64) -> Result<u64, AllocError> {
    let mut seed = 3u64;
    let mut plans = 0u64;
    for turn in 0..calls {
        let mut held = Held::new(alloc, 4, 2, 2)?;
        for number in held.column_numbers.as_mut_slice().iter_mut() {
            *number = (next_number(&mut seed) & 0xffff_ffff) as i64;
        }
        let mut record = wild_record(&mut seed, turn % 5);
        let found = held.call(alloc, &SMALL, 0, &mut record)?;
        if matches!(found, Found::Plan) {
            plans = plans.wrapping_add(1);
        }
    }
    Ok(plans)
}

#[test]
fn wild_records_are_harmless(rt: HostRuntime) -> Result<(), Fail> {
    assert_eq!(rt; count_plans(rt.alloc(), 100)?, 100);
    Ok(())
}
