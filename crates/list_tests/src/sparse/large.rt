// Large problems: 100,000 persons.
use super::judged::{is_hall_set, judge, nobody, search_cold};
use sparse_search::{Outcome, Pair, SparseProblem};
use std::alloc::{AllocError, Global};
use std::test::Fail;
use test_helpers::draw_wide;

const PERSONS: u32 = 100_000;

const PAIRS: usize = 10;

fn draw_pair(seed: &mut u64, object: u64) -> Pair {
    Pair {
        object: (object & 0xffff_ffff) as u32,
        cost: (draw_wide(seed, 1_000_000) & 0xff_ffff) as i64,
    }
}

// A row: the person's own object, if it is before an end, and drawn ones before it.
fn draw_row(
    seed: &mut u64,
    person: u32,
    end: u64,
    pairs: &mut Vec<Pair>,
) -> Result<(), AllocError> {
    let own = u64::from(person).checked_rem(end).unwrap_or(0);
    let pair = draw_pair(seed, own);
    pairs.push(pair)?;
    for _pair in 1..PAIRS {
        let object = draw_wide(seed, end);
        let pair = draw_pair(seed, object);
        pairs.push(pair)?;
    }
    Ok(())
}

fn draw_pairs(alloc: Global, seed: &mut u64, end: u64) -> Result<Vec<Pair>, AllocError> {
    let mut pairs = Vec::new(alloc);
    for person in 0..PERSONS {
        draw_row(seed, person, end, &mut pairs)?;
    }
    Ok(pairs)
}

fn starts(alloc: Global) -> Result<Vec<usize>, AllocError> {
    let mut starts = Vec::new(alloc);
    for person in 0..PERSONS + 1 {
        starts.push((person as usize).wrapping_mul(PAIRS))?;
    }
    Ok(starts)
}

#[test]
fn a_hundred_thousand_persons(rt: HostRuntime) -> Result<(), Fail> {
    let starts = starts(rt.alloc())?;
    let pairs = draw_pairs(rt.alloc(), &mut 5u64, u64::from(PERSONS))?;
    let problem = SparseProblem {
        starts: starts.as_slice(),
        pairs: pairs.as_slice(),
        objects: PERSONS as usize,
    };
    let mut prices = vec![in rt.alloc(); 0i64; problem.objects]?;
    let mut objects = nobody(rt.alloc(), problem.persons())?;
    let (prices, objects) = (prices.as_mut_slice(), objects.as_mut_slice());
    let outcome = search_cold(rt.alloc(), problem, prices, objects)?;
    assert!(rt; matches!(outcome, Outcome::Best));
    assert!(rt; judge(rt.alloc(), problem, prices, objects)?.is_some());
    Ok(())
}

// The same persons for one object less.
#[test]
fn one_object_too_few(rt: HostRuntime) -> Result<(), Fail> {
    let starts = starts(rt.alloc())?;
    let pairs = draw_pairs(rt.alloc(), &mut 6u64, u64::from(PERSONS).wrapping_sub(1))?;
    let problem = SparseProblem {
        starts: starts.as_slice(),
        pairs: pairs.as_slice(),
        objects: PERSONS as usize,
    };
    let mut prices = vec![in rt.alloc(); 0i64; problem.objects]?;
    let mut objects = nobody(rt.alloc(), problem.persons())?;
    let (prices, objects) = (prices.as_mut_slice(), objects.as_mut_slice());
    match search_cold(rt.alloc(), problem, prices, objects)? {
        Outcome::Hall(set) => assert!(rt; is_hall_set(problem, &set)),
        Outcome::Best | Outcome::Stopped | Outcome::Lost => assert!(rt; false),
    }
    Ok(())
}
