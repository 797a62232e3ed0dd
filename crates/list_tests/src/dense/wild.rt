// Calls that go on from prices near the greatest and from records that no search wrote.
use super::drawn::{call_on, draw_lists, draw_stage};
use super::lists::{Finding, Lists};
use crate::sparse::judged::nobody;
use assign_core::Sense;
use dense_search::{Record, Stage};
use std::alloc::{AllocError, Global};
use std::test::Fail;
use test_helpers::{draw_wide, next_number};

// A number of any size.
fn draw_any(seed: &mut u64) -> u64 {
    let number = next_number(seed).wrapping_shl(33) ^ next_number(seed).wrapping_shl(16);
    number.wrapping_shr((draw_wide(seed, 64) & 63) as u32)
}

// A price near the least or the greatest number, near a cut, near 0, or any.
fn draw_price(seed: &mut u64) -> i64 {
    let near = (draw_wide(seed, 8) & 7) as i64;
    match draw_wide(seed, 8) {
        0 => near,
        1 => i64::MIN.wrapping_add(near),
        2 => (1i64 << 60).wrapping_add(near),
        3 => (-1i64 << 60).wrapping_sub(near),
        4 => draw_any(seed).cast_signed(),
        _ => i64::MAX.wrapping_sub(near),
    }
}

fn draw_prices(alloc: Global, seed: &mut u64, count: usize) -> Result<Vec<i64>, AllocError> {
    let mut prices = Vec::new(alloc);
    for _object in 0..count {
        prices.push(draw_price(seed))?;
    }
    Ok(prices)
}

fn draw_objects(alloc: Global, seed: &mut u64, count: usize) -> Result<Vec<u32>, AllocError> {
    let mut objects = Vec::new(alloc);
    for _person in 0..count {
        objects.push((draw_wide(seed, 9) & 15) as u32)?;
    }
    Ok(objects)
}

fn draw_wild(seed: &mut u64) -> Record {
    Record {
        stage: draw_stage(seed),
        shift: (draw_wide(seed, 12) & 15) as u32,
        slackness: draw_any(seed).cast_signed(),
        bids: draw_any(seed),
        passes: draw_any(seed),
        restarts: (draw_wide(seed, 3) & 3) as u32,
        arc_scans: draw_wide(seed, 1 << 30),
    }
}

// A budget below two passes over all pairs.
fn draw_budget(seed: &mut u64, pairs: usize) -> u64 {
    let two = (pairs as u64).saturating_mul(2);
    draw_wide(seed, two.saturating_sub(1)).wrapping_add(1)
}

// A search may lose sums on the way. What it finds then, a checker refuses.
#[test]
fn calls_from_wild_records_and_prices_end(rt: HostRuntime) -> Result<(), Fail> {
    let (alloc, mut seed) = (rt.alloc(), 1u64);
    for turn in 0..3000 {
        let lists = draw_lists(alloc, &mut seed, 8)?;
        let mut prices = draw_prices(alloc, &mut seed, lists.objects)?;
        let mut objects = draw_objects(alloc, &mut seed, lists.persons)?;
        let mut record = draw_wild(&mut seed);
        let budget = draw_budget(&mut seed, lists.costs.len());
        let (prices, objects) = (prices.as_mut_slice(), objects.as_mut_slice());
        let found = call_on(alloc, &lists, prices, objects, &mut record, budget)?;
        let has_ended = found == Finding::Wrong || found == lists.slow(alloc)?;
        assert!(rt; has_ended, "problem {turn}: {found:?}");
    }
    Ok(())
}

// The searches go on from a price that leaves no room for sums.
#[test]
fn calls_from_the_greatest_price_end(rt: HostRuntime) -> Result<(), Fail> {
    let alloc = rt.alloc();
    let lists = Lists {
        sense: Sense::Min,
        persons: 3,
        objects: 3,
        costs: vec![in alloc; 1, 3, 2, 2, 3, 3, 2, 2, 0]?,
    };
    for budget in 1..15 {
        let mut prices = [0, i64::MAX, 0];
        let mut objects = nobody(alloc, 3)?;
        let mut record = Record::cold();
        record.stage = Stage::Finish;
        let objects = objects.as_mut_slice();
        let found = call_on(alloc, &lists, &mut prices, objects, &mut record, budget)?;
        assert_eq!(rt; found, lists.slow(alloc)?, "budget {budget}");
    }
    Ok(())
}
