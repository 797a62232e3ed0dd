// The arcs of rows of costs, which are read block by block.
use super::super::values::value_at;
use super::{Arcs, Best, sum_of};
use assign_core::{Cost, Sense};
use cost_lists::{Object, Price};
use std::alloc::AllocError;
use std::simd::prelude::*;

// How many costs of a row are looked at together.
const BLOCK: usize = 32;

// The sums of eight costs and prices.
fn eight_sums(sense: Sense, costs: &[Cost; 8], prices: &[Price; 8]) -> i64x8 {
    let (costs, prices) = (i64x8::from_array(*costs), i64x8::from_array(*prices));
    match sense {
        Sense::Min => prices + costs,
        Sense::Max => prices - costs,
    }
}

// The least sums of a block: of the first, the ninth and so on, of the second, and so on.
fn least_sums(sense: Sense, costs: &[Cost; BLOCK], prices: &[Price; BLOCK]) -> i64x8 {
    let (costs, _) = costs.as_slice().as_chunks::<8>();
    let (prices, _) = prices.as_slice().as_chunks::<8>();
    let mut least = i64x8::splat(Cost::MAX);
    for (costs, prices) in costs.iter().zip(prices.iter()) {
        least = least.simd_min(eight_sums(sense, costs, prices));
    }
    least
}

// The least of eight.
fn least_of(lanes: i64x8) -> Cost {
    let mut least = Cost::MAX;
    for each in lanes.to_array() {
        least = least.min(each);
    }
    least
}

// The least sum of some costs and prices.
fn least_sum(sense: Sense, costs: &[Cost], prices: &[Price]) -> Cost {
    let mut least = Cost::MAX;
    for (cost, price) in costs.iter().zip(prices.iter()) {
        least = least.min(sum_of(sense, *cost, *price));
    }
    least
}

// Adds the objects after some first ones whose reduced costs are below the bound, and returns the
// least of the others.
fn add_block(
    arcs: &mut Arcs,
    best: Best<'_>,
    costs: &[Cost],
    prices: &[Price],
    place: usize,
    first: Object,
    bound: Cost,
) -> Result<Cost, AllocError> {
    let (sum, own) = (
        value_at(best.sums, place, 0),
        value_at(best.objects, place, 0),
    );
    let least = least_sum(best.sense, costs, prices).wrapping_sub(sum);
    if least >= bound {
        return Ok(least);
    }
    let mut above = Cost::MAX;
    let mut object = first;
    for (cost, price) in costs.iter().zip(prices.iter()) {
        object = object.wrapping_add(1);
        let reduced = sum_of(best.sense, *cost, *price).wrapping_sub(sum);
        if reduced >= bound {
            above = above.min(reduced);
        } else if object != own {
            arcs.push(object, reduced)?;
        }
    }
    Ok(above)
}

// Adds the arcs of a person, of its row of costs, which is cut off after so many.
fn add_row(
    arcs: &mut Arcs,
    best: Best<'_>,
    row: &[Cost],
    place: usize,
    bound: Cost,
    width: usize,
) -> Result<(), AllocError> {
    let sum = i64x8::splat(value_at(best.sums, place, 0));
    let (mut lanes, mut above) = (i64x8::splat(Cost::MAX), Cost::MAX);
    let mut first: Object = 0;
    let end = arcs.objects.len().saturating_add(width);
    arcs.begin_node()?;
    let (blocks, last_costs) = row.as_chunks::<BLOCK>();
    let (block_prices, last_prices) = best.prices.as_chunks::<BLOCK>();
    for (costs, prices) in blocks.iter().zip(block_prices.iter()) {
        if arcs.objects.len() >= end {
            break;
        }
        let least = least_sums(best.sense, costs, prices) - sum;
        if least.simd_lt(i64x8::splat(bound)).to_bitmask() == 0 {
            lanes = lanes.simd_min(least);
        } else {
            let (costs, prices) = (costs.as_slice(), prices.as_slice());
            above = above.min(add_block(arcs, best, costs, prices, place, first, bound)?);
        }
        first = first.wrapping_add(BLOCK as Object);
    }
    if arcs.objects.len() >= end {
        arcs.is_whole = false;
    } else {
        above = above.min(add_block(arcs, best, last_costs, last_prices, place, first, bound)?);
    }
    arcs.above.push(above.min(least_of(lanes)))?;
    Ok(())
}

/// The arcs of all persons, of rows of costs.
pub fn add_rows(
    arcs: &mut Arcs,
    best: Best<'_>,
    costs: &[Cost],
    bound: Cost,
    width: usize,
) -> Result<(), AllocError> {
    let mut rest = costs;
    for place in 0..best.objects.len() {
        let (row, others) = rest.split_at(best.prices.len().min(rest.len()));
        rest = others;
        add_row(arcs, best, row, place, bound, width)?;
    }
    Ok(())
}
