// Where a row's least rounded sum stands. Nothing of it has to be right: what is found there is only where an
// exact search begins.
use assign_core::Sense;
use std::simd::prelude::*;

// Eight rounded sums of costs, turned so that less is better, and prices.
fn sums_of(sense: Sense, costs: &[f64; 8], prices: &[f64; 8]) -> f64x8 {
    let (costs, prices) = (f64x8::from_array(*costs), f64x8::from_array(*prices));
    match sense {
        Sense::Min => prices + costs,
        Sense::Max => prices - costs,
    }
}

// One of them.
fn sum_of(sense: Sense, cost: f64, price: f64) -> f64 {
    match sense {
        Sense::Min => price + cost,
        Sense::Max => price - cost,
    }
}

// The lesser of two numbers.
fn lesser(x: f64, y: f64) -> f64 {
    if x < y { x } else { y }
}

// The least rounded sum.
fn least_sum(sense: Sense, costs: &[f64], prices: &[f64]) -> f64 {
    let ((costs, last_costs), (prices, last_prices)) = (
        costs.as_chunks::<8>(),
        prices.as_chunks::<8>(),
    );
    let mut lanes = f64x8::splat(f64::INFINITY);
    for (costs, prices) in costs.iter().zip(prices.iter()) {
        let sums = sums_of(sense, costs, prices);
        lanes = sums.simd_lt(lanes).select(sums, lanes);
    }
    let mut least = f64::INFINITY;
    for lane in lanes.to_array().iter() {
        least = lesser(*lane, least);
    }
    for (cost, price) in last_costs.iter().zip(last_prices.iter()) {
        least = lesser(sum_of(sense, *cost, *price), least);
    }
    least
}

/// The first place of the least rounded sum of a cost and a price, or the length where there is none.
pub fn place_of_least(sense: Sense, costs: &[f64], prices: &[f64]) -> usize {
    let least = least_sum(sense, costs, prices);
    let (eights, last_costs) = costs.as_chunks::<8>();
    let (others, last_prices) = prices.as_chunks::<8>();
    let mut place = 0usize;
    for (costs, prices) in eights.iter().zip(others.iter()) {
        let bits = sums_of(sense, costs, prices)
            .simd_eq(f64x8::splat(least))
            .to_bitmask();
        if bits != 0 {
            return place.wrapping_add(bits.trailing_zeros() as usize);
        }
        place = place.wrapping_add(8);
    }
    for (cost, price) in last_costs.iter().zip(last_prices.iter()) {
        if sum_of(sense, *cost, *price) == least {
            return place;
        }
        place = place.wrapping_add(1);
    }
    place
}
