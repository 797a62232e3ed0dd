// Thresholds: costs of a sample, and the different costs of pairs.
use super::rows::Rows;
use assign_core::Cost;
use sparse_search::Pair;
use std::alloc::{AllocError, Global};

// How many costs a sample has at most, and how many for each object.
const SAMPLE: usize = 4096;

const SHARE: usize = 4;

// A threshold up to which there are so many times as many costs as are wanted is too high.
const MANY: usize = 4;

/// The first number that is drawn, always the same.
pub const DRAWN: u64 = 12345;

/// The number that is drawn after another (Knuth's MMIX).
pub fn next_drawn(drawn: u64) -> u64 {
    drawn
        .wrapping_mul(6_364_136_223_846_793_005)
        .wrapping_add(1_442_695_040_888_963_407)
}

/// The costs of places that are drawn, sorted.
pub fn sampled(alloc: Global, rows: Rows<'_>) -> Result<Vec<Cost>, AllocError> {
    let mut costs = Vec::new(alloc);
    let mut drawn = DRAWN;
    for _ in 0..SAMPLE.min(rows.objects.saturating_mul(SHARE)) {
        drawn = next_drawn(drawn);
        let place = (drawn >> 20)
            .checked_rem(rows.costs.len() as u64)
            .unwrap_or(0);
        costs.push(rows.cost(place as usize))?;
    }
    costs.sort_unstable();
    Ok(costs)
}

/// The cost of a sample that comes so many places after those up to a cost. Where it stands there many
/// times, the next lower one, if that is above the cost.
pub fn sample_above(sample: &[Cost], places: usize, low: Cost) -> Option<Cost> {
    let first = count_below(sample, low.saturating_add(1));
    let cost = sample.get(first.saturating_add(places)).copied()?;
    let end = count_below(sample, cost.saturating_add(1));
    let before = count_below(sample, cost);
    if before > first && end.saturating_sub(first) / MANY > places {
        return sample.get(before.wrapping_sub(1)).copied();
    }
    Some(cost)
}

/// The different costs of pairs above one cost and up to another, rising.
pub fn costs_between(
    alloc: Global,
    pairs: &[Pair],
    low: Cost,
    high: Cost,
) -> Result<Vec<Cost>, AllocError> {
    let mut costs = Vec::new(alloc);
    for pair in pairs {
        if low < pair.cost && pair.cost <= high {
            costs.push(pair.cost)?;
        }
    }
    costs.sort_unstable();
    costs.dedup();
    Ok(costs)
}

/// How many of rising costs are below one.
pub fn count_below(costs: &[Cost], cost: Cost) -> usize {
    costs.iter().filter(|other| **other < cost).count()
}
