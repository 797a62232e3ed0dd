// The arrows of an optimal assignment, from objects to objects that are as good for their persons;
// 0 stands for no person. Arrows to the object where they begin are among them.
use super::graph::Graph;
use super::values::{place_of, set_value, value_at};
use assign_core::{Cost, Sense};
use cost_lists::{Object, Pairs, Price, Source};
use std::alloc::{AllocError, Global};
use std::simd::prelude::*;

/// An optimal assignment: its persons' objects with their sums of cost and price, and the prices.
#[derive(Clone, Copy)]
pub struct Best<'a> {
    pub sense: Sense,
    pub sums: &'a [Cost],
    pub objects: &'a [Object],
    pub prices: &'a [Price],
}

// Some costs of a row with the prices of their objects, and the sum of the person's own ones.
#[derive(Clone, Copy)]
struct Part<'a> {
    sense: Sense,
    costs: &'a [Cost],
    prices: &'a [Price],
    sum: Cost,
}

// How many costs of a row are looked at together.
const BLOCK: usize = 32;

// The sum of a cost and a price; under Max, of the cost with the other sign.
fn sum_of(sense: Sense, cost: Cost, price: Price) -> Cost {
    match sense {
        Sense::Min => price.wrapping_add(cost),
        Sense::Max => price.wrapping_sub(cost),
    }
}

// The sums of eight costs and prices, less a bound.
fn differences(sense: Sense, costs: &[Cost; 8], prices: &[Price; 8], bound: i64x8) -> i64x8 {
    let (costs, prices) = (i64x8::from_array(*costs), i64x8::from_array(*prices));
    match sense {
        Sense::Min => prices + costs - bound,
        Sense::Max => prices - costs - bound,
    }
}

// Whether a sum of a block is below a bound: the signs of differences show it, so that nothing branches on a cost.
fn has_below(sense: Sense, costs: &[Cost; BLOCK], prices: &[Price; BLOCK], bound: Cost) -> bool {
    let mut signs: Cost = 0;
    for (cost, price) in costs.iter().zip(prices.iter()) {
        signs |= sum_of(sense, *cost, *price).wrapping_sub(bound);
    }
    signs < 0
}

// Which sums of a block are below a bound, as bits.
fn bits_below(sense: Sense, costs: &[Cost; BLOCK], prices: &[Price; BLOCK], bound: Cost) -> u64 {
    let (costs, _) = costs.as_slice().as_chunks::<8>();
    let (prices, _) = prices.as_slice().as_chunks::<8>();
    let mut bits = 0u64;
    for (costs, prices) in costs.iter().zip(prices.iter()) {
        let signs = differences(sense, costs, prices, i64x8::splat(bound));
        let byte = signs.simd_lt(i64x8::splat(0)).to_bitmask();
        bits = (bits >> 8) | (byte << 24);
    }
    bits
}

// Writes the objects of set bits, after so many that are written and after the object `first`. Returns how many are
// written then.
fn write_bits(found: &mut [Object], written: usize, bits: u64, first: Object) -> usize {
    let (mut count, mut left) = (written, bits);
    for _ in 0..BLOCK {
        if left == 0 {
            break;
        }
        let object = first.wrapping_add(left.trailing_zeros()).wrapping_add(1);
        set_value(found, count, object);
        count = count.wrapping_add(1);
        left &= left.wrapping_sub(1);
    }
    count
}

// The same of the last costs of a row, fewer than a block.
fn write_last(found: &mut [Object], written: usize, part: Part<'_>, first: Object) -> usize {
    let mut count = written;
    let mut to = first;
    for (cost, price) in part.costs.iter().zip(part.prices.iter()) {
        to = to.wrapping_add(1);
        set_value(found, count, to);
        count = count.wrapping_add(usize::from(sum_of(part.sense, *cost, *price) <= part.sum));
    }
    count
}

// Writes the objects of a part of a row whose sums are at most the own one, block by block, until enough are written.
fn write_part(
    found: &mut [Object],
    written: usize,
    part: Part<'_>,
    start: Object,
    enough: usize,
) -> usize {
    let (blocks, last_costs) = part.costs.as_chunks::<BLOCK>();
    let (block_prices, last_prices) = part.prices.as_chunks::<BLOCK>();
    let bound = part.sum.wrapping_add(1);
    let (mut count, mut first) = (written, start);
    for (costs, prices) in blocks.iter().zip(block_prices.iter()) {
        if count >= enough {
            return count;
        }
        if has_below(part.sense, costs, prices, bound) {
            let bits = bits_below(part.sense, costs, prices, bound);
            count = write_bits(found, count, bits, first);
        }
        first = first.wrapping_add(BLOCK as Object);
    }
    let last = Part {
        costs: last_costs,
        prices: last_prices,
        ..part
    };
    write_last(found, count, last, first)
}

// Writes objects of a row that are as good for its person as the own one, and counts them: from one on,
// and then those before it. The persons begin at objects spread over all.
fn write_row(
    found: &mut [Object],
    best: Best<'_>,
    row: &[Cost],
    place: usize,
    enough: usize,
) -> usize {
    let (n, m) = (best.objects.len(), best.prices.len());
    let at = place.wrapping_mul(m).checked_div(n).unwrap_or(0);
    let end = (at / BLOCK).wrapping_mul(BLOCK).min(row.len()).min(m);
    let start = u32::try_from(end).unwrap_or(0);
    let (costs_before, costs) = row.split_at(end);
    let (prices_before, prices) = best.prices.split_at(end);
    let first_part = Part {
        sense: best.sense,
        costs,
        prices,
        sum: value_at(best.sums, place, 0),
    };
    let before = Part {
        costs: costs_before,
        prices: prices_before,
        ..first_part
    };
    let count = write_part(found, 0, first_part, start, enough);
    write_part(found, count, before, 0, enough)
}

// The arrows of all persons, of rows of costs: no more where so many a row are there. Returns whether
// some may be missing.
fn add_rows(
    alloc: Global,
    graph: &mut Graph,
    best: Best<'_>,
    costs: &[Cost],
    enough: usize,
) -> Result<bool, AllocError> {
    let mut found = vec![in alloc; 0u32; best.prices.len().saturating_add(1)]?;
    let (mut is_cut, mut left) = (false, 0usize);
    let mut rest = costs;
    for (place, object) in best.objects.iter().enumerate() {
        let (row, others) = rest.split_at(best.prices.len().min(rest.len()));
        rest = others;
        left = left.saturating_add(enough);
        let count = write_row(found.as_mut_slice(), best, row, place, left);
        is_cut = is_cut || count >= left;
        left = left.saturating_sub(count);
        let ends = found.as_slice().get(..count).unwrap_or(&[]);
        graph.add(*object as usize, place, ends)?;
    }
    Ok(is_cut)
}

// The places of the listed pairs that are as good for their persons as the own ones.
fn places_of(alloc: Global, best: Best<'_>, pairs: Pairs<'_>) -> Result<Vec<usize>, AllocError> {
    let mut places = Vec::with_capacity(alloc, best.prices.len())?;
    for (place, cost) in pairs.costs.iter().enumerate() {
        let person = place_of(value_at(pairs.persons, place, 0));
        let to = value_at(pairs.objects, place, 0);
        let price = value_at(best.prices, place_of(to), 0);
        if sum_of(best.sense, *cost, price) <= value_at(best.sums, person, 0) {
            places.push(place)?;
        }
    }
    Ok(places)
}

// The objects where the arrows of listed pairs begin, and those to which they lead.
fn ends_of(
    alloc: Global,
    best: Best<'_>,
    pairs: Pairs<'_>,
    places: &[usize],
) -> Result<(Vec<u32>, Vec<u32>), AllocError> {
    let mut from = Vec::with_capacity(alloc, places.len())?;
    let mut to = Vec::with_capacity(alloc, places.len())?;
    for place in places {
        let person = place_of(value_at(pairs.persons, *place, 0));
        from.push(value_at(best.objects, person, 0))?;
        to.push(value_at(pairs.objects, *place, 0))?;
    }
    Ok((from, to))
}

// The arrows of all persons, of listed pairs.
fn add_pairs(
    alloc: Global,
    graph: &mut Graph,
    best: Best<'_>,
    pairs: Pairs<'_>,
) -> Result<(), AllocError> {
    let places = places_of(alloc, best, pairs)?;
    let (from, to) = ends_of(alloc, best, pairs, places.as_slice())?;
    graph.add_all(alloc, from.as_slice(), to.as_slice(), places.as_slice())
}

// The objects that somebody has and may leave.
fn leavable(alloc: Global, owned: &[bool], prices: &[Price]) -> Result<Vec<u32>, AllocError> {
    let mut found = Vec::new(alloc);
    let mut object: Object = 0;
    for (is_owned, price) in owned.iter().zip(prices.iter()) {
        object = object.wrapping_add(1);
        if *is_owned && *price == 0 {
            found.push(object)?;
        }
    }
    Ok(found)
}

// The arrows from objects that nobody has to 0.
fn add_unowned(graph: &mut Graph, owned: &[bool]) -> Result<(), AllocError> {
    let mut object = 0usize;
    for is_owned in owned {
        object = object.wrapping_add(1);
        if !*is_owned {
            graph.add(object, 0, &[0])?;
        }
    }
    Ok(())
}

/// The arrows, or of rows of costs so many a row as are enough, and whether some may be missing.
pub fn arrows_of(
    alloc: Global,
    source: Source<'_>,
    best: Best<'_>,
    enough: usize,
) -> Result<(Graph, bool), AllocError> {
    let m = best.prices.len();
    let mut owned = vec![in alloc; false; m]?;
    for object in best.objects {
        set_value(owned.as_mut_slice(), place_of(*object), true);
    }
    let mut graph = Graph::new(alloc, m.saturating_add(1))?;
    let is_cut = match source {
        Source::Dense(costs) => add_rows(alloc, &mut graph, best, costs, enough)?,
        Source::Listed(pairs) => {
            add_pairs(alloc, &mut graph, best, pairs)?;
            false
        }
    };
    let ends = leavable(alloc, owned.as_slice(), best.prices)?;
    graph.add(0, 0, ends.as_slice())?;
    add_unowned(&mut graph, owned.as_slice())?;
    Ok((graph, is_cut))
}
