// Scans of rows for shortest paths, block by block, of some objects at once. The value of an object
// is its cost less its key: its dual, or what hides it.
use super::best::{block_of, lowest};
use super::lists::{NOBODY, number_of};
use super::whole::FAR;
use std::simd::prelude::*;

// The number of objects of a block.
pub const BLOCK: usize = 64;

// So many objects are looked at at once.
pub const LANES: usize = 8;

fn least_of(lanes: i64x8) -> i64 {
    let mut least = FAR;
    for each in lanes.to_array() {
        least = least.min(each);
    }
    least
}

fn least_in_rest(distances: &[i64]) -> i64 {
    let mut least = FAR;
    for distance in distances {
        least = least.min(*distance);
    }
    least
}

fn least_in_lanes(distances: &[[i64; LANES]]) -> i64 {
    let mut least = i64x8::splat(FAR);
    for lanes in distances {
        least = least.simd_min(i64x8::from_array(*lanes));
    }
    least_of(least)
}

// The least distance of a block.
pub fn least_of_block(distances: &[i64], block: usize) -> i64 {
    let (lanes, rest) = block_of(distances, block.wrapping_mul(BLOCK)).as_chunks::<LANES>();
    least_in_lanes(lanes).min(least_in_rest(rest))
}

// The distances of objects by way of one more person, where they are less; the least of them.
fn reach_lanes(
    row: &[[i64; LANES]],
    keys: &[[i64; LANES]],
    base: i64,
    distances: &mut [[i64; LANES]],
) -> i64 {
    let mut least = i64x8::splat(FAR);
    for ((row, keys), distances) in row.iter().zip(keys).zip(distances.iter_mut()) {
        let values = i64x8::from_array(*row) - i64x8::from_array(*keys) - i64x8::splat(base);
        let now = values.simd_min(i64x8::from_array(*distances));
        *distances = now.to_array();
        least = least.simd_min(now);
    }
    least_of(least)
}

fn reach_rest(row: &[i64], keys: &[i64], base: i64, distances: &mut [i64]) -> i64 {
    let mut least = FAR;
    for ((cost, key), distance) in row.iter().zip(keys).zip(distances.iter_mut()) {
        let value = cost.wrapping_sub(*key).wrapping_sub(base);
        *distance = value.min(*distance);
        least = least.min(*distance);
    }
    least
}

fn reach_block(row: &[i64], keys: &[i64], base: i64, distances: &mut [i64]) -> i64 {
    let (lanes, rest) = row.as_chunks::<LANES>();
    let (key_lanes, key_rest) = keys.as_chunks::<LANES>();
    let (distance_lanes, distance_rest) = distances.as_chunks_mut::<LANES>();
    let least = reach_rest(rest, key_rest, base, distance_rest);
    reach_lanes(lanes, key_lanes, base, distance_lanes).min(least)
}

// The distances of all objects by way of one more person; the least of them.
pub fn reach(
    row: &[i64],
    keys: &[i64],
    base: i64,
    distances: &mut [i64],
    blocks: &mut [i64],
) -> i64 {
    let mut least = FAR;
    let parts = row.chunks(BLOCK).zip(keys.chunks(BLOCK));
    for (((row, keys), distances), block) in parts
        .zip(distances.chunks_mut(BLOCK))
        .zip(blocks.iter_mut())
    {
        *block = reach_block(row, keys, base, distances);
        least = least.min(*block);
    }
    least
}

// Which numbers are this one, as bits.
fn bits_at(lanes: [i64; LANES], number: i64) -> u64 {
    let are_equal = i64x8::from_array(lanes).simd_eq(i64x8::splat(number));
    are_equal.to_bitmask()
}

// The same for more of them, and how many they are.
fn bits_in_lanes(lanes: &[[i64; LANES]], number: i64) -> (u64, u32) {
    let mut bits = 0u64;
    let mut at = 0u32;
    for each in lanes {
        bits |= bits_at(*each, number).wrapping_shl(at);
        at = at.wrapping_add(8);
    }
    (bits, at)
}

// Which numbers of a block are this one, as bits, the first one's the lowest.
fn bits_of(block: &[i64], number: i64) -> u64 {
    let (lanes, rest) = block.as_chunks::<LANES>();
    let mut last = [number.wrapping_add(1); LANES];
    for (one, to) in rest.iter().zip(last.iter_mut()) {
        *to = *one;
    }
    let (bits, at) = bits_in_lanes(lanes, number);
    bits | bits_at(last, number).wrapping_shl(at)
}

// An object at the least distance: an unowned one if there is one, else the first.
pub fn nearest(distances: &[i64], owners: &[i64], blocks: &[i64], level: i64) -> i64 {
    let mut found = NOBODY;
    let mut from = 0usize;
    let parts = distances.chunks(BLOCK).zip(owners.chunks(BLOCK));
    for ((distances, owners), least) in parts.zip(blocks) {
        if *least == level {
            let hits = bits_of(distances, level);
            let unowned = hits & bits_of(owners, NOBODY);
            if unowned != 0 {
                return number_of(from.wrapping_add(lowest(unowned)));
            }
            if found == NOBODY {
                found = number_of(from.wrapping_add(lowest(hits)));
            }
        }
        from = from.wrapping_add(BLOCK);
    }
    found
}
