// The best objects of a row. The value of an object is its cost less its key.
use super::cheap::CheapPair;
use super::lists::{NOBODY, at};
use super::reach::{BLOCK, LANES};
use super::whole::FAR;
use std::simd::prelude::*;

// Which objects of a part have a value below the limit, as bits, and how many objects it has.
fn bits_in_lanes(row: &[[i64; LANES]], keys: &[[i64; LANES]], limit: i64) -> (u64, u32) {
    let mut bits = 0u64;
    let mut at = 0u32;
    for (row, keys) in row.iter().zip(keys) {
        let values = i64x8::from_array(*row) - i64x8::from_array(*keys);
        let below = values.simd_lt(i64x8::splat(limit)).to_bitmask();
        bits |= below.wrapping_shl(at);
        at = at.wrapping_add(8);
    }
    (bits, at)
}

fn bits_in_rest(row: &[i64], keys: &[i64], limit: i64) -> u64 {
    let mut bits = 0u64;
    let mut bit = 1u64;
    for (cost, key) in row.iter().zip(keys) {
        bits |= if cost.wrapping_sub(*key) < limit {
            bit
        } else {
            0
        };
        bit = bit.wrapping_shl(1);
    }
    bits
}

// Which objects of a block have a value below the limit, as bits, the first one's the lowest.
pub fn bits_below(row: &[i64], keys: &[i64], limit: i64) -> u64 {
    let (lanes, rest) = row.as_chunks::<LANES>();
    let (key_lanes, key_rest) = keys.as_chunks::<LANES>();
    let (bits, count) = bits_in_lanes(lanes, key_lanes, limit);
    bits | bits_in_rest(rest, key_rest, limit).wrapping_shl(count)
}

// The place of the lowest bit.
pub fn lowest(bits: u64) -> usize {
    bits.trailing_zeros() as usize
}

// The bits without the lowest one.
pub fn others(bits: u64) -> u64 {
    bits & bits.wrapping_sub(1)
}

// The best object of a person, with its value, and the second best value.
#[derive(Clone, Copy)]
pub struct Two {
    pub object: usize,
    pub best: i64,
    pub second: i64,
}

impl Two {
    // Without branches, since nobody can foretell them.
    fn with(self, value: i64, object: usize) -> Two {
        Two {
            object: if value < self.best {
                object
            } else {
                self.object
            },
            best: self.best.min(value),
            second: self.second.min(self.best.max(value)),
        }
    }

    // With the objects of a block that these bits stand for.
    fn with_some(self, row: &[i64], keys: &[i64], from: usize, bits: u64) -> Two {
        let mut two = self;
        let mut left = bits;
        for _ in 0..bits.count_ones() {
            let k = lowest(left);
            let value = at(row, k).wrapping_sub(at(keys, k));
            two = two.with(value, from.wrapping_add(k));
            left = others(left);
        }
        two
    }
}

// The two best values of the first block.
fn two_of_first(row: &[i64], keys: &[i64]) -> Two {
    let mut two = Two {
        object: 0,
        best: FAR,
        second: FAR,
    };
    for (k, (cost, key)) in row.iter().zip(keys).enumerate() {
        two = two.with(cost.wrapping_sub(*key), k);
    }
    two
}

fn front(list: &[i64]) -> (&[i64], &[i64]) {
    list.split_at(BLOCK.min(list.len()))
}

// The block from a place on.
pub fn block_of(list: &[i64], from: usize) -> &[i64] {
    let (_, rest) = list.split_at(from.min(list.len()));
    let (block, _) = front(rest);
    block
}

// The two best values of a row.
pub fn two_best(row: &[i64], keys: &[i64]) -> Two {
    let (first, row) = front(row);
    let (first_keys, keys) = front(keys);
    let mut two = two_of_first(first, first_keys);
    let mut from = BLOCK;
    for (row, keys) in row.chunks(BLOCK).zip(keys.chunks(BLOCK)) {
        let bits = bits_below(row, keys, two.second);
        two = two.with_some(row, keys, from, bits);
        from = from.wrapping_add(BLOCK);
    }
    two
}

// The two best values of some pairs, and of others that cost so much.
pub fn two_best_of(pairs: &[CheapPair], rest: i64, keys: &[i64]) -> Two {
    let mut two = Two {
        object: 0,
        best: FAR,
        second: rest,
    };
    for pair in pairs {
        let value = pair.cost.wrapping_sub(at(keys, pair.object));
        two = two.with(value, pair.object);
    }
    two
}

// The least value of a row.
pub fn least_of_row(row: &[i64], keys: &[i64]) -> i64 {
    if keys.len() != row.len() {
        return FAR;
    }
    let mut least = FAR;
    for k in 0..row.len() {
        least = least.min(row[k].wrapping_sub(keys[k]));
    }
    least
}

// The first unowned object of this value.
pub fn first_unowned(row: &[i64], keys: &[i64], owners: &[i64], value: i64) -> Option<usize> {
    for (k, ((cost, key), owner)) in row.iter().zip(keys).zip(owners).enumerate() {
        if *owner == NOBODY && cost.wrapping_sub(*key) == value {
            return Some(k);
        }
    }
    None
}
