// Doubles as whole numbers, and back.
use super::scale::Scale;
use std::num::nearest_i64_to_f64;
use std::simd::prelude::*;

// No path is this long.
pub const FAR: i64 = 1 << 60;

// The cost of a pair that isn't allowed.
pub const FORBIDDEN: i64 = (1 << 60) + (1 << 61);

// 2^50: where a cost is cut, in coarse units.
pub const FINE_LIMIT: f64 = 1125899906842624.0;

// 1.5 * 2^52: the sum with it rounds to a whole number, which its last bits hold.
pub const MAGIC: f64 = 6755399441055744.0;

const MAGIC_BITS: i64 = 0x4338000000000000;

// So many costs are made whole at once.
const LANES: usize = 4;

// The search of dense problems copies problems of at most so many pairs.
pub const MOST_COPIED: usize = 1 << 21;

// How doubles become whole numbers.
#[derive(Clone, Copy)]
pub struct Form {
    // To coarse units; below 0 where the greatest sum is wanted.
    pub factor: f64,
    // A coarse unit is 2^bits fine ones, 4 or 7 bits, and so many parts; with 0 bits it stays whole.
    pub bits: u32,
    pub parts: f64,
    // Costs from here on, in coarse units, are cut, or not allowed.
    pub limit: f64,
    pub cut: i64,
    pub forbidden: i64,
    pub has_infinite: bool,
}

// The whole number in the last bits of a sum with the number above.
pub fn last_bits(sum: f64) -> i64 {
    if sum == sum {
        sum.to_bits().cast_signed().wrapping_sub(MAGIC_BITS)
    } else {
        0
    }
}

// The whole numbers in the last bits of sums with the number above.
#[inline(always)]
pub fn last_bits_of(sums: f64x4) -> i64x4 {
    let numbers = sums.simd_eq(sums).select(sums, f64x4::splat(MAGIC));
    let bits = numbers.to_bits().to_array();
    i64x4::from_array([
        bits[0].cast_signed(),
        bits[1].cast_signed(),
        bits[2].cast_signed(),
        bits[3].cast_signed(),
    ]) - i64x4::splat(MAGIC_BITS)
}

impl Form {
    // Fewer bits for so many pairs, and of how many fine units one is the whole number, as a power
    // of 2: 26 bits, which the search of dense problems copies into 32, or 39.
    pub fn narrow(self, pairs: usize) -> (Form, u32) {
        if pairs > MOST_COPIED {
            let form = Form {
                factor: self.factor * 0.000244140625,
                bits: 0,
                limit: 274877906944.0,
                cut: 1 << 38,
                forbidden: 1_000_000_000_000,
                ..self
            };
            return (form, self.bits.wrapping_add(12));
        }
        let form = Form {
            factor: self.factor * 0.0000000298023223876953125,
            bits: 0,
            limit: 33554432.0,
            cut: 1 << 25,
            forbidden: 1 << 25,
            ..self
        };
        (form, self.bits.wrapping_add(25))
    }

    // Costs of at least the limit.
    #[inline(always)]
    fn above(self, costs: f64x4) -> i64x4 {
        let is_infinite = costs.simd_eq(f64x4::splat(f64::INFINITY))
            | costs.simd_eq(f64x4::splat(f64::NEG_INFINITY));
        is_infinite.select(i64x4::splat(self.forbidden), i64x4::splat(self.cut))
    }

    // The whole numbers of coarse units.
    #[inline(always)]
    fn whole_of_coarse(self, coarse: f64x4) -> i64x4 {
        let magic = f64x4::splat(MAGIC);
        let sum = coarse + magic;
        let high = last_bits_of(sum);
        if self.bits == 0 {
            return high;
        }
        let rest = (coarse - (sum - magic)) * f64x4::splat(self.parts);
        let low = last_bits_of(rest + magic);
        if self.bits == 4 {
            (high << 4) + low
        } else {
            (high << 7) + low
        }
    }

    // The nearest whole numbers of units, or some close to them.
    #[inline(always)]
    fn whole_of_four(self, costs: f64x4) -> i64x4 {
        let coarse = costs * f64x4::splat(self.factor);
        let is_below = coarse.simd_lt(f64x4::splat(self.limit));
        let above = if self.has_infinite {
            self.above(costs)
        } else {
            i64x4::splat(self.cut)
        };
        is_below.select(self.whole_of_coarse(coarse), above)
    }

    pub fn whole_of(self, cost: f64) -> i64 {
        self.whole_of_four(f64x4::splat(cost)).to_array()[0]
    }

    // The costs of the last few pairs.
    fn rest_to_whole(self, costs: &[f64], whole: &mut [i64]) {
        for (cost, place) in costs.iter().zip(whole.iter_mut()) {
            *place = self.whole_of(*cost);
        }
    }

    // The duals at these prices.
    pub fn to_duals(self, prices: &[f64], duals: &mut [i64]) {
        let factor = self.factor.abs();
        let form = Form {
            factor: -factor,
            ..self
        };
        form.rest_to_whole(prices, duals);
    }
}

// The costs of all pairs.
pub fn to_whole(costs: &[f64], whole: &mut [i64], form: Form) {
    let (lanes, rest) = costs.as_chunks::<LANES>();
    let (whole_lanes, whole_rest) = whole.as_chunks_mut::<LANES>();
    for (costs, whole) in lanes.iter().zip(whole_lanes.iter_mut()) {
        *whole = form.whole_of_four(f64x4::from_array(*costs)).to_array();
    }
    form.rest_to_whole(rest, whole_rest);
}

// The prices at these duals.
pub fn to_prices(duals: &[i64], prices: &mut [f64], scale: Scale) {
    for (price, dual) in prices.iter_mut().zip(duals) {
        *price = nearest_i64_to_f64(dual.wrapping_neg()) * scale.unit;
    }
}
