// The cheap pairs of each person: those that cost less than its rest. Each other pair costs at
// least the rest, so few pairs are looked at where most are far, or objects are many.
use super::best::{lowest, others};
use super::reach::LANES;
use super::scale::Scale;
use std::alloc::{AllocError, Global};
use std::simd::prelude::*;

// A row is looked at in spans of so many objects.
pub const SPAN: usize = 32;

// An object with its cost.
#[derive(Clone, Copy)]
pub struct CheapPair {
    pub object: usize,
    pub cost: i64,
}

#[derive(Drop)]
pub struct CheapPairs {
    // Those of person k stand from starts[k] to starts[k + 1].
    starts: Vec<usize>,
    pairs: Vec<CheapPair>,
    rests: Vec<i64>,
}

// Which costs are below a limit, as bits, and how many costs there are.
fn bits_in_lanes(lanes: &[[f64; LANES]], sign: f64, limit: f64) -> (u64, u32) {
    let mut bits = 0u64;
    let mut at = 0u32;
    for costs in lanes {
        let turned = f64x8::from_array(*costs) * f64x8::splat(sign);
        let below = turned.simd_lt(f64x8::splat(limit)).to_bitmask();
        bits |= below.wrapping_shl(at);
        at = at.wrapping_add(8);
    }
    (bits, at)
}

fn bits_in_rest(costs: &[f64], sign: f64, limit: f64) -> u64 {
    let mut bits = 0u64;
    let mut bit = 1u64;
    for cost in costs {
        bits |= if *cost * sign < limit { bit } else { 0 };
        bit = bit.wrapping_shl(1);
    }
    bits
}

// Which costs of a span are below a limit, as bits, the first one's the lowest.
fn bits_below(span: &[f64], sign: f64, limit: f64) -> u64 {
    let (lanes, rest) = span.as_chunks::<LANES>();
    let (bits, count) = bits_in_lanes(lanes, sign, limit);
    if rest.is_empty() {
        return bits;
    }
    bits | bits_in_rest(rest, sign, limit).wrapping_shl(count)
}

impl CheapPairs {
    pub fn new(alloc: Global) -> CheapPairs {
        CheapPairs {
            starts: Vec::new(alloc),
            pairs: Vec::new(alloc),
            rests: Vec::new(alloc),
        }
    }

    pub fn count(&self) -> usize {
        self.pairs.len()
    }

    // The cheap pairs of a person.
    pub fn of(&self, person: usize) -> &[CheapPair] {
        let from = self.starts.get(person).copied().unwrap_or(0);
        let to = self.starts.get(person.wrapping_add(1)).copied();
        let to = to.unwrap_or(self.pairs.len());
        self.pairs.as_slice().get(from..to).unwrap_or(&[])
    }

    // What each other pair of a person costs at least.
    pub fn rest(&self, person: usize) -> i64 {
        self.rests.get(person).copied().unwrap_or(0)
    }

    // Adds the pairs of a span that these bits stand for.
    fn add_some(
        &mut self,
        span: &[f64],
        from: usize,
        bits: u64,
        scale: Scale,
    ) -> Result<(), AllocError> {
        let mut left = bits;
        for _ in 0..bits.count_ones() {
            let k = lowest(left);
            let cost = scale.form.whole_of(span.get(k).copied().unwrap_or(0.0));
            let object = from.wrapping_add(k);
            self.pairs.push(CheapPair { object, cost })?;
            left = others(left);
        }
        Ok(())
    }

    // Adds the pairs of the next person below its rest. Where the least costs of its spans are
    // known it looks at no other spans than it has to.
    pub fn add_row(
        &mut self,
        row: &[f64],
        least: &[f64],
        rest: f64,
        scale: Scale,
    ) -> Result<(), AllocError> {
        self.starts.push(self.pairs.len())?;
        let sign = if scale.form.factor < 0.0 { -1.0 } else { 1.0 };
        self.rests.push(scale.form.whole_of(rest * sign))?;
        let mut from = 0usize;
        for (k, span) in row.chunks(SPAN).enumerate() {
            if least.get(k).copied().unwrap_or(f64::NEG_INFINITY) < rest {
                let bits = bits_below(span, sign, rest);
                self.add_some(span, from, bits, scale)?;
            }
            from = from.wrapping_add(SPAN);
        }
        Ok(())
    }
}
