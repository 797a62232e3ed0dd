// The range of the costs, as a search minimises them.
use super::cheap::SPAN;
use super::lanes::{greater_of, least_of, lesser_of};
use assign_core::Sense;
use std::simd::prelude::*;

// 2^-52: two doubles up to the greatest one are, together, off by less than this part of it.
const PART: f64 = 0.0000000000000002220446049250313080847263336181640625;

// So many costs are looked at at once.
const LANES: usize = 4;

// The least and the greatest cost of each lane.
#[derive(Clone, Copy)]
pub struct Ends {
    least: f64x4,
    greatest: f64x4,
}

// The finite costs of all rows.
#[derive(Clone, Copy)]
pub struct Range {
    pub least: f64,
    pub greatest: f64,
    // The greatest of the rows' least costs.
    pub reach: f64,
    pub has_infinite: bool,
}

pub fn greater(one: f64, other: f64) -> f64 {
    if one > other { one } else { other }
}

pub fn lesser(one: f64, other: f64) -> f64 {
    if one < other { one } else { other }
}

pub fn greatest_of(lanes: f64x4) -> f64 {
    -least_of(-lanes)
}

impl Ends {
    fn of_nothing() -> Ends {
        let least = f64x4::splat(f64::INFINITY);
        Ends {
            least,
            greatest: -least,
        }
    }

    pub fn of_zero() -> Ends {
        let zero = f64x4::splat(0.0);
        Ends {
            least: zero,
            greatest: zero,
        }
    }

    #[inline(always)]
    pub fn with(self, costs: f64x4) -> Ends {
        Ends {
            least: lesser_of(costs, self.least),
            greatest: greater_of(costs, self.greatest),
        }
    }

    fn joined(self, other: Ends) -> Ends {
        Ends {
            least: lesser_of(other.least, self.least),
            greatest: greater_of(other.greatest, self.greatest),
        }
    }

    // The greatest absolute value.
    pub fn size(self) -> f64 {
        greater(greatest_of(self.greatest), -least_of(self.least))
    }
}

// The greatest finite cost of each lane.
fn greatest_of_lanes(lanes: &[[f64; LANES]], sign: f64) -> f64x4 {
    let mut greatest = f64x4::splat(f64::NEG_INFINITY);
    for costs in lanes {
        let turned = f64x4::from_array(*costs) * f64x4::splat(sign);
        let is_finite = turned.simd_lt(f64x4::splat(f64::INFINITY));
        greatest = (turned.simd_gt(greatest) & is_finite).select(turned, greatest);
    }
    greatest
}

fn greatest_finite(costs: &[f64], sign: f64) -> f64 {
    let (lanes, rest) = costs.as_chunks::<LANES>();
    let mut greatest = greatest_of(greatest_of_lanes(lanes, sign));
    for cost in rest {
        let turned = *cost * sign;
        if turned > greatest && turned < f64::INFINITY {
            greatest = turned;
        }
    }
    greatest
}

// The ends of costs in lanes, and of the last few.
fn ends_of_most(lanes: &[[f64; LANES]], sign: f64) -> Ends {
    let mut ends = Ends::of_nothing();
    for costs in lanes {
        ends = ends.with(f64x4::from_array(*costs) * f64x4::splat(sign));
    }
    ends
}

fn ends_of(costs: &[f64], sign: f64) -> Ends {
    let (lanes, rest) = costs.as_chunks::<LANES>();
    let mut ends = ends_of_most(lanes, sign);
    for cost in rest {
        ends = ends.with(f64x4::splat(*cost * sign));
    }
    ends
}

// The same for a row, with the least cost of each span.
fn ends_of_spans(row: &[f64], sign: f64, least: &mut [f64]) -> Ends {
    let mut ends = Ends::of_nothing();
    for (span, least) in row.chunks(SPAN).zip(least.iter_mut()) {
        let of_span = ends_of(span, sign);
        *least = least_of(of_span.least);
        ends = ends.joined(of_span);
    }
    ends
}

// The ends of the rows so far, and the greatest of their least costs.
#[derive(Clone, Copy)]
struct Rows {
    ends: Ends,
    reach: f64,
}

impl Rows {
    fn of_nothing() -> Rows {
        Rows {
            ends: Ends::of_nothing(),
            reach: f64::NEG_INFINITY,
        }
    }

    fn with(self, row: Ends) -> Rows {
        let least = least_of(row.least);
        let has_any = least < f64::INFINITY;
        Rows {
            ends: self.ends.joined(row),
            reach: if has_any {
                greater(self.reach, least)
            } else {
                self.reach
            },
        }
    }

    fn range(self, costs: &[f64], sign: f64) -> Range {
        let greatest = greatest_of(self.ends.greatest);
        let has_infinite = greatest == f64::INFINITY;
        Range {
            least: least_of(self.ends.least),
            greatest: if has_infinite {
                greatest_finite(costs, sign)
            } else {
                greatest
            },
            reach: self.reach,
            has_infinite,
        }
    }
}

impl Range {
    // The range of rows of m costs each; `sign` is -1 where the greatest sum is wanted.
    pub fn of(costs: &[f64], m: usize, sign: f64) -> Range {
        let mut rows = Rows::of_nothing();
        for row in costs.chunks(m.max(1)) {
            rows = rows.with(ends_of(row, sign));
        }
        rows.range(costs, sign)
    }

    // The same, with the least cost of each span of each row.
    pub fn with_least(costs: &[f64], m: usize, sign: f64, least: &mut [f64]) -> Range {
        let mut rows = Rows::of_nothing();
        let parts = least.chunks_mut(m.div_ceil(SPAN).max(1));
        for (row, least) in costs.chunks(m.max(1)).zip(parts) {
            rows = rows.with(ends_of_spans(row, sign, least));
        }
        rows.range(costs, sign)
    }

    // The greatest absolute value of a cost.
    pub fn size(self) -> f64 {
        greater(self.greatest.abs(), self.least.abs())
    }

    // A margin that no rounding of costs up to this size makes up for.
    pub fn margin_at(size: f64) -> f64 {
        size * PART
    }

    pub fn margin(self) -> f64 {
        Range::margin_at(self.size())
    }

    // That of the costs up to the greatest of the rows' least ones.
    pub fn near_size(self) -> f64 {
        greater(self.reach.abs(), self.least.abs())
    }
}

// 1, or -1 where the greatest sum is wanted.
pub fn sign_of(sense: Sense) -> f64 {
    match sense {
        Sense::Min => 1.0,
        Sense::Max => -1.0,
    }
}

/// The margin at which a search aims: 2^-52 of the greatest absolute value of a finite cost. Where
/// each other pair of a person is worse by more, the plan is also best for all costs that these are
/// the nearest doubles of.
pub fn margin_of(sense: Sense, costs: &[f64]) -> f64 {
    Range::of(costs, costs.len(), sign_of(sense)).margin()
}
