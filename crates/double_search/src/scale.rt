// The unit of the whole numbers that stand for doubles: a power of 2.
use super::range::Range;
use super::whole::{FINE_LIMIT, FORBIDDEN, Form, MAGIC, last_bits};
use std::num::{f64_from_bits_with_nan, f64_to_bits_with_nan};

// The bits of a double above 0 hold its exponent, and 1023, from this one on.
const EXPONENT: u32 = 52;

// The greatest exponent of a double, and 1023.
const GREATEST: u64 = 2046;

// Where all pairs are allowed prices differ by no more than costs do, and the unit may be finer.
const BITS: u32 = 7;

const FEWER_BITS: u32 = 4;

#[derive(Clone, Copy)]
pub struct Scale {
    // Whole numbers count fine units. A coarse unit, the grid, is a power of 2 of them.
    pub form: Form,
    pub grid: i64,
    // The fine unit as a double.
    pub unit: f64,
    // Whether costs above the limit count as the limit.
    pub is_cut: bool,
    // Twice the margin, in fine units.
    margin: i64,
}

// The least margin, in coarse units.
const MARGIN: i64 = 4;

// The greatest margin, in fine units.
const GREATEST_MARGIN: f64 = 17592186044416.0;

// The power of 2 that takes a size above 0 below 2^50, and to 2^49 or above.
fn factor_of(size: f64) -> f64 {
    let exponent = f64_to_bits_with_nan(size) >> EXPONENT;
    let of_factor = (GREATEST + 49).wrapping_sub(exponent);
    f64_from_bits_with_nan(of_factor.clamp(1, GREATEST) << EXPONENT)
}

// A small double in fine units, or a little more; 0 where it is too great.
fn small_in(margin: f64) -> i64 {
    if margin < GREATEST_MARGIN {
        last_bits(margin + MAGIC).wrapping_add(2)
    } else {
        0
    }
}

impl Scale {
    // For costs up to this size, which cuts greater ones; `sign` is -1 where the greatest sum is wanted.
    pub fn of(size: f64, range: Range, sign: f64) -> Scale {
        let factor = factor_of(if size > 0.0 { size } else { 1.0 });
        let (bits, parts) = if range.has_infinite {
            (FEWER_BITS, 16.0)
        } else {
            (BITS, 128.0)
        };
        let grid = if range.has_infinite { 16 } else { 128 };
        Scale {
            form: Form {
                factor: factor * sign,
                bits,
                parts,
                limit: FINE_LIMIT,
                cut: (1i64 << 50).wrapping_mul(grid),
                forbidden: FORBIDDEN,
                has_infinite: range.has_infinite,
            },
            grid,
            unit: 1.0 / factor / parts,
            is_cut: size < range.size(),
            margin: small_in(2.0 * range.margin() * factor * parts),
        }
    }

    // The cost from which on pairs are far.
    pub fn far(self) -> i64 {
        if self.is_cut { self.form.cut } else { i64::MAX }
    }

    // By how much other pairs are to be worse: a checker takes the margin twice, in rounded sums.
    pub fn wanted_margin(self) -> i64 {
        self.margin.wrapping_add(self.grid).max(self.least_margin())
    }

    // The least margin.
    pub fn least_margin(self) -> i64 {
        MARGIN.wrapping_mul(self.grid)
    }
}
