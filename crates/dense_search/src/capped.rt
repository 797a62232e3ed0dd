// A copy of the costs in 32 bits where some lie far above all others, as those of forbidden pairs do.
// These come down to one number. A plan without them is best among all plans, at the same prices.
use super::market::Market;
use super::matrix::Matrix;
use super::narrow::low_half;
use super::number::{NARROW, lesser};
use super::reading::Reading;
use search_base::place_at;
use std::alloc::{AllocError, Global};

// Costs that aren't far above the others lie this close to the first person's least one.
const CLOSE: i64 = NARROW / 16;

// Each person has a close cost, and all have so many on average. With fewer there is seldom a plan of
// these alone.
const MEAN: usize = 2;

#[derive(Drop)]
pub struct Capped {
    pub costs: Vec<i32>,
    // What the copy has as 0.
    pub first: i64,
}

// Copies a row less a number. Returns how many costs are close; nothing if another one isn't far above
// them.
fn copy_row<R: Reading<i64>>(
    reading: &R,
    row: &[i64],
    first: i64,
    copy: &mut [i32],
) -> Option<usize> {
    let (mut close, mut others) = (0usize, 0usize);
    for (cost, to) in row.iter().zip(copy.iter_mut()) {
        let number = reading.value(*cost).wrapping_sub(first);
        let is_close = -CLOSE <= number && number < CLOSE;
        close = close.wrapping_add(usize::from(is_close));
        others = others.wrapping_add(usize::from(!is_close && number < NARROW));
        *to = low_half(lesser(number, NARROW - 1));
    }
    (others == 0).then_some(close)
}

// The costs less the first person's least one, row by row, if each is close to it or far above, and
// enough are close.
pub fn capped_costs<R: Reading<i64>>(
    alloc: Global,
    matrix: &Matrix<'_, i64, R>,
) -> Result<Option<Capped>, AllocError> {
    let (first, _) = matrix.ends_of(0);
    let mut costs = vec![in alloc; 0i32; matrix.pairs()]?;
    let (mut all, mut least) = (0usize, 0usize);
    for (k, part) in costs.chunks_mut(matrix.objects.max(1)).enumerate() {
        let row = matrix.row(place_at(k));
        let close = copy_row(&matrix.reading, row, first, part).unwrap_or(0);
        all = all.wrapping_add(close);
        least = least.wrapping_add(MEAN);
        if close == 0 || all < least {
            return Ok(None);
        }
    }
    Ok(Some(Capped { costs, first }))
}

// Whether a person's own cost is one that came down.
pub fn is_cut<R: Reading<i64>>(
    matrix: &Matrix<'_, i64, R>,
    market: &Market<'_, i64>,
    first: i64,
) -> bool {
    for (k, object) in market.objects.iter().enumerate() {
        let value = matrix.value(place_at(k), *object);
        if value.wrapping_sub(first) >= NARROW {
            return true;
        }
    }
    false
}
