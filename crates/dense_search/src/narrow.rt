// A copy of the costs in 32 bits, where they lie close together.
use super::matrix::Matrix;
use super::number::{NARROW, Number};
use super::reading::Reading;
use search_base::place_at;
use std::alloc::{AllocError, Global};

// The low 32 bits of a number.
pub fn low_half(number: i64) -> i32 {
    let bits = number.cast_unsigned() & 0xffff_ffff;
    (bits as u32).cast_signed()
}

// Copies a row less a number. Returns whether all of it fits.
fn copy_row<R: Reading<i64>>(reading: &R, row: &[i64], first: i64, copy: &mut [i32]) -> bool {
    let mut above = 0u64;
    for (cost, to) in row.iter().zip(copy.iter_mut()) {
        let number = reading.value(*cost).wrapping_sub(first);
        above |= number.wrapping_add(NARROW).cast_unsigned();
        *to = low_half(number);
    }
    above < NARROW.cast_unsigned() * 2
}

// The costs less the first one, row by row, if they lie close enough to it.
pub fn narrow_costs<R: Reading<i64>>(
    alloc: Global,
    matrix: &Matrix<'_, i64, R>,
) -> Result<Option<Vec<i32>>, AllocError> {
    let first = matrix.value(0, 0);
    let mut copy = vec![in alloc; 0i32; matrix.pairs()]?;
    let parts = copy.chunks_mut(matrix.objects.max(1));
    for (k, part) in parts.enumerate() {
        if !copy_row(&matrix.reading, matrix.row(place_at(k)), first, part) {
            return Ok(None);
        }
    }
    Ok(Some(copy))
}

// Whether prices, none below 0, have room among the costs of a copy.
pub fn are_narrow(prices: &[i64]) -> bool {
    prices.iter().all(|price| *price < NARROW)
}

// Prices in 32 bits, which hold those that a search over a copy left.
pub fn narrow_prices(alloc: Global, prices: &[i64]) -> Result<Vec<i32>, AllocError> {
    let mut narrow = Vec::with_capacity(alloc, prices.len())?;
    for price in prices {
        narrow.push(low_half(*price))?;
    }
    Ok(narrow)
}

// Prices in 64 bits.
pub fn widen(narrow: &[i32], prices: &mut [i64]) {
    for (from, to) in narrow.iter().zip(prices.iter_mut()) {
        *to = from.wide();
    }
}
