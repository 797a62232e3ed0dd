// A copy of the costs in 32 bits where they lie too far apart for one without loss: what they are above
// the least of each person, in squares of each object too, cut to whole units of a power of 2.
use super::matrix::Matrix;
use super::narrow::low_half;
use super::number::{NARROW, greater};
use super::prices::lower;
use super::reading::Reading;
use search_base::place_at;
use std::alloc::{AllocError, Global};

// Costs of a copy lie below this number, so that prices have room.
const END: i64 = NARROW / 2;

#[derive(Drop)]
pub struct Shifted {
    pub shift: u32,
    // What each object's costs are less by.
    firsts: Vec<i64>,
}

// The least of each object's costs less the least of each person's; 0 where objects stay unowned.
fn firsts_of<R: Reading<i64>>(
    alloc: Global,
    matrix: &Matrix<'_, i64, R>,
    least: &[i64],
) -> Result<Vec<i64>, AllocError> {
    if matrix.persons < matrix.objects {
        return vec![in alloc; 0i64; matrix.objects];
    }
    let mut firsts = vec![in alloc; i64::MAX; matrix.objects]?;
    for (k, own) in least.iter().enumerate() {
        let row = matrix.row(place_at(k));
        lower(&matrix.reading, row, *own, firsts.as_mut_slice());
    }
    Ok(firsts)
}

// The greatest of a row less these numbers, or `most` if that is greater.
fn greatest_of<R: Reading<i64>>(
    reading: &R,
    row: &[i64],
    own: i64,
    firsts: &[i64],
    most: i64,
) -> i64 {
    let mut greatest = most;
    for (cost, first) in row.iter().zip(firsts) {
        let number = reading.value(*cost).wrapping_sub(own).wrapping_sub(*first);
        greatest = greater(greatest, number);
    }
    greatest
}

// The least power of 2 of which numbers up to this one have whole units below the end.
fn shift_for(greatest: i64) -> u32 {
    let parts = greatest / END;
    parts.checked_ilog2().map_or(0, |log| log.wrapping_add(1))
}

fn copy_row<R: Reading<i64>>(
    reading: &R,
    row: &[i64],
    own: i64,
    firsts: &[i64],
    shift: u32,
    copy: &mut [i32],
) {
    for ((cost, first), to) in row.iter().zip(firsts).zip(copy.iter_mut()) {
        let number = reading.value(*cost).wrapping_sub(own).wrapping_sub(*first);
        *to = low_half(number.wrapping_shr(shift));
    }
}

pub fn shifted_costs<R: Reading<i64>>(
    alloc: Global,
    matrix: &Matrix<'_, i64, R>,
) -> Result<(Shifted, Vec<i32>), AllocError> {
    let least = matrix.least_values(alloc)?;
    let firsts = firsts_of(alloc, matrix, least.as_slice())?;
    let mut greatest = 0i64;
    for (k, own) in least.iter().enumerate() {
        let row = matrix.row(place_at(k));
        greatest = greatest_of(&matrix.reading, row, *own, firsts.as_slice(), greatest);
    }
    let shift = shift_for(greatest);
    let mut costs = vec![in alloc; 0i32; matrix.pairs()]?;
    let parts = costs.chunks_mut(matrix.objects.max(1));
    for (k, (part, own)) in parts.zip(&least).enumerate() {
        let row = matrix.row(place_at(k));
        copy_row(&matrix.reading, row, *own, firsts.as_slice(), shift, part);
    }
    Ok((Shifted { shift, firsts }, costs))
}

impl Shifted {
    fn in_copy(&self, price: i64, first: i64) -> i64 {
        price.wrapping_add(first).wrapping_shr(self.shift)
    }

    // Turns prices into those of the copy, if all have room there. Returns whether they have.
    pub fn enter(&self, prices: &mut [i64]) -> bool {
        let mut all = prices.iter().zip(&self.firsts);
        if !all.all(|(price, first)| {
            let price = self.in_copy(*price, *first);
            0 <= price && price < NARROW
        }) {
            return false;
        }
        for (price, first) in prices.iter_mut().zip(&self.firsts) {
            *price = self.in_copy(*price, *first);
        }
        true
    }

    // The prices of the costs themselves, where these are those of the copy.
    pub fn restore(&self, prices: &mut [i64]) {
        for (price, first) in prices.iter_mut().zip(&self.firsts) {
            *price = price.wrapping_shl(self.shift).wrapping_sub(*first);
        }
    }
}
