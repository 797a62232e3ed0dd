// Prices that somebody has: who keeps or takes a best object.
use super::bids::give_unowned;
use super::market::Market;
use super::matrix::Matrix;
use super::reading::Reading;
use super::rows::two_best;
use search_base::{NOBODY, place_at};
use std::alloc::{AllocError, Global};

// The part of all persons by which first prices are judged.
const FIRST_PART: usize = 16;

// A person leaves an object that isn't best, and takes a best one that nobody owns.
fn settle<R: Reading<i64>>(matrix: &Matrix<'_, i64, R>, market: &mut Market<'_, i64>, person: u32) {
    let two = two_best(&matrix.reading, matrix.row(person), market.prices);
    if market.object(person) != NOBODY {
        if matrix.own_value(market, person) <= two.best {
            return;
        }
        market.release(person);
    }
    if market.owner(two.object) == NOBODY {
        market.give(two.object, person);
    } else if two.gap() == 0 {
        let _ = give_unowned(matrix, market, person, two.best);
    }
}

// Settles all persons. Returns the arc scans.
pub fn settle_all<R: Reading<i64>>(
    matrix: &Matrix<'_, i64, R>,
    market: &mut Market<'_, i64>,
) -> usize {
    settle_while(matrix, market, usize::MAX, usize::MAX).0
}

// Settles all persons, unless more than `most` find no object, or three quarters of the first ones.
// Returns the arc scans, and whether all are settled.
pub fn settle_up_to<R: Reading<i64>>(
    matrix: &Matrix<'_, i64, R>,
    market: &mut Market<'_, i64>,
    most: usize,
) -> (usize, bool) {
    settle_while(matrix, market, most, matrix.persons / FIRST_PART)
}

fn settle_while<R: Reading<i64>>(
    matrix: &Matrix<'_, i64, R>,
    market: &mut Market<'_, i64>,
    most: usize,
    first: usize,
) -> (usize, bool) {
    let mut unassigned = 0usize;
    for k in 0..matrix.persons {
        let person = place_at(k);
        settle(matrix, market, person);
        if market.object(person) == NOBODY {
            unassigned = unassigned.wrapping_add(1);
        }
        if unassigned > most || (k == first && unassigned > first / 4 * 3) {
            return (k.saturating_mul(matrix.objects), false);
        }
    }
    (matrix.pairs(), true)
}

// Raises the bounds to the prices at which a person with this value for its object would take the
// others.
fn raise_bounds<R: Reading<i64>>(reading: &R, row: &[i64], value: i64, bounds: &mut [i64]) {
    for (cost, bound) in row.iter().zip(bounds.iter_mut()) {
        *bound = value.wrapping_sub(reading.value(*cost)).max(*bound);
    }
}

// Lowers the prices of unowned objects as far as nobody prefers them, and not below the least
// price. Returns the arc scans.
pub fn lower_prices<R: Reading<i64>>(
    alloc: Global,
    matrix: &Matrix<'_, i64, R>,
    market: &mut Market<'_, i64>,
) -> Result<usize, AllocError> {
    let mut bounds = vec![in alloc; market.least_price(); matrix.objects]?;
    for k in 0..matrix.persons {
        let person = place_at(k);
        let value = matrix.own_value(market, person);
        let row = matrix.row(person);
        raise_bounds(&matrix.reading, row, value, bounds.as_mut_slice());
    }
    for k in 0..market.prices.len() {
        if k < bounds.len() && market.owner(place_at(k)) == NOBODY {
            market.prices[k] = market.prices[k].min(bounds[k]);
        }
    }
    Ok(matrix.pairs())
}
