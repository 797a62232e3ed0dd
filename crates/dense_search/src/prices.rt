// First and last prices.
use super::matrix::Matrix;
use super::number::{Number, lesser};
use super::reading::Reading;
use search_base::place_at;

// Greater prices of a caller, and lower ones than its negative, are cut.
const GREATEST_PRICE: i64 = 1 << 60;

// Lowers the least numbers to those of a row less its own number.
pub fn lower<K: Number, R: Reading<K>>(reading: &R, row: &[K], own: K, least: &mut [K]) {
    for (cost, least) in row.iter().zip(least.iter_mut()) {
        *least = lesser(*least, reading.value(*cost).minus(own));
    }
}

fn negate<K: Number>(prices: &mut [K]) {
    for price in prices.iter_mut() {
        *price = K::zero().minus(*price);
    }
}

fn fill<K: Number>(prices: &mut [K], value: K) {
    for price in prices.iter_mut() {
        *price = value;
    }
}

// The negated least cost of each object, less these values of persons.
fn least_of_columns<K: Number, R: Reading<K>>(
    matrix: &Matrix<'_, K, R>,
    firsts: &[K],
    prices: &mut [K],
) {
    fill(prices, K::far());
    for (k, own) in firsts.iter().enumerate() {
        lower(&matrix.reading, matrix.row(place_at(k)), *own, prices);
    }
    negate(prices);
}

// Prices without first prices. With more objects than persons they are equal: bids and searches
// raise only prices of owned objects, and these stay owned, so unowned objects stay cheapest.
// Returns the arc scans.
pub fn begin<K: Number, R: Reading<K>>(
    matrix: &Matrix<'_, K, R>,
    firsts: &[K],
    prices: &mut [K],
) -> usize {
    if matrix.persons < matrix.objects {
        fill(prices, K::zero());
        return 0;
    }
    least_of_columns(matrix, firsts, prices);
    matrix.pairs()
}

// Prices in units of a power of 2, cut to whole units. Exact prices stay exact, since costs are
// whole in these units.
pub fn reduce(prices: &mut [i64], shift: u32) {
    for price in prices.iter_mut() {
        *price = price.wrapping_shr(shift);
    }
}

// Prices in a unit less by a power of 2.
pub fn magnify(prices: &mut [i64], shift: u32) {
    for price in prices.iter_mut() {
        *price = price.wrapping_shl(shift);
    }
}

// Lets the least price be 0.
pub fn begin_at_zero(prices: &mut [i64]) {
    let least = prices.iter().copied().min().unwrap_or(0);
    for price in prices.iter_mut() {
        *price = price.saturating_sub(least);
    }
}

// Cuts prices, so that sums have room.
pub fn cut(prices: &mut [i64]) {
    for price in prices.iter_mut() {
        *price = (*price)
            .min(GREATEST_PRICE)
            .max(GREATEST_PRICE.wrapping_neg());
    }
}
