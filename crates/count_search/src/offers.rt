// What a row is offered: values of pairs, cost and price, of which less is better.
use super::problem::Row;
use super::values::{FAR, price_at};
use search_base::{Valued, select};

/// A pair's value, or that of staying out.
#[derive(Clone, Copy)]
pub struct Offer {
    pub value: i64,
    /// The next best value in the pair's group, `FAR` if there is none.
    pub next: i64,
    /// The place of the pair among all; `NOBODY` for staying out.
    pub pair: u32,
}

impl Valued for Offer {
    fn value(&self) -> i64 {
        self.value
    }
}

/// The best pair of a row, by its place in it, and the two least values.
#[derive(Clone, Copy)]
pub struct Two {
    pub place: usize,
    pub best: i64,
    pub second: i64,
}

// A byte of 1, shifted so far to the left, puts a value out of reach.
const CLOSED: u32 = 61;

// So many are sought one by one.
const FEW_OFFERS: usize = 6;

/// The place of no pair.
pub const NO_PLACE: usize = usize::MAX;

impl Two {
    pub fn none() -> Two {
        Two {
            place: NO_PLACE,
            best: FAR,
            second: FAR,
        }
    }

    #[inline(always)]
    pub fn with(self, place: usize, value: i64) -> Two {
        if value >= self.second {
            self
        } else if value < self.best {
            Two {
                place,
                best: value,
                second: self.best,
            }
        } else {
            Two {
                second: value,
                ..self
            }
        }
    }

    // The same without branches, which in a short row would go either way.
    #[inline(always)]
    fn with_either(self, place: usize, value: i64) -> Two {
        Two {
            place: if value < self.best { place } else { self.place },
            best: self.best.min(value),
            second: self.second.min(self.best.max(value)),
        }
    }
}

/// Brings the least so many offers to the front, and the next one after them. Few are sought one by one,
/// which goes without branches.
pub fn bring_least(offers: &mut [Offer], count: usize) {
    if count > FEW_OFFERS {
        select(offers, count);
        return;
    }
    for turn in 0..=count {
        let least = least_from(offers, turn);
        if turn < offers.len() && least < offers.len() {
            offers.swap(turn, least);
        }
    }
}

// The place of the first least offer from a place on.
#[inline(always)]
fn least_from(offers: &[Offer], from: usize) -> usize {
    let (mut place, mut best) = (from, i64::MAX);
    for (k, offer) in offers.iter().enumerate().skip(from) {
        place = if offer.value < best { k } else { place };
        best = best.min(offer.value);
    }
    place
}

#[inline(always)]
pub fn value_at(column: u32, cost: i64, prices: &[i64], scale: i64) -> i64 {
    cost.wrapping_mul(scale)
        .wrapping_add(price_at(prices, column as usize))
}

/// The two best of a row's pairs.
#[inline(always)]
pub fn two_best_of_all(row: Row<'_>, prices: &[i64], scale: i64) -> Two {
    let mut two = Two::none();
    for (k, (column, cost)) in row.columns.iter().zip(row.costs).enumerate() {
        two = two.with_either(k, value_at(*column, *cost, prices, scale));
    }
    two
}

/// The two best of a row's pairs whose byte is 0; where it is 1, a value is out of reach.
#[inline(always)]
pub fn two_best_open(row: Row<'_>, bytes: &[u8], prices: &[i64], scale: i64) -> Two {
    let mut two = Two::none();
    let pairs = row.columns.iter().zip(row.costs);
    for (k, ((column, cost), byte)) in pairs.zip(bytes).enumerate() {
        let closed = i64::from(*byte).wrapping_shl(CLOSED);
        let value = value_at(*column, *cost, prices, scale).wrapping_add(closed);
        two = two.with_either(k, value);
    }
    two
}
