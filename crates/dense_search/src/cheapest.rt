// First objects where all prices are equal: a person takes its cheapest object, if nobody has it.
use super::market::Market;
use super::matrix::Matrix;
use super::reading::Reading;
use search_base::{NOBODY, place_at};

// The number of costs that are compared at once.
const BLOCK: usize = 64;

// More than any cost.
const FAR: i64 = 1 << 61;

// An object and its cost, as it is read.
#[derive(Clone, Copy)]
struct Cheapest {
    object: u32,
    cost: i64,
}

// Whether a cost is below the limit. Compilers make vectors of this loop, which keeps the signs of
// the differences.
fn is_any_below<R: Reading<i64>>(reading: &R, costs: &[i64], limit: i64) -> bool {
    let mut signs = 0i64;
    for cost in costs {
        signs |= reading.value(*cost).wrapping_sub(limit);
    }
    signs < 0
}

// The cheapest object with those of a block that begins at this place.
fn cheapest_with_block<R: Reading<i64>>(
    cheapest: Cheapest,
    reading: &R,
    costs: &[i64],
    at: usize,
) -> Cheapest {
    let mut cheapest = cheapest;
    for (k, cost) in costs.iter().enumerate() {
        let cost = reading.value(*cost);
        if cost < cheapest.cost {
            let object = place_at(at.wrapping_add(k));
            cheapest = Cheapest { object, cost };
        }
    }
    cheapest
}

// The cheapest object with those of a part of a row that begins at this place.
fn cheapest_with_part<R: Reading<i64>>(
    cheapest: Cheapest,
    reading: &R,
    part: &[i64],
    from: usize,
) -> Cheapest {
    let mut cheapest = cheapest;
    let mut at = from;
    for costs in part.chunks(BLOCK) {
        if is_any_below(reading, costs, cheapest.cost) {
            cheapest = cheapest_with_block(cheapest, reading, costs, at);
        }
        at = at.wrapping_add(BLOCK);
    }
    cheapest
}

// The cheapest object of a row, begun at a place, so that rows with many equal costs give different
// ones; nobody if the row is empty.
fn cheapest_of<R: Reading<i64>>(reading: &R, row: &[i64], from: usize) -> u32 {
    let none = Cheapest {
        object: NOBODY,
        cost: FAR,
    };
    let from = from.min(row.len());
    let (first, last) = row.split_at(from);
    let cheapest = cheapest_with_part(none, reading, last, from);
    cheapest_with_part(cheapest, reading, first, 0).object
}

// Gives each person its cheapest object, if nobody before it has this one. Returns the arc scans at
// pairs.
pub fn take_cheapest<R: Reading<i64>>(
    matrix: &Matrix<'_, i64, R>,
    market: &mut Market<'_, i64>,
) -> usize {
    for k in 0..matrix.persons {
        let person = place_at(k);
        let from = matrix.first_place(person);
        let object = cheapest_of(&matrix.reading, matrix.row(person), from);
        if market.owner(object) == NOBODY {
            market.give(object, person);
        }
    }
    matrix.pairs()
}
