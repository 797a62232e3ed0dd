// The best answer of a row to whole prices.
use super::offers::Offer;
use super::problem::{Problem, Row};
use super::state::{State, count_chosen};
use super::values::{FAR, count_at, set_byte, set_count};
use search_base::{place_at, select};
use std::alloc::{AllocError, Global};

/// What rows are offered, one after another.
#[derive(Drop)]
pub struct Answers {
    offers: Vec<Offer>,
    places: Vec<u32>,
}

// The greatest value of the pairs that a row has, and the least one of those that it may take.
#[derive(Clone, Copy)]
pub struct Range {
    pub held: i64,
    pub open: i64,
}

const NO_RANGE: Range = Range {
    held: i64::MIN,
    open: i64::MAX,
};

#[inline(always)]
fn value_of(state: &State, column: u32, cost: i64) -> i64 {
    cost.wrapping_add(state.price(column as usize))
}

/// The values of a row's pairs.
pub fn range_of(problem: &Problem<'_>, state: &mut State, place: u32) -> Range {
    let row = problem.row(place);
    if state.is_grouped {
        return grouped_range_of(state, row);
    }
    match state.prices_of(place, row) {
        Some(prices) => Range {
            held: most_held(state, row),
            open: least_open(row.costs, prices, state.chosen(row)),
        },
        None => plain_range_of(state, row),
    }
}

/// The greatest value of the pairs that a row has.
pub fn most_held(state: &State, row: Row<'_>) -> i64 {
    let mut most = i64::MIN;
    let mut from = 0usize;
    for _pair in row.columns {
        let Some(place) = state.next_chosen(row, from) else {
            return most;
        };
        let cost = row.costs.get(place).copied().unwrap_or(0);
        most = most.max(value_of(state, count_at(row.columns, place), cost));
        from = place.wrapping_add(1);
    }
    most
}

// The least value of the pairs that it may take.
fn least_open(costs: &[i64], prices: &[i64], bytes: &[u8]) -> i64 {
    let mut least = i64::MAX;
    for ((cost, price), byte) in costs.iter().zip(prices).zip(bytes) {
        let value = cost.wrapping_add(*price);
        least = least.min(if *byte == 0 { value } else { i64::MAX });
    }
    least
}

fn plain_range_of(state: &State, row: Row<'_>) -> Range {
    let mut range = NO_RANGE;
    let pairs = row.columns.iter().zip(row.costs).zip(state.chosen(row));
    for ((column, cost), byte) in pairs {
        let value = value_of(state, *column, *cost);
        if *byte != 0 {
            range.held = range.held.max(value);
        } else {
            range.open = range.open.min(value);
        }
    }
    range
}

// The same with groups, of which those that a row takes aren't open.
fn grouped_range_of(state: &mut State, row: Row<'_>) -> Range {
    let stamp = state.next_stamp();
    state.mark_taken(row, stamp);
    let mut range = NO_RANGE;
    let pairs = row.columns.iter().zip(row.costs).zip(state.chosen(row));
    for ((column, cost), byte) in pairs {
        let value = value_of(state, *column, *cost);
        if *byte != 0 {
            range.held = range.held.max(value);
        } else if !state.is_marked(*column, stamp) {
            range.open = range.open.min(value);
        }
    }
    range
}

// Less is better, and of two equal ones that which the row has.
fn rank(value: i64, is_held: bool) -> i64 {
    value.wrapping_mul(2).wrapping_add(i64::from(!is_held))
}

impl Answers {
    pub fn new(alloc: Global, problem: &Problem<'_>) -> Result<Answers, AllocError> {
        Ok(Answers {
            offers: Vec::new(alloc),
            places: vec![in alloc; 0u32; problem.column_count()]?,
        })
    }

    // Whether no pair that the row has is worse than another of its group, or has another next to it.
    fn keeps_groups(&mut self, state: &mut State, row: Row<'_>) -> Result<bool, AllocError> {
        self.offer_groups(state, row)?;
        let mut held = 0u32;
        for offer in &self.offers {
            if state.is_chosen(offer.pair) {
                held = held.wrapping_add(1);
            }
        }
        Ok(held == count_chosen(state.chosen(row)))
    }

    /// Whether a row's plan is a best answer to the prices.
    pub fn is_best(
        &mut self,
        problem: &Problem<'_>,
        state: &mut State,
        place: u32,
    ) -> Result<bool, AllocError> {
        let row = problem.row(place);
        let (least, most) = (state.least_of(place), state.most_of(place));
        let count = state.held_of(place);
        if count < least || count > most {
            return Ok(false);
        }
        if state.is_grouped && !self.keeps_groups(state, row)? {
            return Ok(false);
        }
        let range = range_of(problem, state, place);
        let outside = state.price(state.outside());
        let is_worse = (count > 0 && range.held > range.open)
            || (count < most && range.open < outside)
            || (count > least && range.held > outside);
        Ok(!is_worse)
    }

    fn offer_pairs(&mut self, state: &State, row: Row<'_>) -> Result<(), AllocError> {
        self.offers.clear();
        let pairs = row.columns.iter().zip(row.costs).zip(state.chosen(row));
        for (k, ((column, cost), byte)) in pairs.enumerate() {
            let value = rank(value_of(state, *column, *cost), *byte != 0);
            let pair = place_at(row.first.wrapping_add(k));
            self.offers.push(Offer {
                value,
                next: FAR,
                pair,
            })?;
        }
        Ok(())
    }

    // The best pair of each group.
    fn offer_groups(&mut self, state: &mut State, row: Row<'_>) -> Result<(), AllocError> {
        self.offers.clear();
        let stamp = state.next_stamp();
        for (k, (column, cost)) in row.columns.iter().zip(row.costs).enumerate() {
            let pair = place_at(row.first.wrapping_add(k));
            let value = rank(value_of(state, *column, *cost), state.is_chosen(pair));
            let offer = Offer {
                value,
                next: FAR,
                pair,
            };
            let key = state.key(*column);
            if state.mark(*column, stamp) {
                set_count(self.places.as_mut_slice(), key, place_at(self.offers.len()));
                self.offers.push(offer)?;
            } else {
                self.improve(key, offer);
            }
        }
        Ok(())
    }

    fn improve(&mut self, key: usize, offer: Offer) {
        let place = count_at(self.places.as_slice(), key) as usize;
        if place < self.offers.len() && offer.value < self.offers[place].value {
            self.offers[place] = offer;
        }
    }

    /// Gives a row its best answer, of equal ones what it has.
    pub fn answer(
        &mut self,
        problem: &Problem<'_>,
        state: &mut State,
        place: u32,
    ) -> Result<(), AllocError> {
        let row = problem.row(place);
        if state.is_grouped {
            self.offer_groups(state, row)?;
        } else {
            self.offer_pairs(state, row)?;
        }
        let (least, most) = (state.least_of(place), state.most_of(place));
        let offers = self.offers.as_mut_slice();
        select(offers, most as usize);
        select(
            offers.get_mut(0..most as usize).unwrap_or(&mut []),
            least as usize,
        );
        release_all(state, row, place);
        let limit = rank(state.price(state.outside()), false);
        self.take_best(state, place, limit);
        Ok(())
    }

    // Takes the least offers up to the least count, and those below the limit up to the greatest.
    fn take_best(&mut self, state: &mut State, place: u32, limit: i64) {
        let (least, most) = (state.least_of(place), state.most_of(place));
        for (k, offer) in self.offers.iter().enumerate().take(most as usize) {
            if k < least as usize || offer.value < limit {
                state.choose(place, offer.pair);
            }
        }
    }
}

fn release_all(state: &mut State, row: Row<'_>, place: u32) {
    let end = row.first.saturating_add(row.columns.len());
    for pair in row.first..end {
        set_byte(state.plan.as_mut_slice(), pair, 0);
    }
    set_count(state.held.as_mut_slice(), place as usize, 0);
}
