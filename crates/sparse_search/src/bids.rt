// First prices and bids without slackness: the column reduction and the augmenting row reduction of
// Jonker and Volgenant (1987).
use super::market::Market;
use super::problem::{Pair, Scaled, SparseProblem};
use super::row::{FAR, Two, two_best};
use search_base::{ArcScans, NOBODY, at, is_unowned, place_at};

fn lower_to_costs(pairs: &[Pair], prices: &mut [i64]) {
    for pair in pairs {
        let place = pair.object as usize;
        if place < prices.len() {
            prices[place] = prices[place].min(pair.cost);
        }
    }
}

fn greatest_below_far(prices: &[i64]) -> i64 {
    let mut greatest = FAR.wrapping_neg();
    for price in prices {
        if *price < FAR {
            greatest = greatest.max(*price);
        }
    }
    greatest
}

/// Prices at which the least value of each listed object is the same. Returns whether each object is
/// listed.
pub fn set_first_prices(problem: SparseProblem<'_>, market: &mut Market) -> bool {
    let prices = market.prices.as_mut_slice();
    for price in prices.iter_mut() {
        *price = FAR;
    }
    lower_to_costs(problem.pairs, prices);
    let greatest = greatest_below_far(prices);
    let mut are_listed = true;
    for price in prices.iter_mut() {
        are_listed = are_listed && *price < FAR;
        *price = greatest.wrapping_sub(*price).max(0);
    }
    are_listed
}

// One bid: the price rises until the second best is as good. Returns the person who lost the object;
// nobody bids on if the price would stay, but the second best is taken if it is as good and unowned.
fn bid(market: &mut Market, two: Two, person: u32) -> Option<u32> {
    let owner = at(market.owners.as_slice(), two.object);
    let gap = two.gap().unwrap_or(0);
    if gap == 0 && owner != NOBODY {
        if is_unowned(market.owners.as_slice(), two.other) {
            market.give(two.other, person);
        }
        return None;
    }
    let place = two.object as usize;
    if place >= market.prices.len() {
        return None;
    }
    market.prices[place] = market.prices[place].wrapping_add(gap);
    if owner != NOBODY {
        market.leave(owner);
    }
    market.give(two.object, person);
    Some(owner)
}

// Bids of a person and of those who lose their objects in turn, at most so many. Returns how many.
fn bid_on(
    scaled: Scaled<'_>,
    market: &mut Market,
    first: u32,
    most: u64,
    arc_scans: &mut ArcScans,
) -> u64 {
    let mut person = first;
    for made in 0..most {
        let row = scaled.problem.row(person);
        arc_scans.add(row.len());
        let two = two_best(row, market.prices.as_slice(), scaled.shift);
        match bid(market, two, person) {
            Some(next) if next != NOBODY && !arc_scans.is_spent() => person = next,
            _ => return made + 1,
        }
    }
    most
}

/// Lets persons without an object bid, from this one on, and those who lose their objects, while bids
/// and arc scans are left. Returns the person to go on from, at the end the number of persons, and how
/// many bids are left.
pub fn bid_all(
    scaled: Scaled<'_>,
    market: &mut Market,
    first: u32,
    most: u64,
    arc_scans: &mut ArcScans,
) -> (u32, u64) {
    let persons = place_at(scaled.problem.persons());
    let mut left = most;
    for person in first..persons {
        if left == 0 {
            return (persons, 0);
        }
        if arc_scans.is_spent() {
            return (person, left);
        }
        if at(market.objects.as_slice(), person) == NOBODY {
            let made = bid_on(scaled, market, person, left, arc_scans);
            left = left.saturating_sub(made);
        }
    }
    (persons, left)
}
