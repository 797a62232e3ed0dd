// Bids: a person takes its best object and raises its price until the second best is as good, or better by a
// slackness. Without slackness the person that owned it bids next. This is the augmenting row reduction of Jonker
// and Volgenant (A shortest augmenting path algorithm for dense and sparse linear assignment
// problems, 1987).
use super::market::Market;
use super::matrix::Matrix;
use super::number::Number;
use super::reading::Reading;
use super::rows::{two_best, unowned_below};
use search_base::{ArcScans, NOBODY, place_at};

// A chain without slackness, of persons who lose their objects in turn, has at most this part of all
// persons as bids. A longer one is a war of a few, which a search ends sooner.
const CHAIN_PART: usize = 16;

const SHORT_CHAIN: usize = 16;

// The most bids of a chain without slackness.
fn longest_chain(persons: usize) -> usize {
    (persons / CHAIN_PART).max(SHORT_CHAIN)
}

// An object that nobody owns and that is as good as a person's best one; nobody if there is none.
fn unowned_best<K: Number, R: Reading<K>>(
    matrix: &Matrix<'_, K, R>,
    market: &Market<'_, K>,
    person: u32,
    best: K,
) -> u32 {
    let limit = best.plus(K::from_wide(1));
    let (row, owners) = (matrix.row(person), market.owners.as_slice());
    unowned_below(&matrix.reading, row, market.prices, owners, limit)
}

// Gives a person an object that nobody owns and that is as good as its best one. Returns whether there
// was one.
pub fn give_unowned<K: Number, R: Reading<K>>(
    matrix: &Matrix<'_, K, R>,
    market: &mut Market<'_, K>,
    person: u32,
    best: K,
) -> bool {
    let object = unowned_best(matrix, market, person, best);
    if object == NOBODY {
        return false;
    }
    market.give(object, person);
    true
}

// Gives each person an unowned object whose least cost is the person's, if there is one, at first
// prices over these values of persons: the column reduction of Jonker and Volgenant. Returns the arc scans
// at pairs.
pub fn give_least<K: Number, R: Reading<K>>(
    matrix: &Matrix<'_, K, R>,
    market: &mut Market<'_, K>,
    firsts: &[K],
) -> usize {
    for (k, own) in firsts.iter().enumerate() {
        let _ = give_unowned(matrix, market, place_at(k), *own);
    }
    matrix.pairs()
}

// One bid: the person who is to bid next, since it lost its object, or nobody. Where another object is
// as good an unowned one is taken; if there is none, the owner loses the object and waits.
pub fn bid<K: Number, R: Reading<K>>(
    matrix: &Matrix<'_, K, R>,
    market: &mut Market<'_, K>,
    person: u32,
    slackness: K,
) -> u32 {
    let two = two_best(&matrix.reading, matrix.row(person), market.prices);
    let (gap, owner) = (two.gap().plus(slackness), market.owner(two.object));
    if !K::zero().is_below(gap) && owner != NOBODY {
        if !give_unowned(matrix, market, person, two.best) {
            market.release(owner);
            market.give(two.object, person);
        }
        return NOBODY;
    }
    if !market.price(two.object).plus(gap).is_below(K::limit()) {
        return NOBODY;
    }
    if owner != NOBODY {
        market.release(owner);
    }
    market.raise(two.object, gap);
    market.give(two.object, person);
    owner
}

// At most `most` bids without slackness of a person and of those who lose their objects in turn. Returns how
// many.
fn bid_on<K: Number, R: Reading<K>>(
    matrix: &Matrix<'_, K, R>,
    market: &mut Market<'_, K>,
    first: u32,
    most: usize,
) -> usize {
    let mut person = first;
    for made in 0..most {
        person = bid(matrix, market, person, K::zero());
        if person == NOBODY {
            return made + 1;
        }
    }
    most
}

// Bids without slackness of each person without an object, and of those who lose theirs, at most `most` in all
// and a short chain from one person on. Returns their number.
fn bid_all<K: Number, R: Reading<K>>(
    matrix: &Matrix<'_, K, R>,
    market: &mut Market<'_, K>,
    most: usize,
) -> usize {
    let (mut left, chain) = (most, longest_chain(matrix.persons));
    for k in 0..matrix.persons {
        let person = place_at(k);
        if market.object(person) == NOBODY && left > 0 {
            let made = bid_on(matrix, market, person, left.min(chain));
            left = left.saturating_sub(made);
        }
    }
    most.saturating_sub(left)
}

// As many bids as the arc scans allow.
fn bids_within<K: Number, R: Reading<K>>(matrix: &Matrix<'_, K, R>, arc_scans: &ArcScans) -> usize {
    arc_scans.left() as usize / matrix.objects.max(1)
}

// The bids of a call.
#[derive(Clone, Copy)]
pub struct Bids {
    pub made: usize,
    // Whether the arc scans ended them.
    pub are_cut: bool,
}

// At most so many bids without slackness, as far as the arc scans allow.
pub fn bid_within<K: Number, R: Reading<K>>(
    matrix: &Matrix<'_, K, R>,
    market: &mut Market<'_, K>,
    most: usize,
    arc_scans: &mut ArcScans,
) -> Bids {
    let allowed = most.min(bids_within(matrix, arc_scans));
    let made = bid_all(matrix, market, allowed);
    arc_scans.add(made.saturating_mul(matrix.objects));
    Bids {
        made,
        are_cut: made == allowed && made < most,
    }
}
