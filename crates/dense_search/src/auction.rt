// The auction over all pairs (Bertsekas's): a person takes its best object and raises its price by
// the gap to the second best and a slackness, which falls from phase to phase.
use super::bids::bid;
use super::market::Market;
use super::matrix::Matrix;
use super::number::Number;
use super::reading::Reading;
use super::record::{Ended, Record};
use search_base::{ArcScans, NOBODY, place_at};
use std::alloc::{AllocError, Global};
use std::collections::VecDeque;

// Each phase has a fifth of the slackness before it.
const DIVISOR: i64 = 5;

const PHASES: usize = 32;

// The most bids of a phase, as a number a person.
const BIDS_A_PERSON: u64 = 50;

// How often in a phase dummies take cheap objects.
const CROWDINGS: usize = 8;

// The price below which as many objects lie as there are more objects than persons.
fn crowd_price<K: Number>(alloc: Global, market: &Market<'_, K>) -> Result<K, AllocError> {
    let mut prices = Vec::with_capacity(alloc, market.prices.len())?;
    for price in market.prices.iter() {
        prices.push(price.wide())?;
    }
    prices.as_mut_slice().sort_unstable();
    let more = prices.len().saturating_sub(market.objects.len());
    Ok(K::from_wide(prices.get(more).copied().unwrap_or(0)))
}

// Dummies, as many as there are more objects than persons, take the cheapest objects at the price
// of the next one, if an unowned object is dearer. Returns whether they did.
fn crowd_out<K: Number>(
    alloc: Global,
    market: &mut Market<'_, K>,
    slackness: K,
) -> Result<bool, AllocError> {
    let price = crowd_price(alloc, market)?;
    let overpriced = price.plus(slackness);
    if !market.has_unowned_above(overpriced) {
        return Ok(false);
    }
    for k in 0..market.prices.len() {
        let object = place_at(k);
        if market.price(object).is_below(price) {
            market.set_price(object, overpriced);
            let owner = market.owner(object);
            if owner != NOBODY {
                market.release(owner);
            }
        }
    }
    Ok(true)
}

fn unassigned_persons<K>(
    alloc: Global,
    market: &Market<'_, K>,
) -> Result<VecDeque<u32>, AllocError> {
    let mut queue = VecDeque::new(alloc);
    for (k, object) in market.objects.iter().enumerate() {
        if *object == NOBODY {
            queue.push_back(place_at(k))?;
        }
    }
    Ok(queue)
}

// Bids until each person has an object.
fn bid_in_turn<K: Number, R: Reading<K>>(
    alloc: Global,
    matrix: &Matrix<'_, K, R>,
    market: &mut Market<'_, K>,
    record: &mut Record,
    arc_scans: &mut ArcScans,
) -> Result<Ended, AllocError> {
    let most = (matrix.persons as u64).saturating_mul(BIDS_A_PERSON);
    let slackness = K::from_wide(record.slackness);
    let mut queue = unassigned_persons(alloc, market)?;
    for _ in record.bids..most {
        let Some(person) = queue.pop_front() else {
            return Ok(Ended::Assigned);
        };
        let loser = bid(matrix, market, person, slackness);
        record.bids = record.bids.saturating_add(1);
        arc_scans.add(matrix.objects);
        if loser != NOBODY {
            queue.push_back(loser)?;
        }
        if arc_scans.is_spent() {
            return Ok(Ended::Stopped);
        }
    }
    Ok(Ended::Long)
}

// A phase of one slackness.
fn phase<K: Number, R: Reading<K>>(
    alloc: Global,
    matrix: &Matrix<'_, K, R>,
    market: &mut Market<'_, K>,
    record: &mut Record,
    arc_scans: &mut ArcScans,
) -> Result<Ended, AllocError> {
    let slackness = K::from_wide(record.slackness);
    for _ in 0..CROWDINGS {
        match bid_in_turn(alloc, matrix, market, record, arc_scans)? {
            Ended::Assigned => {}
            ended => return Ok(ended),
        }
        let is_square = matrix.persons == matrix.objects;
        if is_square || !crowd_out(alloc, market, slackness)? {
            return Ok(Ended::Assigned);
        }
    }
    bid_in_turn(alloc, matrix, market, record, arc_scans)
}

// Phases of falling slackness, down to a few units of the prices, as far as the arc scans allow. Returns
// whether they ended.
pub fn auction<K: Number, R: Reading<K>>(
    alloc: Global,
    matrix: &Matrix<'_, K, R>,
    market: &mut Market<'_, K>,
    record: &mut Record,
    arc_scans: &mut ArcScans,
) -> Result<bool, AllocError> {
    for _ in 0..PHASES {
        if record.slackness <= 0 {
            return Ok(true);
        }
        if record.bids == 0 {
            market.release_all();
        }
        match phase(alloc, matrix, market, record, arc_scans)? {
            Ended::Stopped => return Ok(false),
            Ended::Assigned => {}
            Ended::Long | Ended::Near | Ended::Blocked => return Ok(true),
        }
        record.slackness = record.slackness / DIVISOR;
        record.bids = 0;
    }
    Ok(true)
}
