// Searches for all persons without an object, as far as their pace promises an early end.
use super::full_search::FullSearch;
use super::market::Market;
use super::matrix::Matrix;
use super::number::Number;
use super::reading::Reading;
use super::record::Ended;
use super::settling::lower_prices;
use super::shortest::Search;
use search_base::{ArcScans, NOBODY, Pace, place_at};
use std::alloc::{AllocError, Global};

// The arc scans that searches may take, and how they are foretold.
#[derive(Clone, Copy)]
pub struct Allowance {
    pub most: u64,
    // Whether searches get longer, as they do from first prices: the fewer objects are unowned, the
    // farther they lie.
    pub is_growing: bool,
}

impl Allowance {
    // As how many searches of the pace so far those for the persons left count, if so many objects stay
    // unowned.
    fn searches_for(self, left: usize, spare: usize) -> usize {
        if !self.is_growing {
            return left;
        }
        let times = left.saturating_add(spare) / spare.max(1);
        let doublings = times.checked_ilog2().unwrap_or(0) as usize;
        left.saturating_mul(doublings.wrapping_add(1)) / 4 * 3
    }
}

// Assigns each person without an object, as long as the searches keep to the allowance. At least
// one search ends, so that calls of any budget get on.
pub fn augment_all<K: Number, R: Reading<K>>(
    alloc: Global,
    matrix: &Matrix<'_, K, R>,
    market: &mut Market<'_, K>,
    allowed: Allowance,
    arc_scans: &mut ArcScans,
) -> Result<Ended, AllocError> {
    let mut left = market.unassigned();
    let few = if allowed.is_growing { 0 } else { left / 16 };
    if left == 0 {
        return Ok(Ended::Assigned);
    }
    let mut search = Search::new(alloc, market)?;
    let first = arc_scans.done;
    let spare = matrix.objects.saturating_sub(matrix.persons);
    let mut pace = Pace::begin(left, *arc_scans, allowed.most);
    for k in 0..matrix.persons {
        let person = place_at(k);
        if market.object(person) == NOBODY {
            if !search.augment(matrix, market, person, arc_scans)? {
                return Ok(Ended::Blocked);
            }
            left = left.saturating_sub(1);
            if left == 0 {
                return Ok(Ended::Assigned);
            }
            if search.is_beyond {
                return Ok(Ended::Blocked);
            }
            let is_over = arc_scans.since(first) > allowed.most;
            let searches = allowed.searches_for(left, spare);
            if left > few && (is_over || !pace.goes_on(*arc_scans, searches)) {
                return Ok(Ended::Long);
            }
            if arc_scans.is_spent() {
                return Ok(Ended::Stopped);
            }
        }
    }
    Ok(Ended::Assigned)
}

// Assigns each person without an object by scans of whole rows, as long as the arc scans allow.
pub fn augment_by_rows<K: Number, R: Reading<K>>(
    alloc: Global,
    matrix: &Matrix<'_, K, R>,
    market: &mut Market<'_, K>,
    most: u64,
    arc_scans: &mut ArcScans,
) -> Result<Ended, AllocError> {
    let mut search = FullSearch::new(alloc);
    let mut left = market.unassigned();
    let mut pace = Pace::begin(left, *arc_scans, most);
    for k in 0..matrix.persons {
        let person = place_at(k);
        if market.object(person) == NOBODY {
            if arc_scans.is_spent() {
                return Ok(Ended::Stopped);
            }
            if search.is_beyond || !search.augment(matrix, market, person, arc_scans)? {
                return Ok(Ended::Blocked);
            }
            left = left.saturating_sub(1);
            if left > 0 && !pace.goes_on(*arc_scans, left) {
                return Ok(Ended::Long);
            }
        }
    }
    Ok(Ended::Assigned)
}

// Brings the prices of unowned objects down to the least one.
pub fn lower_unowned<R: Reading<i64>>(
    alloc: Global,
    matrix: &Matrix<'_, i64, R>,
    market: &mut Market<'_, i64>,
    arc_scans: &mut ArcScans,
) -> Result<Ended, AllocError> {
    if market.has_overpriced_unowned() {
        arc_scans.add(lower_prices(alloc, matrix, market)?);
    }
    let mut search = Search::new(alloc, market)?;
    for _ in 0..matrix.objects {
        if !search.lower_one(matrix, market, arc_scans)? {
            return Ok(Ended::Assigned);
        }
        if arc_scans.is_spent() {
            return Ok(Ended::Stopped);
        }
    }
    Ok(Ended::Assigned)
}
