// The core solved as a sparse problem, and passes over all pairs, until no pair beats the prices.
use super::course::Course;
use super::market::Market;
use super::matrix::Matrix;
use super::pick::{Core, pick_by_prices};
use super::prices::{begin_at_zero, reduce};
use super::pricing::{Better, better_pairs, merge, pairs_around};
use super::reading::Reading;
use super::record::{Ended, Record};
use search_base::ArcScans;
use sparse_search::{Pair, SparseProblem};
use std::alloc::{AllocError, Global};

// The most passes.
const PASSES: u64 = 20;

// The arc scans that a core may take whatever the budget is, as passes over all pairs: it is forgotten
// where a call stops.
const PASSES_A_CORE: u64 = 8;

// What is taken from all costs of a core, and the factor that the rest has in common.
#[derive(Clone, Copy)]
struct Unit {
    least: i64,
    factor: i64,
}

// The greatest common factor (Euclid's).
fn common_factor(one: u64, other: u64) -> u64 {
    let (mut one, mut other) = (one, other);
    for _ in 0..128 {
        match one.checked_rem(other) {
            None => return one,
            Some(left) => {
                one = other;
                other = left;
            }
        }
    }
    1
}

fn least_cost<R: Reading<i64>>(reading: &R, pairs: &[Pair]) -> i64 {
    let mut least = i64::MAX;
    for pair in pairs {
        least = least.min(reading.value(pair.cost));
    }
    least
}

fn unit_of<R: Reading<i64>>(reading: &R, pairs: &[Pair]) -> Unit {
    let least = least_cost(reading, pairs);
    let mut factor = 0u64;
    for pair in pairs {
        if factor != 1 {
            let cost = reading.value(pair.cost).wrapping_sub(least);
            factor = common_factor(cost.cast_unsigned(), factor);
        }
    }
    Unit {
        least,
        factor: factor.cast_signed().max(1),
    }
}

// The pairs with costs in this unit.
fn in_unit<R: Reading<i64>>(
    alloc: Global,
    reading: &R,
    pairs: &[Pair],
    unit: Unit,
) -> Result<Vec<Pair>, AllocError> {
    let mut turned = Vec::with_capacity(alloc, pairs.len())?;
    for pair in pairs {
        let cost = reading.value(pair.cost).wrapping_sub(unit.least);
        turned.push(Pair {
            object: pair.object,
            cost: cost.checked_div(unit.factor).unwrap_or(cost),
        })?;
    }
    Ok(turned)
}

fn divide(prices: &mut [i64], factor: i64) {
    if factor > 1 {
        for price in prices.iter_mut() {
            *price = price.wrapping_div(factor);
        }
    }
}

fn multiply(prices: &mut [i64], factor: i64) {
    if factor > 1 {
        for price in prices.iter_mut() {
            *price = price.wrapping_mul(factor);
        }
    }
}

// The most arc scans of a step that takes at least so many, or 0 if there is no bound.
fn left_for(arc_scans: ArcScans, least: u64) -> u64 {
    if arc_scans.limit == u64::MAX {
        0
    } else {
        arc_scans.left().max(least)
    }
}

// Solves a core from the prices and objects of the market. `Long` if it takes too many arc scans.
fn solve_core<R: Reading<i64>>(
    alloc: Global,
    matrix: &Matrix<'_, i64, R>,
    market: &mut Market<'_, i64>,
    core: &Core,
    arc_scans: &mut ArcScans,
) -> Result<Ended, AllocError> {
    let unit = unit_of(&matrix.reading, core.pairs.as_slice());
    let pairs = in_unit(alloc, &matrix.reading, core.pairs.as_slice(), unit)?;
    let problem = SparseProblem {
        starts: core.starts.as_slice(),
        pairs: pairs.as_slice(),
        objects: matrix.objects,
    };
    let mut record = sparse_search::Record::warm();
    begin_at_zero(market.prices);
    divide(market.prices, unit.factor);
    let most = left_for(
        *arc_scans,
        (matrix.pairs() as u64).saturating_mul(PASSES_A_CORE),
    );
    let (prices, objects) = (&mut *market.prices, &mut *market.objects);
    let outcome = sparse_search::search(alloc, problem, prices, objects, &mut record, most)?;
    arc_scans.done = arc_scans.done.saturating_add(record.arc_scans);
    let is_stopped = matches!(outcome, sparse_search::Outcome::Stopped);
    let is_best = matches!(outcome, sparse_search::Outcome::Best);
    if is_stopped {
        reduce(market.prices, record.shift);
    }
    multiply(market.prices, unit.factor);
    market.enter_objects();
    Ok(if is_best {
        Ended::Assigned
    } else {
        Ended::Long
    })
}

// Solves a core, and larger ones, until no pair beats the prices. `Long` if most persons have better
// pairs, and `Near` if about as many as before have some; the record then has the mean of what they
// would gain by them.
fn solve_from<R: Reading<i64>>(
    alloc: Global,
    matrix: &Matrix<'_, i64, R>,
    market: &mut Market<'_, i64>,
    record: &mut Record,
    arc_scans: &mut ArcScans,
    first: Core,
    may_copy: bool,
) -> Result<Ended, AllocError> {
    let mut core = first;
    let mut course = Course::begin(matrix.persons, may_copy);
    for _ in 0..PASSES {
        record.passes = record.passes.saturating_add(1);
        let begun = arc_scans.done;
        match solve_core(alloc, matrix, market, &core, arc_scans)? {
            Ended::Assigned => {}
            ended => return Ok(ended),
        }
        course.note_core(core.pairs.len(), arc_scans.since(begun));
        if arc_scans.left() < matrix.pairs() as u64 {
            return Ok(Ended::Stopped);
        }
        let better = better_pairs(alloc, matrix, market)?;
        arc_scans.add(matrix.pairs());
        if better.persons == 0 {
            return Ok(Ended::Assigned);
        }
        record.slackness = better.mean_gain();
        if let Some(ended) = course.end(&better) {
            return Ok(ended);
        }
        course.note_pass(&better);
        core = merge(alloc, &core, &better.core, matrix.persons)?;
    }
    Ok(Ended::Long)
}

// Solves cores from the prices of the market.
pub fn solve_by_cores<R: Reading<i64>>(
    alloc: Global,
    matrix: &Matrix<'_, i64, R>,
    market: &mut Market<'_, i64>,
    record: &mut Record,
    arc_scans: &mut ArcScans,
    may_copy: bool,
) -> Result<Ended, AllocError> {
    let core = pick_by_prices(alloc, matrix, market)?;
    arc_scans.add(matrix.pairs());
    solve_from(alloc, matrix, market, record, arc_scans, core, may_copy)
}

// Goes on from a core that an earlier call solved, and of which only prices and objects are left:
// these give one of the same kind. `Blocked` if a person has no object.
pub fn resume_cores<R: Reading<i64>>(
    alloc: Global,
    matrix: &Matrix<'_, i64, R>,
    market: &mut Market<'_, i64>,
    record: &mut Record,
    arc_scans: &mut ArcScans,
) -> Result<Ended, AllocError> {
    if market.unassigned() > 0 || record.passes > PASSES {
        return Ok(Ended::Blocked);
    }
    let around = pairs_around(alloc, matrix, market)?;
    arc_scans.add(matrix.pairs());
    record.slackness = around.mean_gain();
    if around.persons == 0 {
        return Ok(Ended::Assigned);
    }
    let course = Course::begin(matrix.persons, false);
    if record.passes > 1 && course.has_most(&around) {
        return Ok(Ended::Long);
    }
    solve_from(alloc, matrix, market, record, arc_scans, around.core, false)
}
