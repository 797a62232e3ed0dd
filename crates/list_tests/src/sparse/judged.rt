// A plain checker and a slow search.
use search_base::NOBODY;
use sparse_search::{HallSet, Outcome, Pair, Record, SparseProblem, search};
use std::alloc::{AllocError, Global};

// Greater than the total of any small problem.
const NO_TOTAL: i64 = i64::MAX;

// The least cost of an object in a row.
fn cost_of(row: &[Pair], object: u32) -> Option<i64> {
    row.iter()
        .filter(|pair| pair.object == object)
        .map(|pair| pair.cost)
        .min()
}

fn price_of(prices: &[i64], object: u32) -> i64 {
    prices.get(object as usize).copied().unwrap_or(0)
}

// Whether no pair of a row has a lesser value than this.
fn is_least(row: &[Pair], prices: &[i64], value: i64) -> bool {
    row.iter().all(|pair| pair.cost.wrapping_add(price_of(prices, pair.object)) >= value)
}

// Whether all prices are at least 0, and those of objects without an owner are 0.
fn are_low(prices: &[i64], is_owned: &[bool]) -> bool {
    prices.iter().zip(is_owned).all(|(price, is_owned)| *price == 0 || (*is_owned && *price > 0))
}

/// The total of an exact answer: each person's own object is a cheapest, nobody has the same one, and
/// nobody pays for what nobody owns. None for any other.
pub fn judge(
    alloc: Global,
    problem: SparseProblem<'_>,
    prices: &[i64],
    objects: &[u32],
) -> Result<Option<i64>, AllocError> {
    let mut is_owned = vec![in alloc; false; prices.len()]?;
    let mut total = 0i64;
    for (k, object) in objects.iter().enumerate() {
        let row = problem.row((k & 0xffff_ffff) as u32);
        let Some(cost) = cost_of(row, *object) else {
            return Ok(None);
        };
        let place = *object as usize;
        let value = cost.wrapping_add(price_of(prices, *object));
        if place >= is_owned.len() || is_owned[place] || !is_least(row, prices, value) {
            return Ok(None);
        }
        is_owned[place] = true;
        total = total.wrapping_add(cost);
    }
    Ok(if are_low(prices, is_owned.as_slice()) {
        Some(total)
    } else {
        None
    })
}

fn is_rising(places: &[u32], end: usize) -> bool {
    places
        .iter()
        .zip(places.iter().skip(1))
        .all(|(one, next)| one < next)
        && places.iter().all(|place| (*place as usize) < end)
}

fn are_among(row: &[Pair], objects: &[u32]) -> bool {
    row.iter()
        .all(|pair| objects.binary_search(&pair.object).is_ok())
}

/// Whether these persons list these objects alone, and are more.
pub fn is_hall_set(problem: SparseProblem<'_>, set: &HallSet) -> bool {
    let (persons, objects) = (set.persons.as_slice(), set.objects.as_slice());
    is_rising(persons, problem.persons())
        && is_rising(objects, problem.objects)
        && objects.len() < persons.len()
        && persons
            .iter()
            .all(|person| are_among(problem.row(*person), objects))
}

// The least totals by sets of objects, a bit for each, once one more person is assigned.
fn serve_one(alloc: Global, row: &[Pair], totals: &[i64]) -> Result<Vec<i64>, AllocError> {
    let mut next = vec![in alloc; NO_TOTAL; totals.len()]?;
    for (set, total) in totals.iter().enumerate() {
        if *total != NO_TOTAL {
            serve_from(row, set, *total, next.as_mut_slice());
        }
    }
    Ok(next)
}

fn serve_from(row: &[Pair], set: usize, total: i64, next: &mut [i64]) {
    for pair in row {
        let bit = 1usize.wrapping_shl(pair.object);
        let with = set | bit;
        if set & bit == 0 && with < next.len() {
            next[with] = next[with].min(total.wrapping_add(pair.cost));
        }
    }
}

/// The least total of all assignments of a small problem, over all sets of objects.
pub fn least_total(alloc: Global, problem: SparseProblem<'_>) -> Result<Option<i64>, AllocError> {
    let sets = 1usize.wrapping_shl((problem.objects & 15) as u32);
    let mut totals = vec![in alloc; NO_TOTAL; sets]?;
    if let Some(none) = totals.get_mut(0) {
        *none = 0;
    }
    for person in 0..problem.persons() {
        let row = problem.row((person & 0xffff_ffff) as u32);
        totals = serve_one(alloc, row, totals.as_slice())?;
    }
    let least = totals.iter().copied().min().unwrap_or(NO_TOTAL);
    Ok(if least == NO_TOTAL { None } else { Some(least) })
}

/// Nobody's objects, as a search is given them.
pub fn nobody(alloc: Global, persons: usize) -> Result<Vec<u32>, AllocError> {
    vec![in alloc; NOBODY; persons]
}

/// How a search from nothing ends.
pub fn search_cold(
    alloc: Global,
    problem: SparseProblem<'_>,
    prices: &mut [i64],
    objects: &mut [u32],
) -> Result<Outcome, AllocError> {
    search(alloc, problem, prices, objects, &mut Record::cold(), 0)
}
