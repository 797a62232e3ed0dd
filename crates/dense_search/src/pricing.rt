// Passes over all pairs of the caller's list: pairs that are better at these prices than the one
// that their person has join the core.
use super::gather::{Candidate, Wanted, gather};
use super::market::Market;
use super::matrix::Matrix;
use super::pick::{Core, GAPS};
use super::reading::Reading;
use super::rows::two_best;
use search_base::place_at;
use sparse_search::Pair;
use std::alloc::{AllocError, Global};

// The most pairs of a person that join in one pass, and the most that are gathered for that.
const MOST_JOINING: usize = 48;

const MOST_GATHERED: usize = 512;

// About as many pairs of a person make a core around a plan and its prices.
const MOST_AROUND: usize = 16;

// How often a limit is halved.
const HALVINGS: usize = 62;

// The better pairs that a pass found, person by person as in a core; the number of persons that
// have some, and the sum of what each would gain.
#[derive(Drop)]
pub struct Better {
    pub core: Core,
    pub persons: u64,
    pub gains: i64,
}

fn least_of(found: &[Candidate]) -> i64 {
    let mut least = i64::MAX;
    for one in found {
        least = least.min(one.value);
    }
    least
}

fn count_below(found: &[Candidate], limit: i64) -> usize {
    found.iter().filter(|one| one.value <= limit).count()
}

// A limit up to which about as many values lie as may join.
fn joining_limit(found: &[Candidate], least: i64, most: i64) -> i64 {
    let mut width = most.saturating_sub(least);
    for _ in 0..HALVINGS {
        if width == 0 || count_below(found, least.saturating_add(width)) <= MOST_JOINING {
            break;
        }
        width = width / 2;
    }
    least.saturating_add(width)
}

impl Better {
    fn none(alloc: Global) -> Result<Better, AllocError> {
        Ok(Better {
            core: Core {
                starts: vec![in alloc; 0usize]?,
                pairs: Vec::new(alloc),
            },
            persons: 0,
            gains: 0,
        })
    }

    // What a person with better pairs would gain on average.
    pub fn mean_gain(&self) -> i64 {
        let persons = i64::try_from(self.persons).unwrap_or(i64::MAX).max(1);
        self.gains.wrapping_div(persons)
    }

    // Counts a person who would gain by an object of this value.
    fn count(&mut self, least: i64, own: i64) {
        if least < own {
            self.persons = self.persons.saturating_add(1);
            self.gains = self.gains.saturating_add(own.saturating_sub(least));
        }
    }

    // Adds a pair of the person whose row this is.
    fn add(&mut self, row: &[i64], object: u32) -> Result<(), AllocError> {
        let cost = row.get(object as usize).copied().unwrap_or(0);
        self.core.pairs.push(Pair { object, cost })?;
        Ok(())
    }

    // The best of what was found up to a value.
    fn join(&mut self, row: &[i64], found: &[Candidate], most: i64) -> Result<(), AllocError> {
        if found.is_empty() {
            return Ok(());
        }
        let limit = joining_limit(found, least_of(found), most);
        let mut left = MOST_JOINING;
        for one in found {
            if one.value <= limit && left > 0 {
                self.add(row, one.object)?;
                left -= 1;
            }
        }
        Ok(())
    }
}

// The pairs that beat the prices: of each person those with less value than the pair that it has.
pub fn better_pairs<R: Reading<i64>>(
    alloc: Global,
    matrix: &Matrix<'_, i64, R>,
    market: &Market<'_, i64>,
) -> Result<Better, AllocError> {
    let mut better = Better::none(alloc)?;
    let mut found = Vec::new(alloc);
    for k in 0..matrix.persons {
        let person = place_at(k);
        let row = matrix.row(person);
        let own = matrix.own_value(market, person);
        let wanted = Wanted {
            limit: own,
            most: MOST_GATHERED,
        };
        let from = matrix.first_place(person);
        gather(
            &matrix.reading,
            row,
            market.prices,
            from,
            wanted,
            &mut found,
        )?;
        better.count(least_of(found.as_slice()), own);
        better.join(row, found.as_slice(), own)?;
        better.core.starts.push(better.core.pairs.len())?;
    }
    Ok(better)
}

// How much worse the pairs of the first person may be.
fn first_width<R: Reading<i64>>(matrix: &Matrix<'_, i64, R>, market: &Market<'_, i64>) -> i64 {
    let two = two_best(&matrix.reading, matrix.row(0), market.prices);
    two.gap().saturating_mul(GAPS).max(1)
}

// How much worse pairs may be for the next person, after so many were found.
fn next_width(width: i64, found: usize) -> i64 {
    if found > MOST_AROUND {
        return (width / 4).saturating_mul(3).max(1);
    }
    if found < MOST_AROUND / 4 {
        return width.saturating_mul(2);
    }
    width
}

// What lies around the own value of a person: better objects, and those that are less than a width
// worse.
#[derive(Drop)]
struct Around {
    width: i64,
    near: Vec<Candidate>,
    found: Vec<Candidate>,
}

impl Around {
    // Adds near objects to what was found: all but the own one, or those that aren't better.
    fn add_near(&mut self, least: i64, own: u32) -> Result<(), AllocError> {
        for one in &self.near {
            if one.object != own && one.value >= least {
                self.found.push(*one)?;
            }
        }
        Ok(())
    }

    // Finds them. Where many are near, not all of these are found, and the better ones by a look of
    // their own.
    fn look<R: Reading<i64>>(
        &mut self,
        matrix: &Matrix<'_, i64, R>,
        market: &Market<'_, i64>,
        person: u32,
        own: i64,
    ) -> Result<(), AllocError> {
        let (row, prices) = (matrix.row(person), &*market.prices);
        let from = matrix.first_place(person);
        let near = Wanted {
            limit: own.saturating_add(self.width),
            most: MOST_JOINING,
        };
        gather(&matrix.reading, row, prices, from, near, &mut self.near)?;
        let is_full = self.near.len() >= near.most;
        let better = Wanted {
            limit: own,
            most: if is_full { MOST_GATHERED } else { 0 },
        };
        gather(&matrix.reading, row, prices, from, better, &mut self.found)?;
        let least = if is_full { own } else { i64::MIN };
        self.add_near(least, market.object(person))?;
        self.width = next_width(self.width, self.near.len());
        Ok(())
    }
}

// A core for the prices and objects of the market: of each person the own pair, those that are
// better, and those that are nearly as good. It counts persons with better ones.
pub fn pairs_around<R: Reading<i64>>(
    alloc: Global,
    matrix: &Matrix<'_, i64, R>,
    market: &Market<'_, i64>,
) -> Result<Better, AllocError> {
    let mut better = Better::none(alloc)?;
    let mut around = Around {
        width: first_width(matrix, market),
        near: Vec::new(alloc),
        found: Vec::new(alloc),
    };
    for k in 0..matrix.persons {
        let (person, row) = (place_at(k), matrix.row(place_at(k)));
        let own = matrix.own_value(market, person);
        let most = own.saturating_add(around.width);
        around.look(matrix, market, person, own)?;
        better.add(row, market.object(person))?;
        better.count(least_of(around.found.as_slice()), own);
        better.join(row, around.found.as_slice(), most)?;
        better.core.starts.push(better.core.pairs.len())?;
    }
    Ok(better)
}

// The pairs of a person.
fn pairs_of(core: &Core, person: usize) -> &[Pair] {
    match (
        core.starts.get(person),
        core.starts.get(person.wrapping_add(1)),
    ) {
        (Some(from), Some(to)) => core.pairs.as_slice().get(*from..*to).unwrap_or(&[]),
        _ => &[],
    }
}

// Both together.
pub fn merge(
    alloc: Global,
    core: &Core,
    better: &Core,
    persons: usize,
) -> Result<Core, AllocError> {
    let count = core.pairs.len().saturating_add(better.pairs.len());
    let mut merged = Core {
        starts: vec![in alloc; 0usize]?,
        pairs: Vec::with_capacity(alloc, count)?,
    };
    for k in 0..persons {
        merged.pairs.extend_from_slice(pairs_of(core, k))?;
        merged.pairs.extend_from_slice(pairs_of(better, k))?;
        merged.starts.push(merged.pairs.len())?;
    }
    Ok(merged)
}
