// The core of a problem: the cheapest pairs of each person at some prices.
use super::gather::{Candidate, Wanted, gather};
use super::market::Market;
use super::matrix::Matrix;
use super::reading::Reading;
use super::rows::two_best;
use search_base::{NOBODY, place_at};
use sparse_search::Pair;
use std::alloc::{AllocError, Global};

// The most pairs of a person.
const MOST: usize = 48;

// The width of the first person, in gaps between its two least values.
pub const GAPS: i64 = 24;

// How often a limit is raised for a person who has too few objects below it.
const TRIES: usize = 8;

// Pairs, person by person: person k has those from `starts[k]` to `starts[k + 1]`.
#[derive(Drop)]
pub struct Core {
    pub starts: Vec<usize>,
    pub pairs: Vec<Pair>,
}

// The objects of a row that are near its least value, and how far above it they lie.
#[derive(Drop)]
struct Near {
    width: i64,
    found: Vec<Candidate>,
}

impl Near {
    // Gathers the best objects of a person whose least value is known. The width is that of the person
    // before, and follows the number that is found.
    fn gather<R: Reading<i64>>(
        &mut self,
        matrix: &Matrix<'_, i64, R>,
        prices: &[i64],
        person: u32,
        least: i64,
    ) -> Result<(), AllocError> {
        let (row, from) = (matrix.row(person), matrix.first_place(person));
        for _ in 0..TRIES {
            let wanted = Wanted {
                limit: least.saturating_add(self.width),
                most: MOST,
            };
            gather(&matrix.reading, row, prices, from, wanted, &mut self.found)?;
            if self.found.len() >= MOST / 4 {
                break;
            }
            self.width = self.width.saturating_mul(2);
        }
        if self.found.len() >= MOST {
            self.width = (self.width / 4).saturating_mul(3).max(1);
        }
        Ok(())
    }

    // The best objects of a person.
    fn look<R: Reading<i64>>(
        &mut self,
        matrix: &Matrix<'_, i64, R>,
        prices: &[i64],
        person: u32,
    ) -> Result<(), AllocError> {
        let two = two_best(&matrix.reading, matrix.row(person), prices);
        if self.width == 0 {
            self.width = two.gap().saturating_mul(GAPS).max(1);
        }
        self.gather(matrix, prices, person, two.best)?;
        let (object, value) = (two.object, two.best);
        self.found.push(Candidate { object, value })?;
        Ok(())
    }
}

// The pairs so far, and for each object the last person whose pair with it is among them.
#[derive(Drop)]
struct Picked {
    core: Core,
    persons: Vec<u32>,
}

impl Picked {
    fn add(&mut self, row: &[i64], person: u32, object: u32) -> Result<(), AllocError> {
        let at = object as usize;
        if let Some(cost) = row.get(at).copied() {
            if at < self.persons.len() && self.persons[at] != person {
                self.persons[at] = person;
                self.core.pairs.push(Pair { object, cost })?;
            }
        }
        Ok(())
    }

    fn add_all(&mut self, row: &[i64], person: u32, found: &[Candidate]) -> Result<(), AllocError> {
        for one in found {
            self.add(row, person, one.object)?;
        }
        Ok(())
    }
}

// An object of its own for each person.
fn diagonal<R: Reading<i64>>(matrix: &Matrix<'_, i64, R>, person: usize) -> u32 {
    place_at(person.wrapping_mul(matrix.objects) / matrix.persons.max(1))
}

// The best pairs of each person at the prices; its own pair, which is a best one; and one of the diagonal,
// so that there is an assignment.
pub fn pick_by_prices<R: Reading<i64>>(
    alloc: Global,
    matrix: &Matrix<'_, i64, R>,
    market: &Market<'_, i64>,
) -> Result<Core, AllocError> {
    let mut near = Near {
        width: 0,
        found: Vec::new(alloc),
    };
    let mut picked = Picked {
        core: Core {
            starts: vec![in alloc; 0usize]?,
            pairs: Vec::new(alloc),
        },
        persons: vec![in alloc; NOBODY; matrix.objects]?,
    };
    for k in 0..matrix.persons {
        let (person, row) = (place_at(k), matrix.row(place_at(k)));
        let (object, prices) = (market.object(person), &*market.prices);
        picked.add(row, person, diagonal(matrix, k))?;
        if object == NOBODY || near.width == 0 {
            near.look(matrix, prices, person)?;
        } else {
            let own = matrix.own_value(market, person);
            near.gather(matrix, prices, person, own)?;
        }
        picked.add(row, person, object)?;
        picked.add_all(row, person, near.found.as_slice())?;
        picked.core.starts.push(picked.core.pairs.len())?;
    }
    Ok(picked.core)
}
