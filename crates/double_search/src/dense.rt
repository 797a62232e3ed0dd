// A search of many persons by what the search of dense problems finds in whole numbers of fewer bits.
use super::lists::{Lists, at};
use super::paths::Path;
use super::rows::Rows;
use super::scale::Scale;
use super::solver::Problem;
use super::whole::{MOST_COPIED, to_whole};
use assign_core::Sense;
use dense_search::{DenseProblem, Outcome, Record, search};
use std::alloc::{AllocError, Global};

// From so many persons on that search may be faster.
const LEAST: usize = 160;

// So many costs are looked at for equal ones.
const LOOKED_AT: usize = 4096;

// That search is faster where so many passes over all pairs are left to paths.
const PASSES: usize = 60;

impl<'a> Problem<'a> {
    // Whether there are as many objects as persons, or hardly more.
    fn is_square(self) -> bool {
        let more = self.objects.saturating_sub(self.persons);
        if self.costs.len() > MOST_COPIED {
            more <= self.persons / 64
        } else {
            more == 0
        }
    }

    // Whether more than an eighth of the first costs are the same as the next one.
    fn has_many_equal(self) -> bool {
        let (costs, _) = self.costs.split_at(LOOKED_AT.min(self.costs.len()));
        let mut count = 0usize;
        for (one, next) in costs.iter().zip(costs.iter().skip(1)) {
            count = count.wrapping_add(usize::from(*one == *next));
        }
        count > costs.len() / 8
    }

    // Whether the search of dense problems is faster, whatever paths take.
    pub fn is_dense(self) -> bool {
        self.persons >= LEAST && self.is_square() && !self.has_many_equal()
    }

    // The most scans that paths may be expected to take.
    pub fn most_scans(self) -> usize {
        if self.persons < LEAST {
            return usize::MAX;
        }
        self.persons.saturating_mul(PASSES)
    }
}

// The duals at prices in units of so many bits.
fn negate(duals: &mut [i64], shift: u32) {
    for dual in duals.iter_mut() {
        *dual = dual.wrapping_neg().wrapping_shl(shift);
    }
}

impl<'a> Lists<'a> {
    // Gives persons the objects at these places, but no pair that isn't allowed.
    fn enter_places(&mut self, places: &[u32], m: usize, costs: &[i64], forbidden: i64) {
        for (person, place) in places.iter().enumerate() {
            let object = *place as usize;
            let cost = at(costs, person.wrapping_mul(m).wrapping_add(object));
            if object < m && cost < forbidden {
                self.give(person, object);
            }
        }
    }

    // A plan and duals that are best within a unit of fewer bits. Returns whether each person has
    // an object.
    fn begin_narrow(
        &mut self,
        alloc: Global,
        problem: Problem<'_>,
        costs: &[i64],
        forbidden: i64,
        shift: u32,
    ) -> Result<bool, AllocError> {
        let dense = DenseProblem {
            sense: Sense::Min,
            persons: problem.persons,
            objects: problem.objects,
            costs,
        };
        let mut places = vec![in alloc; 0u32; problem.persons]?;
        let mut record = Record::cold();
        let objects = places.as_mut_slice();
        let outcome = search(alloc, dense, self.duals, objects, &mut record, 0)?;
        if !matches!(outcome, Outcome::Best) {
            return Ok(false);
        }
        negate(self.duals, shift);
        self.release_all();
        self.enter_places(places.as_slice(), problem.objects, costs, forbidden);
        Ok(self.count_left() == 0)
    }

    // The search of dense problems, and then one from its plan and duals, unless these have a margin.
    // The room for whole numbers of all pairs is taken for the while.
    pub fn search_dense(
        &mut self,
        alloc: Global,
        problem: Problem<'_>,
        room: &mut [i64],
        row: &mut [i64],
        scale: Scale,
    ) -> Result<Path, AllocError> {
        let (narrow, shift) = scale.form.narrow(problem.costs.len());
        to_whole(problem.costs, room, narrow);
        if !self.begin_narrow(alloc, problem, room, narrow.forbidden, shift)? {
            let mut rows = problem.listed(room, scale);
            return Ok(self.search_cold(&mut rows, scale, usize::MAX));
        }
        let mut rows = Rows::Made(problem.made(row, scale));
        if self.spread(&mut rows, scale, 1i64.wrapping_shl(shift)) {
            return Ok(Path::Found);
        }
        Ok(self.search_near(&mut problem.listed(room, scale), scale))
    }
}
