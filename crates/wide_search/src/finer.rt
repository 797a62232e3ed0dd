// A later level: the pairs that are left, at what is left of their costs.
use super::kept::{Pair, left_of};
use super::level::{Answer, Level, Solved, solve_level};
use super::places::{lower, number_at};
use super::state::{NO_ROW, State};
use super::units::{LEVEL_BITS, length_of, shifted};
use c_calls::lists::Form;
use std::alloc::{AllocError, Global};

/// The lists of a level.
#[derive(Drop)]
pub struct Lists {
    persons: Vec<u32>,
    objects: Vec<u32>,
    costs: Vec<i64>,
}

/// How far the costs of the next level are to be shifted.
pub fn next_shift(state: &State) -> u32 {
    length_of(state.bound().unsigned_abs())
        .saturating_add(1)
        .saturating_sub(LEVEL_BITS)
}

impl Lists {
    fn push(&mut self, person: u32, object: u32, cost: i64) -> Result<(), AllocError> {
        self.persons.push(person)?;
        self.objects.push(object)?;
        self.costs.push(cost)?;
        Ok(())
    }

    fn push_pairs(&mut self, state: &State, shift: u32, kept: &[Pair]) -> Result<(), AllocError> {
        let bound = state.bound();
        for pair in kept {
            let cost = shifted(left_of(state, bound, *pair), shift);
            self.push(pair.person, pair.object, cost)?;
        }
        Ok(())
    }

    // One more object, which each person lists at the bound. Nobody has it in a best plan, so its price
    // is 0, and the bound is the greatest number of a row.
    fn push_bounds(&mut self, state: &State, shift: u32) -> Result<(), AllocError> {
        let cost = shifted(state.bound(), shift);
        let mut person = 0u32;
        for _row in state.rows.as_slice() {
            person = person.wrapping_add(1);
            self.push(person, state.dummy, cost)?;
        }
        Ok(())
    }

    /// Those of the next level.
    pub fn of(
        alloc: Global,
        state: &State,
        shift: u32,
        kept: &[Pair],
    ) -> Result<Lists, AllocError> {
        let mut lists = Lists {
            persons: Vec::new(alloc),
            objects: Vec::new(alloc),
            costs: Vec::new(alloc),
        };
        lists.push_pairs(state, shift, kept)?;
        lists.push_bounds(state, shift)?;
        Ok(lists)
    }

    /// Solves it.
    pub fn solve(&self, alloc: Global, n: usize, m: usize) -> Result<Answer, AllocError> {
        let level = Level {
            form: Form::Sparse,
            persons: self.persons.as_slice(),
            objects: self.objects.as_slice(),
            costs: self.costs.as_slice(),
        };
        solve_level(alloc, n, m.wrapping_add(1), level)
    }

    // The least sums of cost and price of all rows.
    fn rows_of(&self, alloc: Global, n: usize, prices: &[i64]) -> Result<Vec<i128>, AllocError> {
        let mut rows = vec![in alloc; NO_ROW; n]?;
        let costs = self.costs.as_slice();
        let pairs = self.persons.iter().zip(self.objects.as_slice());
        for ((person, object), cost) in pairs.zip(costs) {
            let price = prices.get((*object as usize).wrapping_sub(1)).copied();
            let sum = cost.saturating_add(price.unwrap_or(0));
            lower(rows.as_mut_slice(), *person, i128::from(sum));
        }
        Ok(rows)
    }
}

// Adds a level's numbers to those of the rows.
fn raise_rows(rows: &mut [i128], level: &[i128], shift: u32) {
    for (row, more) in rows.iter_mut().zip(level) {
        *row = (*row).wrapping_add((*more).wrapping_shl(shift));
    }
}

// Puts a level's prices in the place of those up to the bound.
fn change_prices(prices: &mut [i128], level: &[i64], bound: i128, shift: u32) {
    for (price, more) in prices.iter_mut().zip(level) {
        let rest = (*price).wrapping_sub((*price).min(bound));
        *price = rest.wrapping_add(i128::from(*more).wrapping_shl(shift));
    }
}

/// Takes what a level found into the duals.
pub fn take_level(
    alloc: Global,
    state: &mut State,
    lists: &Lists,
    shift: u32,
    solved: Solved,
) -> Result<(), AllocError> {
    let bound = state.bound();
    let level = solved.prices.as_slice();
    let rows = lists.rows_of(alloc, state.rows.len(), level)?;
    raise_rows(state.rows.as_mut_slice(), rows.as_slice(), shift);
    change_prices(state.prices.as_mut_slice(), level, bound, shift);
    state.objects = solved.objects;
    state.shift = shift;
    Ok(())
}
