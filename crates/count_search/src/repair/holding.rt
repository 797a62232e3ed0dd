// Who holds pairs of each column, and what columns have too much or too little.
use super::super::problem::Problem;
use super::super::state::State;
use super::super::values::{count_at, set_count, set_price, short, signed};
use super::{Holder, Repair};
use search_base::place_at;
use std::alloc::{AllocError, Global};

pub fn no_holders(alloc: Global, count: usize) -> Result<Vec<Vec<Holder>>, AllocError> {
    let mut lists = Vec::new(alloc);
    for _column in 0..count {
        lists.push(Vec::new(alloc))?;
    }
    Ok(lists)
}

// Where a pair's holder stands.
fn place_of(holders: &[Holder], pair: u32) -> usize {
    for (place, holder) in holders.iter().enumerate() {
        if holder.pair == pair {
            return place;
        }
    }
    holders.len()
}

impl Repair {
    pub fn hold_all(&mut self, problem: &Problem<'_>, state: &State) -> Result<(), AllocError> {
        for row in 0..place_at(problem.row_count()) {
            if state.held_of(row) > 0 {
                self.hold_row(problem, state, row)?;
            }
        }
        Ok(())
    }

    fn hold_row(
        &mut self,
        problem: &Problem<'_>,
        state: &State,
        row: u32,
    ) -> Result<(), AllocError> {
        let pairs = problem.row(row);
        let mut from = 0usize;
        for _hand in 0..state.held_of(row) {
            let Some(place) = state.next_chosen(pairs, from) else {
                return Ok(());
            };
            let pair = place_at(pairs.first.wrapping_add(place));
            self.hold(problem.column(pair), Holder { row, pair })?;
            from = place.wrapping_add(1);
        }
        Ok(())
    }

    pub fn hold(&mut self, column: usize, holder: Holder) -> Result<(), AllocError> {
        match self.holders.get_mut(column) {
            Some(holders) => Ok(holders.push(holder)?),
            None => Ok(()),
        }
    }

    // The slots that nobody needs at these prices, and what each node has too much.
    pub fn balance(&mut self, state: &State) {
        let outside = state.outside();
        let mut sum = 0i64;
        for column in 0..outside {
            let excess = self.balance_column(state, column);
            set_price(self.excess.as_mut_slice(), column, excess);
            sum = sum.wrapping_add(excess);
        }
        set_price(self.excess.as_mut_slice(), outside, sum.wrapping_neg());
    }

    // The slots of a column that no row holds.
    pub fn free_of(&self, state: &State, column: usize) -> i64 {
        let held = match self.holders.get(column) {
            Some(holders) => signed(holders.len()),
            None => 0,
        };
        i64::from(count_at(state.column_most.as_slice(), column)).wrapping_sub(held)
    }

    fn balance_column(&mut self, state: &State, column: usize) -> i64 {
        let free = self.free_of(state, column);
        let most = count_at(state.column_most.as_slice(), column);
        let room = most.saturating_sub(count_at(state.column_least.as_slice(), column));
        let above = state
            .price(column)
            .wrapping_sub(state.price(state.outside()));
        let slack = if above > 0 {
            0
        } else if above < 0 {
            room
        } else {
            short(free).min(room)
        };
        set_count(self.slack_most.as_mut_slice(), column, room);
        set_count(self.slack.as_mut_slice(), column, slack);
        i64::from(slack).wrapping_sub(free)
    }

    pub fn leave(&mut self, column: usize, pair: u32) {
        let Some(holders) = self.holders.get_mut(column) else {
            return;
        };
        let place = place_of(holders.as_slice(), pair);
        if let Some(last) = holders.pop() {
            if place < holders.len() {
                holders[place] = last;
            }
        }
    }
}
