// Row numbers and column numbers: the duals of a plan at exact prices.
use super::answers::{most_held, range_of};
use super::chosen::next_chosen;
use super::problem::Problem;
use super::state::{MOST_NUMBER, State};
use super::values::{add_count, count_at, set_price};
use search_base::place_at;
use std::alloc::{AllocError, Global};

/// A number a row and a number a column.
#[derive(Drop)]
pub struct Numbers {
    pub rows: Vec<i64>,
    pub columns: Vec<i64>,
}

// How many rows take each column.
fn taken_of(alloc: Global, problem: &Problem<'_>, plan: &[u8]) -> Result<Vec<u32>, AllocError> {
    let mut taken = vec![in alloc; 0u32; problem.column_count()]?;
    let mut from = 0usize;
    for _pair in plan {
        let Some(pair) = next_chosen(plan, from) else {
            break;
        };
        add_count(taken.as_mut_slice(), problem.column(place_at(pair)), 1);
        from = pair.wrapping_add(1);
    }
    Ok(taken)
}

// A greatest count that was cut to the pairs listed binds without a number.
fn column_number(state: &State, column: usize, taken: u32, most: u32) -> i64 {
    let number = state
        .price(state.outside())
        .wrapping_sub(state.price(column));
    if number < 0 && taken < most {
        0
    } else {
        number
    }
}

// By the bounds that were given, and what is left of costs without the columns' numbers.
fn row_number(problem: &Problem<'_>, state: &mut State, place: u32) -> i64 {
    let count = state.held_of(place);
    let is_least = count <= count_at(problem.row_least, place as usize);
    let is_most = count >= count_at(problem.row_most, place as usize);
    if is_least && is_most && count > 0 {
        return most_held(state, problem.row(place));
    }
    let rests = range_of(problem, state, place);
    match (is_least, is_most) {
        (true, true) if rests.open < i64::MAX => rests.open,
        (true, true) => 0,
        (true, false) => rests.held.max(0),
        (false, true) => rests.open.min(0),
        (false, false) => 0,
    }
}

impl Numbers {
    /// The numbers of a plan at exact prices, for which these are left.
    pub fn of(
        alloc: Global,
        problem: &Problem<'_>,
        state: &mut State,
    ) -> Result<Numbers, AllocError> {
        let taken = taken_of(alloc, problem, state.plan.as_slice())?;
        let mut numbers = Numbers {
            rows: vec![in alloc; 0i64; problem.row_count()]?,
            columns: vec![in alloc; 0i64; problem.column_count()]?,
        };
        for (column, count) in taken.iter().enumerate() {
            let most = count_at(problem.column_most, column);
            let number = column_number(state, column, *count, most);
            set_price(numbers.columns.as_mut_slice(), column, number);
        }
        state.take_numbers(numbers.columns.as_slice(), MOST_NUMBER);
        numbers.set_rows(problem, state);
        Ok(numbers)
    }

    fn set_rows(&mut self, problem: &Problem<'_>, state: &mut State) {
        for row in 0..place_at(problem.row_count()) {
            let number = row_number(problem, state, row);
            set_price(self.rows.as_mut_slice(), row as usize, number);
        }
    }
}
