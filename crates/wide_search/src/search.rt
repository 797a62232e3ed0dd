// The search: level by level.
use super::coarse::{costs_in, set_rows, solve_coarse};
use super::finer::{Lists, next_shift, take_level};
use super::kept::{Pair, pairs_left, thin};
use super::level::{Answer, Solved};
use super::state::State;
use super::units::{Unit, unit_of};
use cost_lists::Object;
use std::alloc::{AllocError, Global};
use wide_checker::{Wide, WideLists, WideSource};

// Each level has at least 14 bits more.
const MOST_LEVELS: usize = 12;

/// How a search ended.
#[derive(Drop)]
pub enum Ended {
    /// An object for each person, and a price for each object.
    Plan(Vec<u32>, Vec<Wide>),
    /// Persons, and fewer objects, which are all that they list.
    Hall(Vec<u32>, Vec<u32>),
    /// It found nothing.
    Lost,
}

// The prices in units of 1.
fn wide_prices(alloc: Global, state: &State, unit: Unit) -> Result<Vec<Wide>, AllocError> {
    let mut prices = Vec::new(alloc);
    for price in state.prices.as_slice() {
        prices.push(Wide::of((*price).wrapping_shl(unit.zeros)))?;
    }
    Ok(prices)
}

fn set_prices(prices: &mut [i128], level: &[i64], shift: u32) {
    for (price, narrow) in prices.iter_mut().zip(level) {
        *price = i128::from(*narrow).wrapping_shl(shift);
    }
}

// Where the search stands after the first level.
fn after_coarse(
    alloc: Global,
    objects: Object,
    source: WideSource<'_>,
    unit: Unit,
    shift: u32,
    solved: Solved,
) -> Result<State, AllocError> {
    let mut state = State::new(alloc, solved.objects.len(), objects)?;
    state.shift = shift;
    set_prices(state.prices.as_mut_slice(), solved.prices.as_slice(), shift);
    state.objects = solved.objects;
    if shift > 0 {
        set_rows(source, unit, &mut state);
    }
    Ok(state)
}

// One more level, for the pairs that are left; whether it was solved.
fn refine(alloc: Global, state: &mut State, kept: &mut Vec<Pair>) -> Result<bool, AllocError> {
    thin(kept, state);
    let shift = next_shift(state);
    let lists = Lists::of(alloc, state, shift, kept.as_slice())?;
    let (n, m) = (state.rows.len(), state.prices.len());
    match lists.solve(alloc, n, m)? {
        Answer::Plan(solved) => {
            take_level(alloc, state, &lists, shift, solved)?;
            Ok(true)
        }
        Answer::Hall(_) | Answer::Lost => Ok(false),
    }
}

// Levels down to the unit of the costs; whether all were solved.
fn refine_all(alloc: Global, state: &mut State, kept: &mut Vec<Pair>) -> Result<bool, AllocError> {
    for _level in 0..MOST_LEVELS {
        if state.shift == 0 {
            return Ok(true);
        }
        if !refine(alloc, state, kept)? {
            return Ok(false);
        }
    }
    Ok(state.shift == 0)
}

// From the first level to the last.
fn finish(
    alloc: Global,
    objects: Object,
    source: WideSource<'_>,
    unit: Unit,
    shift: u32,
    solved: Solved,
) -> Result<Ended, AllocError> {
    let mut state = after_coarse(alloc, objects, source, unit, shift, solved)?;
    if shift > 0 {
        let mut kept = pairs_left(alloc, source, unit, &state)?;
        if !refine_all(alloc, &mut state, &mut kept)? {
            return Ok(Ended::Lost);
        }
    }
    let prices = wide_prices(alloc, &state, unit)?;
    Ok(Ended::Plan(state.objects, prices))
}

/// Looks for a best plan with prices that prove it, or for a Hall set.
///
/// # Errors
/// `AllocError` if memory is refused.
pub fn find_plan(alloc: Global, lists: &WideLists<'_>) -> Result<Ended, AllocError> {
    let (n, m) = (lists.persons() as usize, lists.objects() as usize);
    let source = lists.source();
    let (unit, shift) = unit_of(lists.sense(), costs_in(source));
    match solve_coarse(alloc, n, m, source, unit, shift)? {
        Answer::Plan(solved) => finish(alloc, lists.objects(), source, unit, shift, solved),
        Answer::Hall(solved) => Ok(Ended::Hall(solved.persons, solved.objects)),
        Answer::Lost => Ok(Ended::Lost),
    }
}
