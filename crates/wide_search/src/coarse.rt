// The first level: all costs, rounded.
use super::level::{Answer, Level, solve_level};
use super::places::{lower, number_at};
use super::state::{NO_ROW, State};
use super::units::{Unit, shifted};
use c_calls::lists::Form;
use std::alloc::{AllocError, Global};
use wide_checker::{Wide, WidePairs, WideSource};

/// All costs.
pub fn costs_in(source: WideSource<'_>) -> &[Wide] {
    match source {
        WideSource::Dense(costs) => costs,
        WideSource::Listed(pairs) => pairs.costs,
    }
}

// The costs of a level, rounded down.
fn rounded(alloc: Global, unit: Unit, shift: u32, costs: &[Wide]) -> Result<Vec<i64>, AllocError> {
    let mut level = vec![in alloc; 0i64; costs.len()]?;
    for (narrow, cost) in level.as_mut_slice().iter_mut().zip(costs) {
        *narrow = shifted(unit.cost(*cost), shift);
    }
    Ok(level)
}

fn level_of<'a>(source: WideSource<'a>, costs: &'a [i64]) -> Level<'a> {
    match source {
        WideSource::Dense(_) => Level {
            form: Form::Dense,
            persons: &[],
            objects: &[],
            costs,
        },
        WideSource::Listed(pairs) => Level {
            form: Form::Sparse,
            persons: pairs.persons,
            objects: pairs.objects,
            costs,
        },
    }
}

/// Solves the first level.
pub fn solve_coarse(
    alloc: Global,
    n: usize,
    m: usize,
    source: WideSource<'_>,
    unit: Unit,
    shift: u32,
) -> Result<Answer, AllocError> {
    let costs = rounded(alloc, unit, shift, costs_in(source))?;
    solve_level(alloc, n, m, level_of(source, costs.as_slice()))
}

// The least sum of cost and price of a row.
fn least_of(unit: Unit, costs: &[Wide], prices: &[i128]) -> i128 {
    let mut least = NO_ROW;
    for (cost, price) in costs.iter().zip(prices) {
        least = least.min(unit.cost(*cost).wrapping_add(*price));
    }
    least
}

fn set_dense_rows(unit: Unit, costs: &[Wide], prices: &[i128], rows: &mut [i128]) {
    let mut rest = costs;
    for row in rows.iter_mut() {
        let (front, others) = rest.split_at(prices.len().min(rest.len()));
        *row = least_of(unit, front, prices);
        rest = others;
    }
}

fn set_all(rows: &mut [i128], value: i128) {
    for row in rows.iter_mut() {
        *row = value;
    }
}

fn set_listed_rows(unit: Unit, pairs: WidePairs<'_>, prices: &[i128], rows: &mut [i128]) {
    set_all(rows, NO_ROW);
    for ((person, object), cost) in pairs.persons.iter().zip(pairs.objects).zip(pairs.costs) {
        let sum = unit.cost(*cost).wrapping_add(number_at(prices, *object));
        lower(rows, *person, sum);
    }
}

/// Sets each row's number to its least sum of cost and price.
pub fn set_rows(source: WideSource<'_>, unit: Unit, state: &mut State) {
    let prices = state.prices.as_slice();
    let rows = state.rows.as_mut_slice();
    match source {
        WideSource::Dense(costs) => set_dense_rows(unit, costs, prices, rows),
        WideSource::Listed(pairs) => set_listed_rows(unit, pairs, prices, rows),
    }
}
