// Rows that list columns one after another: eight of their pairs are looked at together. Their costs
// stand in half the memory, since looks wait for it most of all, and their values are doubles, of
// which processors find the least at once.
use super::layout::Layout;
use super::offers::{NO_PLACE, Two};
use super::problem::{Problem, Row};
use super::state::State;
use super::values::{FAR, count_at};
use search_base::{NOBODY, place_at};
use std::alloc::{AllocError, Global};
use std::num::{nearest_i64_to_f64, saturating_f64_to_i64};
use std::simd::prelude::*;

const LANES: usize = 8;

// Shorter rows are looked at pair by pair.
const SHORTEST: usize = 2 * LANES;

// Doubles hold each sum of two whole numbers up to this.
const MOST_WHOLE: i64 = 1 << 52;

const MOST_COST: i64 = 0x7fff_ffff;

// FAR.
const FAR_DOUBLE: f64 = 2305843009213693952.0;

/// What the values of rows are made of whose columns follow one another.
#[derive(Drop)]
pub struct Runs {
    // All costs; empty where no row is looked at so.
    costs: Vec<i32>,
    prices: Vec<f64>,
    scale: f64,
}

// The first column of a row, or nobody where the others don't follow it or are few.
fn first_of(row: Row<'_>) -> u32 {
    if row.columns.len() < SHORTEST {
        return NOBODY;
    }
    let first = count_at(row.columns, 0);
    let mut differing = 0u32;
    let mut next = first;
    for column in row.columns {
        differing |= *column ^ next;
        next = next.wrapping_add(1);
    }
    if differing == 0 { first } else { NOBODY }
}

/// The first column of each row whose columns follow one another, nobody for others and short ones.
pub fn firsts_of(alloc: Global, problem: &Problem<'_>) -> Result<Vec<u32>, AllocError> {
    let mut firsts = Vec::with_capacity(alloc, problem.row_count())?;
    for row in 0..place_at(problem.row_count()) {
        firsts.push(first_of(problem.row(row)))?;
    }
    Ok(firsts)
}

// Whether 32 bits hold all costs, and doubles hold them times the scale.
fn are_short(layout: Layout) -> bool {
    let greatest = layout.greatest;
    let least = greatest.wrapping_sub(layout.spread);
    let most = MOST_WHOLE
        .checked_div(layout.terms.scale)
        .unwrap_or(0)
        .min(MOST_COST);
    least >= most.wrapping_neg() && greatest <= most
}

fn short_of(alloc: Global, costs: &[i64]) -> Result<Vec<i32>, AllocError> {
    let mut short = vec![in alloc; 0i32; costs.len()]?;
    for (entry, cost) in short.as_mut_slice().iter_mut().zip(costs) {
        *entry = i32::try_from(*cost).unwrap_or(0);
    }
    Ok(short)
}

#[inline(always)]
fn lesser(one: f64, other: f64) -> f64 {
    if one < other { one } else { other }
}

#[inline(always)]
fn greater(one: f64, other: f64) -> f64 {
    if one > other { one } else { other }
}

// The first place of the least value, and the two least values.
#[derive(Clone, Copy)]
struct Least {
    place: usize,
    best: f64,
    second: f64,
}

impl Least {
    // Without branches, which would go either way.
    #[inline(always)]
    fn with(self, place: usize, value: f64) -> Least {
        Least {
            place: if value < self.best { place } else { self.place },
            best: lesser(value, self.best),
            second: lesser(greater(value, self.best), self.second),
        }
    }

    #[inline(always)]
    fn with_all(self, first: usize, values: f64x8) -> Least {
        let mut least = self;
        for (lane, value) in values.to_array().iter().enumerate() {
            least = least.with(first.wrapping_add(lane), *value);
        }
        least
    }
}

/// The costs of a row, the prices of its columns, and by what costs are multiplied.
#[derive(Clone, Copy)]
pub struct Run<'a> {
    costs: &'a [i32],
    prices: &'a [f64],
    scale: f64,
}

impl Run<'_> {
    #[inline(always)]
    fn values(self, costs: [i32; LANES], prices: [f64; LANES]) -> f64x8 {
        let costs = i32x8::from_array(costs).cast::<f64>();
        costs * f64x8::splat(self.scale) + f64x8::from_array(prices)
    }

    #[inline(always)]
    fn value(self, cost: i32, price: f64) -> f64 {
        f64::from(cost) * self.scale + price
    }

    // Few lanes after the first ones have a value below the second least one.
    #[inline(always)]
    fn least(self) -> Least {
        let mut least = Least {
            place: NO_PLACE,
            best: FAR_DOUBLE,
            second: FAR_DOUBLE,
        };
        let (costs, rest_of_costs) = self.costs.as_chunks::<LANES>();
        let (prices, rest_of_prices) = self.prices.as_chunks::<LANES>();
        let mut first = 0usize;
        for (costs, prices) in costs.iter().zip(prices) {
            let values = self.values(*costs, *prices);
            if values.simd_lt(f64x8::splat(least.second)).any() {
                least = least.with_all(first, values);
            }
            first = first.wrapping_add(LANES);
        }
        for (k, (cost, price)) in rest_of_costs.iter().zip(rest_of_prices).enumerate() {
            least = least.with(first.wrapping_add(k), self.value(*cost, *price));
        }
        least
    }

    /// The two best of the row's pairs.
    #[inline(always)]
    pub fn two_best(self) -> Two {
        let least = self.least();
        Two {
            place: least.place,
            best: saturating_f64_to_i64(least.best),
            second: saturating_f64_to_i64(least.second),
        }
    }
}

impl Runs {
    pub fn of(
        alloc: Global,
        problem: &Problem<'_>,
        state: &State,
        layout: Layout,
    ) -> Result<Runs, AllocError> {
        let is_any = state.firsts.iter().any(|first| *first != NOBODY);
        let mut runs = Runs {
            costs: Vec::new(alloc),
            prices: Vec::new(alloc),
            scale: nearest_i64_to_f64(layout.terms.scale),
        };
        if is_any && are_short(layout) {
            runs.costs = short_of(alloc, problem.costs)?;
            runs.prices = vec![in alloc; 0.0; problem.column_count()]?;
        }
        Ok(runs)
    }

    /// A column has this price now. Where doubles don't hold it, rows are looked at pair by pair from
    /// here on.
    #[inline(always)]
    pub fn set_price(&mut self, column: usize, price: i64) {
        if price > MOST_WHOLE && price < FAR {
            self.costs.clear();
        }
        if column < self.prices.len() {
            self.prices[column] = nearest_i64_to_f64(price);
        }
    }

    /// The pairs of a row whose columns follow the first one.
    #[inline(always)]
    pub fn run_of(&self, first: u32, row: Row<'_>) -> Option<Run<'_>> {
        let first = first as usize;
        let count = row.columns.len();
        let costs = self.costs.get(row.first..row.first.saturating_add(count))?;
        let prices = self.prices.get(first..first.saturating_add(count))?;
        let scale = self.scale;
        Some(Run {
            costs,
            prices,
            scale,
        })
    }
}
