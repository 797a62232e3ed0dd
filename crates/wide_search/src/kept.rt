// The pairs that are left after a level.
use super::places::number_at;
use super::state::State;
use super::units::Unit;
use std::alloc::{AllocError, Global};
use wide_checker::{Wide, WidePairs, WideSource};

/// A pair with its cost.
#[derive(Clone, Copy)]
pub struct Pair {
    pub person: u32,
    pub object: u32,
    pub cost: i128,
}

/// What a pair's cost is in a level, before it is rounded: its reduced cost, less its object's price up
/// to the bound. So an object that nobody has in a best plan keeps a price of 0.
pub fn left_of(state: &State, bound: i128, pair: Pair) -> i128 {
    let row = number_at(state.rows.as_slice(), pair.person);
    let price = number_at(state.prices.as_slice(), pair.object);
    pair.cost
        .wrapping_add(price)
        .wrapping_sub(row)
        .wrapping_sub(price.min(bound))
}

// Whether the pair may be better than a person's own one at some prices of later levels.
fn stays(state: &State, bound: i128, pair: Pair) -> bool {
    left_of(state, bound, pair) < bound.wrapping_mul(2)
}

// The prices less what counts up to the bound.
fn prices_left(alloc: Global, state: &State) -> Result<Vec<i128>, AllocError> {
    let bound = state.bound();
    let mut left = Vec::new(alloc);
    for price in state.prices.as_slice() {
        left.push((*price).wrapping_sub((*price).min(bound)))?;
    }
    Ok(left)
}

// Adds those pairs of a person that stay: the sums of cost and price are below this limit.
fn push_row(
    kept: &mut Vec<Pair>,
    unit: Unit,
    person: u32,
    costs: &[Wide],
    prices: &[i128],
    limit: i128,
) -> Result<(), AllocError> {
    let mut object = 0u32;
    for (cost, price) in costs.iter().zip(prices) {
        object = object.wrapping_add(1);
        let cost = unit.cost(*cost);
        if cost.wrapping_add(*price) < limit {
            kept.push(Pair {
                person,
                object,
                cost,
            })?;
        }
    }
    Ok(())
}

fn push_dense(
    alloc: Global,
    kept: &mut Vec<Pair>,
    unit: Unit,
    state: &State,
    costs: &[Wide],
) -> Result<(), AllocError> {
    let prices = prices_left(alloc, state)?;
    let most = state.bound().wrapping_mul(2);
    let mut rest = costs;
    let mut person = 0u32;
    for number in state.rows.as_slice() {
        person = person.wrapping_add(1);
        let (row, others) = rest.split_at(prices.len().min(rest.len()));
        let limit = (*number).wrapping_add(most);
        push_row(kept, unit, person, row, prices.as_slice(), limit)?;
        rest = others;
    }
    Ok(())
}

fn push_listed(
    kept: &mut Vec<Pair>,
    unit: Unit,
    state: &State,
    pairs: WidePairs<'_>,
) -> Result<(), AllocError> {
    let bound = state.bound();
    for ((person, object), cost) in pairs.persons.iter().zip(pairs.objects).zip(pairs.costs) {
        let pair = Pair {
            person: *person,
            object: *object,
            cost: unit.cost(*cost),
        };
        if stays(state, bound, pair) {
            kept.push(pair)?;
        }
    }
    Ok(())
}

/// The pairs that the first level leaves.
pub fn pairs_left(
    alloc: Global,
    source: WideSource<'_>,
    unit: Unit,
    state: &State,
) -> Result<Vec<Pair>, AllocError> {
    let mut kept = Vec::new(alloc);
    match source {
        WideSource::Dense(costs) => push_dense(alloc, &mut kept, unit, state, costs)?,
        WideSource::Listed(pairs) => push_listed(&mut kept, unit, state, pairs)?,
    }
    Ok(kept)
}

/// Takes out the pairs that don't stay.
pub fn thin(kept: &mut Vec<Pair>, state: &State) {
    let bound = state.bound();
    let mut count = 0usize;
    for place in 0..kept.len() {
        let pair = kept[place];
        if count <= place && stays(state, bound, pair) {
            kept[count] = pair;
            count = count.wrapping_add(1);
        }
    }
    kept.truncate(count);
}
