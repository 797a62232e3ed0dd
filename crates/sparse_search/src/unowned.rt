// Fewer persons than objects: an unowned object has to be as cheap as any. First each overpriced one's price
// falls until a person would pay it, and then searches from the cheapest objects bring down the rest.
use super::auction::price_at;
use super::market::Market;
use super::path::{Level, PathSearch};
use super::problem::{Pair, Scaled};
use super::row::{FAR, least_value};
use super::tight::match_overpriced;
use search_base::{ArcScans, NOBODY, Reached, at, place_at};
use std::alloc::{AllocError, Global};

// The greatest price at which a person would pay for each unowned object as for its best one.
fn raise_levels(row: &[Pair], owners: &[u32], levels: &mut [i64], least: i64, shift: u32) {
    for pair in row {
        let place = pair.object as usize;
        if place < levels.len() && at(owners, pair.object) == NOBODY {
            let paid = least.wrapping_sub(pair.cost.wrapping_shl(shift));
            levels[place] = levels[place].max(paid);
        }
    }
}

fn lower_to(market: &mut Market, levels: &[i64]) {
    for k in 0..levels.len() {
        if k < market.prices.len() && at(market.owners.as_slice(), place_at(k)) == NOBODY {
            market.prices[k] = market.prices[k].min(levels[k]);
        }
    }
}

/// Lowers the prices of unowned objects as far as nobody prefers one to its best object, and no
/// further than the least price.
pub fn lower_unowned(
    alloc: Global,
    scaled: Scaled<'_>,
    market: &mut Market,
    arc_scans: &mut ArcScans,
) -> Result<(), AllocError> {
    let mut levels = vec![in alloc; market.least_price(); market.prices.len()]?;
    for person in 0..place_at(scaled.problem.persons()) {
        let row = scaled.problem.row(person);
        let least = least_value(row, market.prices.as_slice(), scaled.shift);
        let owners = market.owners.as_slice();
        raise_levels(row, owners, levels.as_mut_slice(), least, scaled.shift);
    }
    arc_scans.add(scaled.problem.pairs.len());
    lower_to(market, levels.as_slice());
    Ok(())
}

// The cheapest unowned object above the floor.
fn find_overpriced(market: &Market, floor: i64) -> Level {
    let mut level = Level {
        floor,
        ..Level::begin()
    };
    for (k, (price, owner)) in market.prices.iter().zip(&market.owners).enumerate() {
        let distance = price.wrapping_sub(floor);
        if *owner == NOBODY && distance > 0 && distance < level.nearest {
            level.nearest = distance;
            level.object = place_at(k);
        }
    }
    level
}

// Reaches each owned object below that one: those at the floor are passed at once.
fn reach_all(search: &mut PathSearch, market: &Market, level: Level) -> Result<(), AllocError> {
    for (k, (price, owner)) in market.prices.iter().zip(&market.owners).enumerate() {
        let distance = price.wrapping_sub(level.floor);
        if *owner != NOBODY && distance < level.nearest {
            let object = place_at(k);
            search.keep(Reached { distance, object }, NOBODY, level)?;
        }
    }
    Ok(())
}

// Goes on from the owners of passed objects to the nearest overpriced unowned object.
fn find(
    search: &mut PathSearch,
    scaled: Scaled<'_>,
    market: &Market,
    first: Level,
    arc_scans: &mut ArcScans,
) -> Result<Level, AllocError> {
    let mut level = first;
    for turn in 0..scaled.problem.persons() {
        level = search.go_on(turn, level)?;
        let person = search.next_person(market, turn);
        if person == NOBODY {
            return Ok(level);
        }
        level = search.scan(scaled, market, person, level, arc_scans)?;
        if level.is_found() {
            return Ok(level);
        }
    }
    Ok(level)
}

// Gives each person on the way back from an object the object that was reached from it. The last one
// leaves a cheap object, which nobody owns afterwards.
fn take_path(search: &PathSearch, market: &mut Market, last: u32) {
    let mut object = last;
    for _step in 0..search.passed.len().saturating_add(1) {
        let person = search.label(object).from;
        if person == NOBODY {
            return;
        }
        let before = at(market.objects.as_slice(), person);
        market.leave(person);
        market.give(object, person);
        object = before;
    }
}

// Raises the prices of unowned objects at the floor, which no person reaches.
fn raise_floor(market: &mut Market, floor: i64, raise: i64) {
    for (price, owner) in market.prices.iter_mut().zip(&market.owners) {
        if *owner == NOBODY && *price <= floor {
            *price = price.wrapping_add(raise);
        }
    }
}

/// Makes the cheapest of the overpriced unowned objects as cheap as any. Returns whether there was one.
pub fn bring_down(
    search: &mut PathSearch,
    scaled: Scaled<'_>,
    market: &mut Market,
    arc_scans: &mut ArcScans,
) -> Result<bool, AllocError> {
    let overpriced = find_overpriced(market, market.least_price());
    arc_scans.add(market.prices.len());
    if overpriced.object == NOBODY {
        return Ok(false);
    }
    search.begin();
    search.set_label(overpriced.object, overpriced.nearest, NOBODY, false);
    reach_all(search, market, overpriced)?;
    let level = find(search, scaled, market, overpriced, arc_scans)?;
    search.raise_prices(market, level.nearest);
    raise_floor(market, level.floor, level.nearest);
    take_path(search, market, level.object);
    Ok(level.nearest < FAR)
}

// The prices of overpriced unowned objects.
fn overpriced_prices(alloc: Global, market: &Market, floor: i64) -> Result<Vec<i64>, AllocError> {
    let mut overpriced = Vec::new(alloc);
    for (price, owner) in market.prices.iter().zip(&market.owners) {
        if *owner == NOBODY && *price > floor {
            overpriced.push(*price)?;
        }
    }
    Ok(overpriced)
}

// Passes all objects nearer than the level's nearest.
fn pass_all(
    search: &mut PathSearch,
    scaled: Scaled<'_>,
    market: &Market,
    first: Level,
    arc_scans: &mut ArcScans,
) -> Result<(), AllocError> {
    let mut level = first;
    for turn in 0..market.prices.len() {
        level = search.go_on(turn, level)?;
        if turn >= search.passed.len() {
            return Ok(());
        }
        let person = search.next_person(market, turn);
        if person != NOBODY {
            level = search.scan(scaled, market, person, level, arc_scans)?;
        }
    }
    Ok(())
}

// Raises the prices of unowned objects to the floor.
fn raise_to_floor(market: &mut Market, floor: i64) {
    for (price, owner) in market.prices.iter_mut().zip(&market.owners) {
        if *owner == NOBODY {
            *price = (*price).max(floor);
        }
    }
}

// The part of overpriced objects that one step brings down.
const PART: usize = 4;

/// Brings down many overpriced unowned objects: raises the floor to the price of some of them, with the
/// prices of what is reached below, and gives others to persons by tight pairs. Each step leaves fewer.
pub fn bring_down_many(
    alloc: Global,
    search: &mut PathSearch,
    scaled: Scaled<'_>,
    market: &mut Market,
    arc_scans: &mut ArcScans,
) -> Result<(), AllocError> {
    let floor = market.least_price();
    let overpriced = overpriced_prices(alloc, market, floor)?;
    let price = price_at(alloc, overpriced.as_slice(), overpriced.len() / PART)?;
    let level = Level {
        floor,
        nearest: price.wrapping_sub(floor),
        ends: false,
        ..Level::begin()
    };
    search.begin();
    reach_all(search, market, level)?;
    pass_all(search, scaled, market, level, arc_scans)?;
    search.raise_prices(market, level.nearest);
    raise_to_floor(market, price);
    arc_scans.add(market.prices.len());
    match_overpriced(alloc, scaled, market, price, arc_scans)
}
