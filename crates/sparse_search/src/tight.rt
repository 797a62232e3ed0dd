// Tight pairs, those with a person's least value: which persons can have one.
use super::market::Market;
use super::problem::{Pair, Scaled};
use super::row::{FAR, Look, least_value, look_at, value};
use search_base::{ArcScans, NOBODY, at, is_unowned, place_at, put};
use std::alloc::{AllocError, Global};

// Where a search along tight pairs stands: the least value of each person seen, the next pairs of
// each row in which an owned and an unowned object are looked for, the persons seen, and the path.
#[derive(Drop)]
struct Deepening {
    leasts: Vec<i64>,
    next: Vec<u32>,
    ahead: Vec<u32>,
    seen: Vec<bool>,
    path: Vec<u32>,
    // Unowned objects at this price or below don't count.
    floor: i64,
}

// What is seen of a row from one of its pairs on.
#[derive(Clone, Copy)]
struct Sight<'a> {
    row: &'a [Pair],
    from: u32,
    shift: u32,
    least: i64,
}

// A pair that was found, and what stands there.
#[derive(Clone, Copy)]
struct Spot {
    pair: u32,
    place: u32,
}

// Whether nobody owns an object, and its price is above the floor.
fn is_wanted(market: &Market, object: u32, floor: i64) -> bool {
    is_unowned(market.owners.as_slice(), object)
        && market.prices.get(object as usize).copied().unwrap_or(floor) > floor
}

// The first wanted object with a tight pair.
fn find_unowned(sight: Sight<'_>, market: &Market, floor: i64) -> Spot {
    let prices = market.prices.as_slice();
    for (k, pair) in sight.row.iter().enumerate().skip(sight.from as usize) {
        if is_wanted(market, pair.object, floor)
            && value(*pair, prices, sight.shift) == sight.least
        {
            return Spot {
                pair: place_at(k),
                place: pair.object,
            };
        }
    }
    Spot {
        pair: place_at(sight.row.len()),
        place: NOBODY,
    }
}

// The first owner, not seen so far, of an object with a tight pair.
fn find_owner(sight: Sight<'_>, market: &Market, seen: &[bool]) -> Spot {
    let (prices, owners) = (market.prices.as_slice(), market.owners.as_slice());
    for (k, pair) in sight.row.iter().enumerate().skip(sight.from as usize) {
        let owner = at(owners, pair.object);
        let is_new = !seen.get(owner as usize).copied().unwrap_or(true);
        if is_new && value(*pair, prices, sight.shift) == sight.least {
            return Spot {
                pair: place_at(k),
                place: owner,
            };
        }
    }
    Spot {
        pair: place_at(sight.row.len()),
        place: NOBODY,
    }
}

// Gives each person on the path the object that the next one had, and the last one this object. Nobody
// owns what the first one had.
fn take_path(path: &[u32], market: &mut Market, last: u32) {
    let mut object = last;
    for person in path.iter().rev() {
        let before = at(market.objects.as_slice(), *person);
        market.give(object, *person);
        object = before;
    }
    put(market.owners.as_mut_slice(), object, NOBODY);
}

fn mark(seen: &mut [bool], place: u32) {
    if (place as usize) < seen.len() {
        seen[place as usize] = true;
    }
}

impl Deepening {
    fn new(alloc: Global, count: usize, floor: i64) -> Result<Deepening, AllocError> {
        Ok(Deepening {
            leasts: vec![in alloc; 0i64; count]?,
            next: vec![in alloc; 0u32; count]?,
            ahead: vec![in alloc; 0u32; count]?,
            seen: vec![in alloc; false; count]?,
            path: Vec::new(alloc),
            floor,
        })
    }

    fn sight<'a>(&self, scaled: Scaled<'a>, person: u32, from: u32) -> Sight<'a> {
        Sight {
            row: scaled.problem.row(person),
            from,
            shift: scaled.shift,
            least: self.leasts.get(person as usize).copied().unwrap_or(0),
        }
    }

    fn enter(
        &mut self,
        scaled: Scaled<'_>,
        market: &Market,
        person: u32,
        arc_scans: &mut ArcScans,
    ) -> Result<(), AllocError> {
        let row = scaled.problem.row(person);
        arc_scans.add(row.len());
        let place = person as usize;
        if place < self.leasts.len() {
            self.leasts[place] = least_value(row, market.prices.as_slice(), scaled.shift);
        }
        mark(self.seen.as_mut_slice(), person);
        Ok(self.path.push(person)?)
    }

    // Keeps where the look for objects goes on.
    fn note(list: &mut [u32], person: u32, spot: Spot, arc_scans: &mut ArcScans) {
        let from = at(list, person);
        arc_scans.add(spot.pair.saturating_sub(from) as usize);
        put(list, person, spot.pair);
    }

    // One step from the end of the path: to an unowned object, to another person, or back. Returns
    // whether the first person got an object.
    fn step(
        &mut self,
        scaled: Scaled<'_>,
        market: &mut Market,
        person: u32,
        arc_scans: &mut ArcScans,
    ) -> Result<bool, AllocError> {
        let sight = self.sight(scaled, person, at(self.ahead.as_slice(), person));
        let unowned = find_unowned(sight, market, self.floor);
        Deepening::note(self.ahead.as_mut_slice(), person, unowned, arc_scans);
        if unowned.place != NOBODY {
            take_path(self.path.as_slice(), market, unowned.place);
            return Ok(true);
        }
        let sight = self.sight(scaled, person, at(self.next.as_slice(), person));
        let owner = find_owner(sight, market, self.seen.as_slice());
        Deepening::note(self.next.as_mut_slice(), person, owner, arc_scans);
        if owner.place == NOBODY {
            let _ = self.path.pop();
        } else {
            self.enter(scaled, market, owner.place, arc_scans)?;
        }
        Ok(false)
    }

    // Gives the person an object if tight pairs lead to one, and the arc scans last.
    fn augment(
        &mut self,
        scaled: Scaled<'_>,
        market: &mut Market,
        first: u32,
        arc_scans: &mut ArcScans,
    ) -> Result<(), AllocError> {
        self.path.clear();
        self.enter(scaled, market, first, arc_scans)?;
        for _step in 0..self.leasts.len().saturating_mul(2).saturating_add(1) {
            let Some(person) = self.path.last().copied() else {
                return Ok(());
            };
            if arc_scans.is_spent() || self.step(scaled, market, person, arc_scans)? {
                return Ok(());
            }
        }
        Ok(())
    }
}

/// How many persons own no object with a tight pair, among each `step`th one.
pub fn count_slack(
    scaled: Scaled<'_>,
    market: &Market,
    step: usize,
    arc_scans: &mut ArcScans,
) -> usize {
    let mut count = 0usize;
    for k in 0..scaled.problem.persons() / step.max(1) {
        let person = place_at(k.wrapping_mul(step));
        let own = at(market.objects.as_slice(), person);
        let (prices, owners) = (market.prices.as_slice(), market.owners.as_slice());
        let row = scaled.problem.row(person);
        arc_scans.add(row.len());
        let look = look_at(row, prices, owners, scaled.shift, own);
        if look.own > look.least || look.own >= FAR {
            count = count.wrapping_add(1);
        }
    }
    count
}

// Takes its object from a person whose pair isn't tight, and gives an unowned one with a tight pair.
fn settle_person(market: &mut Market, person: u32, own: u32, look: Look) {
    if own != NOBODY && (look.own > look.least || look.own >= FAR) {
        market.leave(person);
    }
    if at(market.objects.as_slice(), person) == NOBODY && look.unowned != NOBODY {
        market.give(look.unowned, person);
    }
}

/// Takes their objects from persons whose pairs aren't tight, and gives unowned objects with tight
/// pairs to persons without one. Returns the sum of how much objects were worse than the best, at most
/// this much each, and as much for persons without one.
pub fn settle(scaled: Scaled<'_>, market: &mut Market, most: i64, arc_scans: &mut ArcScans) -> i64 {
    let mut sum = 0i64;
    for person in 0..place_at(scaled.problem.persons()) {
        let own = at(market.objects.as_slice(), person);
        let (prices, owners) = (market.prices.as_slice(), market.owners.as_slice());
        let row = scaled.problem.row(person);
        let look = look_at(row, prices, owners, scaled.shift, own);
        let slack = look.own.saturating_sub(look.least).min(most);
        sum = sum.saturating_add(slack);
        settle_person(market, person, own, look);
    }
    arc_scans.add(scaled.problem.pairs.len());
    sum
}

/// Assigns persons from this one on by tight pairs, as far as a search in depth finds them, while arc scans
/// are left. Returns the person to go on from, at the end the number of persons.
pub fn match_tight(
    alloc: Global,
    scaled: Scaled<'_>,
    market: &mut Market,
    first: u32,
    arc_scans: &mut ArcScans,
) -> Result<u32, AllocError> {
    let persons = scaled.problem.persons();
    let mut deepening = Deepening::new(alloc, persons, i64::MIN)?;
    for person in first..place_at(persons) {
        if arc_scans.is_spent() {
            return Ok(person);
        }
        if at(market.objects.as_slice(), person) == NOBODY {
            deepening.augment(scaled, market, person, arc_scans)?;
        }
    }
    Ok(place_at(persons))
}

/// Assigns owners of objects at the floor by tight pairs that lead to overpriced unowned objects, as far as a
/// search in depth finds these and arc scans are left.
pub fn match_overpriced(
    alloc: Global,
    scaled: Scaled<'_>,
    market: &mut Market,
    floor: i64,
    arc_scans: &mut ArcScans,
) -> Result<(), AllocError> {
    let persons = scaled.problem.persons();
    let mut deepening = Deepening::new(alloc, persons, floor)?;
    for person in 0..place_at(persons) {
        let object = at(market.objects.as_slice(), person);
        let is_at_floor = market.prices.get(object as usize).copied() == Some(floor);
        if is_at_floor && !deepening.seen.get(person as usize).copied().unwrap_or(true) {
            deepening.augment(scaled, market, person, arc_scans)?;
        }
    }
    Ok(())
}
