// The search for a shortest augmenting path (Dijkstra's; Edmonds and Karp 1972, Tomizawa 1971) over
// listed pairs. It keeps the objects at the current distance in a list, farther ones in a heap, and
// none beyond the nearest unowned one. A pair's length is how much it is worse than the person's best
// pair, so persons may own objects that are worse by some slackness.
use super::market::Market;
use super::problem::{Pair, Scaled};
use super::row::{FAR, least_value, value};
use search_base::{ArcScans, Heap, NOBODY, Reached, at};
use std::alloc::{AllocError, Global};

// How an object was reached.
#[derive(Clone, Copy)]
pub struct Label {
    pub distance: i64,
    // The person that it was reached from.
    pub from: u32,
    // The search in which it was reached: its number twice, and one more once the object is passed.
    pub stamp: u32,
}

/// What searches keep from one to the next.
#[derive(Drop)]
pub struct PathSearch {
    pub labels: Vec<Label>,
    pub heap: Heap,
    // The objects that were passed or wait at the current distance.
    pub passed: Vec<u32>,
    pub stamp: u32,
}

/// The end of a search.
#[derive(Clone, Copy)]
pub enum End {
    /// The person got an object.
    Assigned,
    /// No unowned object can be reached: the persons who were looked at are a Hall set.
    Blocked,
}

// The nearest unowned object so far, and the distance of the object that was passed last.
#[derive(Clone, Copy)]
pub struct Level {
    pub nearest: i64,
    pub object: u32,
    pub distance: i64,
    // Unowned objects at this price or below aren't reached.
    pub floor: i64,
    // Whether another unowned object ends a search; else it is passed like an owned one.
    pub ends: bool,
}

impl Level {
    pub fn begin() -> Level {
        Level {
            nearest: FAR,
            object: NOBODY,
            distance: 0,
            floor: i64::MIN,
            ends: true,
        }
    }

    // Whether an unowned object at the current distance was found.
    pub fn is_found(self) -> bool {
        self.object != NOBODY && self.nearest == self.distance
    }
}

impl PathSearch {
    pub fn new(alloc: Global, objects: usize) -> Result<PathSearch, AllocError> {
        let label = Label {
            distance: 0,
            from: NOBODY,
            stamp: 0,
        };
        Ok(PathSearch {
            labels: vec![in alloc; label; objects]?,
            heap: Heap::new(alloc),
            passed: Vec::new(alloc),
            stamp: 0,
        })
    }

    pub fn begin(&mut self) {
        self.heap.clear();
        self.passed.clear();
        self.stamp = self.stamp.wrapping_add(2);
    }

    // Whether an object can be reached at less than its distance so far.
    #[inline(always)]
    pub fn is_nearer(&self, object: u32, distance: i64) -> bool {
        match self.labels.get(object as usize) {
            None => false,
            Some(label) => label.stamp < self.stamp || distance < label.distance,
        }
    }

    #[inline(always)]
    pub fn set_label(&mut self, object: u32, distance: i64, from: u32, is_passed: bool) {
        let place = object as usize;
        if place < self.labels.len() {
            self.labels[place] = Label {
                distance,
                from,
                stamp: if is_passed {
                    self.stamp.wrapping_add(1)
                } else {
                    self.stamp
                },
            };
        }
    }

    // An object that was reached and doesn't end the search: it is passed at once, or waits in the heap.
    pub fn keep(&mut self, reached: Reached, from: u32, level: Level) -> Result<(), AllocError> {
        let is_passed = reached.distance == level.distance;
        self.set_label(reached.object, reached.distance, from, is_passed);
        if is_passed {
            Ok(self.passed.push(reached.object)?)
        } else {
            self.heap.push(reached)
        }
    }

    // One pair of a person.
    #[inline(always)]
    fn reach(
        &mut self,
        market: &Market,
        reached: Reached,
        from: u32,
        level: Level,
    ) -> Result<Level, AllocError> {
        if reached.distance >= level.nearest || !self.is_nearer(reached.object, reached.distance) {
            return Ok(level);
        }
        let is_owned = at(market.owners.as_slice(), reached.object) != NOBODY;
        let price = market.prices.get(reached.object as usize).copied();
        if !is_owned && price.unwrap_or(0) <= level.floor {
            return Ok(level);
        }
        if is_owned || !level.ends {
            self.keep(reached, from, level)?;
            return Ok(level);
        }
        self.set_label(reached.object, reached.distance, from, false);
        Ok(Level {
            nearest: reached.distance,
            object: reached.object,
            ..level
        })
    }

    // The pairs of a person who is reached at `base` less its values.
    fn reach_row(
        &mut self,
        row: &[Pair],
        shift: u32,
        base: i64,
        market: &Market,
        from: u32,
        level: Level,
    ) -> Result<Level, AllocError> {
        let mut level = level;
        for pair in row {
            let distance = base.wrapping_add(value(*pair, market.prices.as_slice(), shift));
            let reached = Reached {
                distance,
                object: pair.object,
            };
            level = self.reach(market, reached, from, level)?;
            if level.is_found() {
                return Ok(level);
            }
        }
        Ok(level)
    }

    // A person at some distance.
    pub fn scan(
        &mut self,
        scaled: Scaled<'_>,
        market: &Market,
        person: u32,
        level: Level,
        arc_scans: &mut ArcScans,
    ) -> Result<Level, AllocError> {
        let row = scaled.problem.row(person);
        arc_scans.add(row.len());
        let least = least_value(row, market.prices.as_slice(), scaled.shift);
        let base = level.distance.wrapping_sub(least);
        self.reach_row(row, scaled.shift, base, market, person, level)
    }

    // Passes the nearest object of the heap, if it is nearer than the nearest unowned one.
    fn pass_next(&mut self, level: Level) -> Result<Level, AllocError> {
        for _entry in 0..self.heap.len() {
            let Some(first) = self.heap.pop() else {
                break;
            };
            if first.distance >= level.nearest {
                break;
            }
            let label = self.label(first.object);
            if label.stamp == self.stamp && label.distance == first.distance {
                self.set_label(first.object, first.distance, label.from, true);
                self.passed.push(first.object)?;
                return Ok(Level {
                    distance: first.distance,
                    ..level
                });
            }
        }
        Ok(Level {
            distance: level.nearest,
            ..level
        })
    }

    pub fn label(&self, object: u32) -> Label {
        self.labels.get(object as usize).copied().unwrap_or(Label {
            distance: 0,
            from: NOBODY,
            stamp: 0,
        })
    }

    // Where the search goes on after so many passed objects: the next one, if it waits.
    pub fn go_on(&mut self, turn: usize, level: Level) -> Result<Level, AllocError> {
        if turn < self.passed.len() {
            Ok(level)
        } else {
            self.pass_next(level)
        }
    }

    // The next person, the owner of the next passed object.
    pub fn next_person(&self, market: &Market, turn: usize) -> u32 {
        match self.passed.get(turn) {
            Some(object) => at(market.owners.as_slice(), *object),
            None => NOBODY,
        }
    }

    // Searches to the nearest unowned object.
    fn find(
        &mut self,
        scaled: Scaled<'_>,
        market: &Market,
        first: u32,
        arc_scans: &mut ArcScans,
    ) -> Result<Level, AllocError> {
        self.begin();
        let mut level = Level::begin();
        let mut person = first;
        for turn in 0..scaled.problem.persons() {
            level = self.scan(scaled, market, person, level, arc_scans)?;
            if level.is_found() {
                return Ok(level);
            }
            level = self.go_on(turn, level)?;
            person = self.next_person(market, turn);
            if person == NOBODY {
                return Ok(level);
            }
        }
        Ok(level)
    }

    // Raises the prices of the passed objects up to the level of the object at the end.
    pub fn raise_prices(&self, market: &mut Market, nearest: i64) {
        for object in &self.passed {
            let distance = self.label(*object).distance;
            let place = *object as usize;
            if distance < nearest && place < market.prices.len() {
                let raise = nearest.wrapping_sub(distance);
                market.prices[place] = market.prices[place].wrapping_add(raise);
            }
        }
    }

    // Gives each person on the way back from an object the object that was reached from it.
    fn take_path(&self, market: &mut Market, last: u32) {
        let mut object = last;
        for _step in 0..self.passed.len().saturating_add(1) {
            let person = self.label(object).from;
            let before = at(market.objects.as_slice(), person);
            market.give(object, person);
            if before == NOBODY {
                return;
            }
            object = before;
        }
    }

    /// Assigns a person by a shortest path.
    pub fn augment(
        &mut self,
        scaled: Scaled<'_>,
        market: &mut Market,
        first: u32,
        arc_scans: &mut ArcScans,
    ) -> Result<End, AllocError> {
        let level = self.find(scaled, market, first, arc_scans)?;
        if level.object == NOBODY {
            return Ok(End::Blocked);
        }
        self.raise_prices(market, level.nearest);
        self.take_path(market, level.object);
        Ok(End::Assigned)
    }

    /// The persons of a blocked search.
    pub fn blocked_persons(
        &self,
        alloc: Global,
        market: &Market,
        first: u32,
    ) -> Result<Vec<u32>, AllocError> {
        let mut persons = Vec::new(alloc);
        persons.push(first)?;
        for object in &self.passed {
            persons.push(at(market.owners.as_slice(), *object))?;
        }
        Ok(persons)
    }
}
