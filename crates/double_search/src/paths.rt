// The search for a shortest path from a person without an object to an unowned object (Dijkstra's;
// Edmonds and Karp 1972, Tomizawa 1971).
use super::lists::{Lists, NOBODY, at, copy, fill, number_of, place_of, put};
use super::reach::{nearest, reach};
use super::rows::Rows;
use super::whole::FAR;

// The key that hides a passed object.
const PASSED: i64 = -(1 << 61);

// So many paths and more say something of the others.
const FEWEST: usize = 32;

// How a search for a path ended.
#[derive(Clone, Copy, PartialEq, Eq)]
pub enum Path {
    // The person has an object.
    Found,
    // So many persons were scanned, and no other object is reached from them than the passed ones.
    None(usize),
    // The other paths can be expected to take too many scans.
    Long,
    // A path doesn't lead back to the person.
    Lost,
}

impl<'a> Lists<'a> {
    // Scans a person in this turn; the least distance of all objects.
    fn scan(&mut self, rows: &mut Rows<'_>, turn: usize, person: usize, base: i64) -> i64 {
        put(self.scanned, turn, number_of(person));
        put(self.bases, turn, base);
        let row = rows.row(person);
        self.scans = self.scans.wrapping_add(1);
        let keys = &mut *self.keys;
        let distances = &mut *self.distances;
        let blocks = &mut *self.blocks;
        reach(row, keys, base, distances, blocks)
    }

    // No object is reached, and none is passed.
    pub fn begin_path(&mut self) {
        let duals = &mut *self.duals;
        let keys = &mut *self.keys;
        copy(duals, keys);
        fill(self.distances, FAR);
        fill(self.blocks, FAR);
    }

    pub fn nearest_at(&self, level: i64) -> i64 {
        let distances = &*self.distances;
        let owners = &*self.owners;
        let blocks = &*self.blocks;
        nearest(distances, owners, blocks, level)
    }

    // Passes an object at this distance, and hides it.
    pub fn pass(&mut self, turn: usize, object: usize, level: i64) {
        put(self.passed, turn, number_of(object));
        put(self.levels, turn, level);
        put(self.keys, object, PASSED);
        put(self.distances, object, FAR);
    }

    // The turn, before this one, in which the object's distance was found; or else this one.
    fn turn_of(&self, rows: &Rows<'_>, before: usize, object: usize, distance: i64) -> usize {
        let dual = at(self.duals, object);
        for turn in 0..before {
            let person = place_of(at(self.scanned, turn));
            let cost = rows.cost(person, object);
            if cost.wrapping_sub(dual).wrapping_sub(at(self.bases, turn)) == distance {
                return turn;
            }
        }
        before
    }

    // Gives each person on the way back from an object the object that was reached from it.
    fn walk_back(&mut self, rows: &Rows<'_>, turns: usize, end: usize, level: i64) -> bool {
        let mut object = end;
        let mut distance = level;
        let mut before = turns;
        for _ in 0..turns {
            let turn = self.turn_of(rows, before, object, distance);
            if turn >= before {
                return false;
            }
            let person = place_of(at(self.scanned, turn));
            self.give(person, object);
            if turn == 0 {
                return true;
            }
            before = turn;
            object = place_of(at(self.passed, turn.wrapping_sub(1)));
            distance = at(self.levels, turn.wrapping_sub(1));
        }
        false
    }

    // Lowers the duals of the passed objects.
    fn lower_passed(&mut self, count: usize, level: i64) {
        for turn in 0..count {
            let object = place_of(at(self.passed, turn));
            let less = level.wrapping_sub(at(self.levels, turn));
            let dual = at(self.duals, object).wrapping_sub(less);
            put(self.duals, object, dual);
        }
    }

    // Ends a path in this turn at this distance.
    pub fn end_path(&mut self, turn: usize, level: i64, is_back: bool) -> Path {
        self.lower_passed(turn, level);
        if is_back { Path::Found } else { Path::Lost }
    }

    // What is taken from the costs of a person whose object is passed at this distance.
    pub fn base_of(&self, own: i64, object: usize, level: i64) -> i64 {
        own.wrapping_sub(at(self.duals, object)).wrapping_sub(level)
    }

    // Gives a person an object, if a path leads to an unowned one.
    fn augment(&mut self, rows: &mut Rows<'_>, first: usize) -> Path {
        self.begin_path();
        let mut person = first;
        let mut base = 0i64;
        for turn in 0..self.objects.len() {
            let level = self.scan(rows, turn, person, base);
            if level >= FAR {
                return Path::None(turn.wrapping_add(1));
            }
            let object = place_of(self.nearest_at(level));
            let owner = at(self.owners, object);
            if owner == NOBODY {
                let is_back = self.walk_back(rows, turn.wrapping_add(1), object, level);
                return self.end_path(turn, level, is_back);
            }
            self.pass(turn, object, level);
            person = place_of(owner);
            base = self.base_of(rows.cost(person, object), object, level);
        }
        Path::Lost
    }

    // Gives each person an object, unless more scans than so many are left, at the pace of the last
    // paths.
    pub fn augment_all(&mut self, rows: &mut Rows<'_>, most: usize) -> Path {
        let mut left = self.count_left();
        let part = (left / 16).max(FEWEST);
        let mut before = self.scans;
        for person in 0..self.objects.len() {
            if at(self.objects, person) == NOBODY {
                let path = match rows {
                    Rows::Cheap(rows) => self.augment_cheaply(rows, person),
                    _ => self.augment(rows, person),
                };
                left = left.wrapping_sub(1);
                if path != Path::Found {
                    return path;
                }
                if left % part.max(1) == 0 {
                    let scans = self.scans.wrapping_sub(before) / part.max(1);
                    if scans.saturating_mul(left) > most {
                        return Path::Long;
                    }
                    before = self.scans;
                }
            }
        }
        Path::Found
    }
}
