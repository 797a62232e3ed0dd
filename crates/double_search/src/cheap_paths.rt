// Shortest paths (as in `paths`) over cheap pairs. No dual is above 0, the dual of each unowned
// object. So of a person's other pairs only those with unowned objects count: a path that goes on
// from another object ends at least as near at an unowned one.
use super::cheap::CheapPair;
use super::lists::{Lists, NOBODY, at, number_of, place_of, put};
use super::paths::Path;
use super::reach::{BLOCK, least_of_block};
use super::rows::CheapRows;
use super::whole::FAR;

// The nearest unowned object that no cheap pair leads to: its distance, and the turn of the person
// that reaches it.
#[derive(Clone, Copy)]
struct Rest {
    level: i64,
    turn: usize,
}

impl Rest {
    fn with(self, level: i64, turn: usize) -> Rest {
        if level < self.level {
            Rest { level, turn }
        } else {
            self
        }
    }
}

impl<'a> Lists<'a> {
    // Lowers the distances of a person's cheap objects, where that takes them below a limit.
    fn reach(&mut self, pairs: &[CheapPair], turn: usize, base: i64, limit: i64) {
        for pair in pairs {
            let object = pair.object;
            let key = at(self.keys, object);
            let distance = pair.cost.wrapping_sub(key).wrapping_sub(base);
            if distance < limit && distance < at(self.distances, object) {
                put(self.distances, object, distance);
                put(self.turns, object, number_of(turn));
                let block = object / BLOCK;
                let least = at(self.blocks, block).min(distance);
                put(self.blocks, block, least);
            }
        }
    }

    fn least_distance(&self) -> i64 {
        self.blocks.iter().copied().min().unwrap_or(FAR)
    }

    // Passes an object at this distance, and hides it.
    fn pass_in_block(&mut self, turn: usize, object: usize, level: i64) {
        self.pass(turn, object, level);
        let distances = &*self.distances;
        let block = object / BLOCK;
        let least = least_of_block(distances, block);
        put(self.blocks, block, least);
    }

    // Gives each person on the way back from an object the object that was reached from it.
    fn walk_back_by_turns(&mut self, count: usize, end: usize) -> bool {
        let mut object = end;
        for _ in 0..count {
            let turn = place_of(at(self.turns, object));
            let person = place_of(at(self.scanned, turn));
            self.give(person, object);
            if turn == 0 {
                return true;
            }
            object = place_of(at(self.passed, turn.wrapping_sub(1)));
        }
        false
    }

    // Ends a path in this turn, at an unowned object at this distance.
    fn end_at(&mut self, turn: usize, end: usize, level: i64) -> Path {
        let is_back = self.walk_back_by_turns(turn.wrapping_add(1), end);
        self.end_path(turn, level, is_back)
    }

    // The same at any unowned object that no cheap pair led to, if the pair costs no more than the
    // rest.
    fn end_at_rest(&mut self, rows: &CheapRows<'_>, turn: usize, rest: Rest) -> Path {
        let Some(object) = self.owners.iter().position(|owner| *owner == NOBODY) else {
            return Path::Lost;
        };
        let person = place_of(at(self.scanned, rest.turn));
        if rest.level >= FAR || rows.doubles.cost(person, object) > rows.cheap.rest(person) {
            return Path::Lost;
        }
        put(self.turns, object, number_of(rest.turn));
        self.end_at(turn, object, rest.level)
    }

    // Gives a person an object by a shortest path.
    pub fn augment_cheaply(&mut self, rows: &CheapRows<'_>, first: usize) -> Path {
        self.begin_path();
        let mut rest = Rest {
            level: FAR,
            turn: 0,
        };
        let mut person = first;
        let mut base = 0i64;
        for turn in 0..self.objects.len() {
            put(self.scanned, turn, number_of(person));
            rest = rest.with(rows.cheap.rest(person).wrapping_sub(base), turn);
            self.reach(rows.cheap.of(person), turn, base, rest.level);
            let level = self.least_distance();
            if level >= rest.level {
                return self.end_at_rest(rows, turn, rest);
            }
            let object = place_of(self.nearest_at(level));
            let owner = at(self.owners, object);
            if owner == NOBODY {
                return self.end_at(turn, object, level);
            }
            self.pass_in_block(turn, object, level);
            person = place_of(owner);
            base = self.base_of(rows.doubles.cost(person, object), object, level);
        }
        Path::Lost
    }
}
