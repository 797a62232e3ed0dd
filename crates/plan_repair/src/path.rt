// A shortest path from a person without an object to an object without an owner (Dijkstra's; Jonker
// and Volgenant 1987), over costs that nobody has judged.
use super::plan::Plan;
use super::rows::turned;
use assign_core::{Cost, Sense};
use cost_lists::Price;
use search_base::{Heap, NOBODY, Reached, at, place_at, put};
use std::alloc::{AllocError, Global};

// Stands for all dummies, where a path passes or begins at one.
pub const DUMMY: u32 = u32::MAX - 1;

// The number of objects that are compared at once.
const BLOCK: usize = 32;

// Farther than any object, and the key of one that is passed.
const FAR: i64 = i64::MAX / 2;

// No search puts more objects on the heap, as a number for each object.
const MOST_PUSHED: usize = 32;

// Whether the sum of a cost and a key is below the limit. Compilers make vectors of this loop, which
// keeps the signs of the differences.
fn is_any_below(sense: Sense, costs: &[Cost], keys: &[Price], limit: i64) -> bool {
    let mut signs = 0i64;
    for (cost, key) in costs.iter().zip(keys) {
        signs |= turned(sense, *cost).wrapping_add(*key).wrapping_sub(limit);
    }
    signs < 0
}

// A person whose row is read, and the distance of its objects less their costs and prices.
#[derive(Clone, Copy)]
struct Scanned {
    person: u32,
    base: i64,
}

// What is reached from the beginning of the path.
#[derive(Drop)]
struct Tree {
    distances: Vec<i64>,
    // The person from which an object is reached.
    before: Vec<u32>,
    passed: Vec<u32>,
    heap: Heap,
    // The nearest end, and its distance.
    end: u32,
    best: i64,
    // The distance up to which all objects are passed.
    level: i64,
    // One end, and how far it is from the object of each person.
    ahead: u32,
    steps: Vec<i64>,
    // Whether any object without an owner is an end.
    takes_any: bool,
    // The distance of dummies, once they are reached, and the object at which they were.
    dummies: Option<i64>,
    spare: u32,
    // Whether an object was nearer than one that is passed: the prices fit no plan.
    is_odd: bool,
}

impl Tree {
    fn is_end(&self, plan: &Plan<'_>, object: u32) -> bool {
        if self.takes_any {
            plan.is_unowned(object)
        } else {
            plan.is_left(object)
        }
    }

    // Whether an object from the heap has this distance still, and dummies didn't come there before.
    fn is_new(&self, plan: &Plan<'_>, next: Reached) -> bool {
        let known = self.distances.get(next.object as usize).copied();
        known == Some(next.distance) && (self.dummies.is_none() || !plan.is_unowned(next.object))
    }

    // The end ahead of a person whose object is reached bounds the search.
    fn look_ahead(&mut self, person: u32, distance: i64) {
        let Some(step) = self.steps.get(person as usize) else {
            return;
        };
        let there = distance.wrapping_add(*step);
        if there < self.best {
            self.best = there;
            self.end = self.ahead;
            put(self.before.as_mut_slice(), self.ahead, person);
        }
    }

    // Reaches an object, if it is nearer than before.
    fn reach(
        &mut self,
        plan: &Plan<'_>,
        object: u32,
        distance: i64,
        from: u32,
    ) -> Result<(), AllocError> {
        if distance < self.level {
            self.is_odd = true;
        }
        match self.distances.get_mut(object as usize) {
            Some(known) if distance < *known => *known = distance,
            _ => return Ok(()),
        }
        put(self.before.as_mut_slice(), object, from);
        self.look_ahead(plan.owner(object), distance);
        if self.is_end(plan, object) {
            self.best = distance;
            self.end = object;
        } else if self.dummies.is_none() || !plan.is_unowned(object) {
            self.heap.push(Reached { distance, object })?;
        }
        Ok(())
    }

    // Reaches the objects of a block, which begins at this place, as far as they are nearer than the end.
    fn reach_block(
        &mut self,
        plan: &Plan<'_>,
        costs: &[Cost],
        keys: &[Price],
        from: usize,
        one: Scanned,
    ) -> Result<(), AllocError> {
        for (k, (cost, key)) in costs.iter().zip(keys).enumerate() {
            let sum = turned(plan.rows.sense, *cost).wrapping_add(*key);
            let distance = sum.wrapping_add(one.base);
            if distance < self.best {
                let object = place_at(from.wrapping_add(k));
                self.reach(plan, object, distance, one.person)?;
            }
        }
        Ok(())
    }

    // Reaches objects from a person.
    fn scan_row(
        &mut self,
        plan: &Plan<'_>,
        keys: &[Price],
        one: Scanned,
    ) -> Result<(), AllocError> {
        let mut from = 0usize;
        let row = plan.rows.row(one.person);
        for (costs, keys) in row.chunks(BLOCK).zip(keys.chunks(BLOCK)) {
            let limit = self.best.wrapping_sub(one.base);
            if is_any_below(plan.rows.sense, costs, keys, limit) {
                self.reach_block(plan, costs, keys, from, one)?;
            }
            from = from.wrapping_add(BLOCK);
        }
        Ok(())
    }

    // Reaches objects from the dummies, who own this object.
    fn scan_dummies(
        &mut self,
        plan: &Plan<'_>,
        keys: &[Price],
        spare: u32,
        base: i64,
    ) -> Result<(), AllocError> {
        self.dummies = Some(base);
        self.spare = spare;
        for (k, key) in keys.iter().enumerate() {
            let distance = key.wrapping_add(base);
            if distance < self.best {
                self.reach(plan, place_at(k), distance, DUMMY)?;
            }
        }
        Ok(())
    }

    // The nearest end that the first person lists bounds the search.
    fn look_at_ends(
        &mut self,
        plan: &Plan<'_>,
        person: u32,
        ends: &[u32],
    ) -> Result<(), AllocError> {
        for object in ends {
            let cost = plan.rows.cost(person, *object);
            let distance = cost.wrapping_add(plan.price(*object));
            if distance < self.best && self.is_end(plan, *object) {
                self.reach(plan, *object, distance, person)?;
            }
        }
        Ok(())
    }
}

/// A search for one path.
#[derive(Drop)]
pub struct Search {
    // The prices of objects, or what is far where an object is passed.
    keys: Vec<Price>,
    tree: Tree,
}

impl Search {
    /// A search that begins. Any object without an owner may end it, or only those that lack one.
    pub fn new(alloc: Global, plan: &Plan<'_>, takes_any: bool) -> Result<Search, AllocError> {
        let objects = plan.prices.len();
        let tree = Tree {
            distances: vec![in alloc; FAR; objects]?,
            before: vec![in alloc; NOBODY; objects]?,
            passed: Vec::new(alloc),
            heap: Heap::new(alloc),
            end: NOBODY,
            best: FAR,
            level: i64::MIN,
            ahead: NOBODY,
            steps: Vec::new(alloc),
            takes_any,
            dummies: None,
            spare: NOBODY,
            is_odd: false,
        };
        let keys = plan.prices.as_slice().to_vec(alloc)?;
        Ok(Search { keys, tree })
    }

    // Passes the nearest object: its owner is read.
    fn pass(&mut self, plan: &Plan<'_>, next: Reached) -> Result<(), AllocError> {
        let Reached { distance, object } = next;
        self.tree.level = distance;
        self.tree.passed.push(object)?;
        if let Some(key) = self.keys.get_mut(object as usize) {
            *key = FAR;
        }
        let keys = self.keys.as_slice();
        let person = plan.owner(object);
        if person != NOBODY {
            let base = distance.wrapping_sub(plan.value(person));
            return self.tree.scan_row(plan, keys, Scanned { person, base });
        }
        if self.tree.dummies.is_none() {
            self.tree.scan_dummies(plan, keys, object, distance)?;
        }
        Ok(())
    }

    // Reads the row of the person where the path begins, or of the dummies.
    fn begin(
        &mut self,
        alloc: Global,
        plan: &Plan<'_>,
        person: u32,
        ends: &[u32],
    ) -> Result<(), AllocError> {
        let keys = self.keys.as_slice();
        if person == DUMMY {
            return self.tree.scan_dummies(plan, keys, NOBODY, 0);
        }
        if let Some(end) = ends.first() {
            self.tree.ahead = *end;
            self.tree.steps = plan.steps_to(alloc, *end)?;
        }
        self.tree.look_at_ends(plan, person, ends)?;
        self.tree.scan_row(plan, keys, Scanned { person, base: 0 })
    }

    /// Searches a path from a person, or from the dummies, to one of these ends or another. Returns
    /// whether one is found before so many rows are read, and counts these.
    pub fn run(
        &mut self,
        alloc: Global,
        plan: &Plan<'_>,
        person: u32,
        ends: &[u32],
        left: &mut usize,
    ) -> Result<bool, AllocError> {
        self.begin(alloc, plan, person, ends)?;
        let most = self.keys.len().saturating_mul(MOST_PUSHED);
        for taken in 0..most {
            let Some(next) = self.tree.heap.pop() else {
                return Ok(self.tree.end != NOBODY);
            };
            if next.distance >= self.tree.best {
                return Ok(true);
            }
            if self.tree.is_new(plan, next) {
                let spare = most.wrapping_sub(taken);
                if *left == 0 || self.tree.is_odd || self.tree.heap.len() >= spare {
                    return Ok(false);
                }
                *left = left.wrapping_sub(1);
                self.pass(plan, next)?;
            }
        }
        Ok(false)
    }

    // Raises the prices of passed objects up to the distance of the end.
    fn raise(&self, plan: &mut Plan<'_>) {
        for object in &self.tree.passed {
            if !plan.is_unowned(*object) {
                let known = self.tree.distances.get(*object as usize).copied();
                let rise = self.tree.best.wrapping_sub(known.unwrap_or(self.tree.best));
                let price = plan.price(*object).wrapping_add(rise);
                plan.set_price(*object, price);
            }
        }
    }

    // Lowers all prices as far as those of the dummies would have to rise.
    fn lower(&self, plan: &mut Plan<'_>, base: i64) {
        let fall = self.tree.best.wrapping_sub(base);
        for k in 0..self.keys.len() {
            let object = place_at(k);
            if !plan.is_unowned(object) || plan.is_left(object) {
                let price = plan.price(object).wrapping_sub(fall);
                plan.set_price(object, price);
            }
        }
    }

    // Gives the objects on the path to those who reach them.
    fn give(&self, plan: &mut Plan<'_>) {
        let mut object = self.tree.end;
        for _ in 0..self.keys.len().saturating_add(2) {
            let person = at(self.tree.before.as_slice(), object);
            object = if person == DUMMY {
                put(plan.owners.as_mut_slice(), object, NOBODY);
                self.tree.spare
            } else {
                plan.give(person, object)
            };
            if object == NOBODY {
                return;
            }
        }
    }

    /// Changes a plan along the path that is found, and its prices so that it stays best.
    pub fn change(&self, plan: &mut Plan<'_>) {
        self.raise(plan);
        if let Some(base) = self.tree.dummies {
            self.lower(plan, base);
        }
        self.give(plan);
    }
}
