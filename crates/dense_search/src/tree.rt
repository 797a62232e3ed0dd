// The paths of a search: how far each reached object is, and by which person it was reached.
use super::market::Market;
use super::number::Number;
use super::reading::Reading;
use search_base::{NOBODY, place_at};
use std::alloc::{AllocError, Global};
use std::collections::BinaryHeap;

// The distance of an object, and the person that it was reached from.
#[derive(Clone, Copy)]
pub struct Label<K> {
    pub distance: K,
    pub from: u32,
}

impl<K: Number> Label<K> {
    fn unreached() -> Label<K> {
        Label {
            distance: K::far(),
            from: NOBODY,
        }
    }
}

// A scanned person: an object's distance is the sum of its value for the person and `base`.
#[derive(Clone, Copy)]
pub struct Scanned<K> {
    pub person: u32,
    pub base: K,
}

#[derive(Drop)]
pub struct Tree<K> {
    pub labels: Vec<Label<K>>,
    // The reached objects, whose labels are reset after the search.
    reached: Vec<u32>,
    // The objects of known distance, the nearest first. Their owners are scanned in this order.
    pub passed: Vec<u32>,
    // Other owned objects with their distances negated. One that got nearer is in it again.
    heap: BinaryHeap<(i64, u32)>,
    // The distance of the last passed object.
    pub level: K,
    // The nearest end of a path so far, and its distance.
    pub end: u32,
    pub best: K,
    // Unowned objects end a path if their price is above this one.
    pub floor: K,
}

impl<K: Number> Tree<K> {
    pub fn new(alloc: Global, objects: usize) -> Result<Tree<K>, AllocError> {
        Ok(Tree {
            labels: vec![in alloc; Label::unreached(); objects]?,
            reached: Vec::new(alloc),
            passed: Vec::new(alloc),
            heap: BinaryHeap::new(alloc),
            level: K::nowhere(),
            end: NOBODY,
            best: K::far(),
            floor: K::nowhere(),
        })
    }

    pub fn label(&self, object: u32) -> Label<K> {
        self.labels
            .get(object as usize)
            .copied()
            .unwrap_or(Label::unreached())
    }

    // Notes a distance if it is less than the one known before.
    fn is_nearer(&mut self, at: usize, came: Label<K>) -> Result<bool, AllocError> {
        if at >= self.labels.len() || !came.distance.is_below(self.labels[at].distance) {
            return Ok(false);
        }
        if !self.labels[at].distance.is_below(K::far()) {
            self.reached.push(place_at(at))?;
        }
        self.labels[at] = came;
        Ok(true)
    }

    // Reaches an object nearer than the best end.
    pub fn reach(
        &mut self,
        market: &Market<'_, K>,
        at: usize,
        came: Label<K>,
    ) -> Result<(), AllocError> {
        if !self.is_nearer(at, came)? {
            return Ok(());
        }
        let object = place_at(at);
        if market.owner(object) == NOBODY && self.floor.is_below(market.price(object)) {
            self.best = came.distance;
            self.end = object;
        } else if !self.level.is_below(came.distance) {
            self.passed.push(object)?;
        } else {
            let distance = came.distance.wide();
            self.heap.push((distance.wrapping_neg(), object))?;
        }
        Ok(())
    }

    // Reaches an object from a person, if it is nearer than the best end.
    fn reach_at(
        &mut self,
        market: &Market<'_, K>,
        at: usize,
        distance: K,
        from: u32,
    ) -> Result<(), AllocError> {
        if !distance.is_below(self.best) {
            return Ok(());
        }
        self.reach(market, at, Label { distance, from })
    }

    // The objects of a block, which begins at this place, that are nearer than the best end.
    pub fn reach_block<R: Reading<K>>(
        &mut self,
        market: &Market<'_, K>,
        reading: &R,
        costs: &[K],
        keys: &[K],
        at: usize,
        one: Scanned<K>,
    ) -> Result<(), AllocError> {
        let mut place = at;
        for (cost, key) in costs.iter().zip(keys) {
            let distance = reading.value(*cost).plus(*key).plus(one.base);
            self.reach_at(market, place, distance, one.person)?;
            place = place.wrapping_add(1);
        }
        Ok(())
    }

    // Passes the nearest object that waits in the heap, if it is nearer than the best end.
    pub fn pass_next(&mut self, keys: &[K]) -> Result<(), AllocError> {
        for _ in 0..self.heap.len() {
            let Some((negated, object)) = self.heap.pop() else {
                return Ok(());
            };
            let distance = negated.wrapping_neg();
            if distance >= self.best.wide() {
                return Ok(());
            }
            let key = keys.get(object as usize).copied().unwrap_or(K::far());
            let label = self.label(object);
            if key.is_below(K::far()) && label.distance.wide() == distance {
                self.level = label.distance;
                self.passed.push(object)?;
                return Ok(());
            }
        }
        Ok(())
    }

    // Forgets the paths.
    pub fn clear(&mut self) {
        for object in &self.reached {
            let at = *object as usize;
            if at < self.labels.len() {
                self.labels[at] = Label::unreached();
            }
        }
        self.reached.clear();
        self.passed.clear();
        self.heap.clear();
        self.level = K::nowhere();
        self.end = NOBODY;
        self.best = K::far();
    }
}
