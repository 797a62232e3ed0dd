// The search for a shortest path from a person without an object to an unowned object (Dijkstra's;
// Edmonds and Karp 1972, Tomizawa 1971), by scans of whole rows of which compilers make vectors.
ghost use Rattle.std.specs.Prelude.{◌≡◌, ◌≤◌, length};

use super::market::Market;
use super::matrix::Matrix;
use super::number::{Number, least_of, lesser};
use super::reading::Reading;
use super::tree::Scanned;
use search_base::{ArcScans, NOBODY, place_at};
use std::alloc::{AllocError, Global};

// The number of objects of a block. Only blocks with a nearest object are looked at again.
const BLOCK: usize = 64;

// An object's distance is the sum of the cost at which it is reached and its key: its price, or
// what hides it once it is passed.
#[derive(Drop)]
pub struct FullSearch<K> {
    costs: Vec<K>,
    keys: Vec<K>,
    scanned: Vec<Scanned<K>>,
    // The objects of known distance, the nearest first. Their owners are scanned in this order.
    passed: Vec<u32>,
    // The distance of the last of these objects.
    level: K,
    // The least distance of each block of objects.
    blocks: Vec<K>,
    // Whether a price has left the room for sums.
    pub is_beyond: bool,
}

// The objects from one place to another: lowers the costs at which they are reached, and returns the
// least distance. Compilers make vectors of this loop, and of one over iterators they don't.
fn reach_block<K: Number, R: Reading<K>>(
    reading: &R,
    row: &[K],
    base: K,
    costs: &mut [K],
    keys: &[K],
    from: usize,
    to: usize,
) -> K
    requires row { length row.now ≡ length costs.old }
    requires keys { length keys.now ≡ length costs.old }
    requires to { to ≤ length costs.old }
{
    let mut least = K::hidden();
    for k in from..to {
        let reached = lesser(costs[k], base.plus(reading.value(row[k])));
        costs[k] = reached;
        least = lesser(least, reached.plus(keys[k]));
    }
    least
}

// The same block by block, with the least distance of each.
fn reach_blocks<K: Number, R: Reading<K>>(
    reading: &R,
    row: &[K],
    base: K,
    costs: &mut [K],
    keys: &[K],
    blocks: &mut Vec<K>,
) -> Result<(), AllocError>
    requires row { length row.now ≡ length costs.old }
    requires keys { length keys.now ≡ length costs.old }
{
    let count = row.len();
    let mut at = 0usize;
    for _block in 0..count.div_ceil(BLOCK) {
        let to = at.saturating_add(BLOCK).min(count);
        blocks.push(reach_block(reading, row, base, costs, keys, at, to))?;
        at = to;
    }
    Ok(())
}

// A row; nothing if the lists don't have one length.
fn reach_row<K: Number, R: Reading<K>>(
    reading: &R,
    row: &[K],
    base: K,
    costs: &mut [K],
    keys: &[K],
    blocks: &mut Vec<K>,
) -> Result<(), AllocError> {
    blocks.clear();
    if row.len() == costs.len() && keys.len() == costs.len() {
        reach_blocks(reading, row, base, costs, keys, blocks)?;
    }
    Ok(())
}

fn gather_block<K: Number>(
    costs: &[K],
    keys: &[K],
    at: usize,
    level: K,
    passed: &mut Vec<u32>,
) -> Result<(), AllocError> {
    for (k, (cost, key)) in costs.iter().zip(keys).enumerate() {
        if !level.is_below(cost.plus(*key)) {
            passed.push(place_at(at.wrapping_add(k)))?;
        }
    }
    Ok(())
}

// The objects at this least distance.
fn gather<K: Number>(
    costs: &[K],
    keys: &[K],
    blocks: &[K],
    level: K,
    passed: &mut Vec<u32>,
) -> Result<(), AllocError> {
    let mut at = 0usize;
    let parts = costs.chunks(BLOCK).zip(keys.chunks(BLOCK));
    for ((costs, keys), least) in parts.zip(blocks) {
        if !level.is_below(*least) {
            gather_block(costs, keys, at, level, passed)?;
        }
        at = at.wrapping_add(BLOCK);
    }
    Ok(())
}

impl<K: Number> FullSearch<K> {
    pub fn new(alloc: Global) -> FullSearch<K> {
        FullSearch {
            costs: Vec::new(alloc),
            keys: Vec::new(alloc),
            scanned: Vec::new(alloc),
            passed: Vec::new(alloc),
            level: K::nowhere(),
            blocks: Vec::new(alloc),
            is_beyond: false,
        }
    }

    // Marks all objects as not reached.
    fn clear(&mut self, market: &Market<'_, K>) -> Result<(), AllocError> {
        self.costs.clear();
        self.costs.resize(market.prices.len(), K::far())?;
        self.keys.clear();
        self.keys.extend_from_slice(market.prices)?;
        self.scanned.clear();
        self.passed.clear();
        self.level = K::nowhere();
        Ok(())
    }

    // Hides the passed objects from this one on.
    fn hide(&mut self, from: usize) {
        for object in self.passed.iter().skip(from) {
            let at = *object as usize;
            if at < self.keys.len() {
                self.keys[at] = K::hidden();
            }
        }
    }

    // Scans one more person. The nearest objects are passed next, once none waits or they are as
    // near as the waiting ones.
    fn scan<R: Reading<K>>(
        &mut self,
        matrix: &Matrix<'_, K, R>,
        one: Scanned<K>,
    ) -> Result<(), AllocError> {
        self.scanned.push(one)?;
        let from = self.passed.len();
        let waits = from >= self.scanned.len();
        let (costs, keys) = (self.costs.as_mut_slice(), self.keys.as_slice());
        let row = matrix.row(one.person);
        reach_row(
            &matrix.reading,
            row,
            one.base,
            costs,
            keys,
            &mut self.blocks,
        )?;
        let least = least_of(self.blocks.as_slice(), K::hidden());
        if least.is_below(K::limit()) && !(waits && self.level.is_below(least)) {
            self.level = least;
            let (costs, keys) = (self.costs.as_slice(), self.keys.as_slice());
            gather(costs, keys, self.blocks.as_slice(), least, &mut self.passed)?;
            self.hide(from);
        }
        Ok(())
    }

    fn cost(&self, object: u32) -> K {
        self.costs.get(object as usize).copied().unwrap_or(K::far())
    }

    // The first unowned object among the passed ones from this one on.
    fn unowned_from(&self, market: &Market<'_, K>, from: usize) -> u32 {
        for object in self.passed.iter().skip(from) {
            if market.owner(*object) == NOBODY {
                return *object;
            }
        }
        NOBODY
    }

    // The nearest unowned object; nobody if there is none within the room for sums.
    fn find<R: Reading<K>>(
        &mut self,
        matrix: &Matrix<'_, K, R>,
        market: &Market<'_, K>,
        first: u32,
    ) -> Result<u32, AllocError> {
        let mut one = Scanned {
            person: first,
            base: K::zero(),
        };
        for turn in 0..matrix.persons {
            let from = self.passed.len();
            self.scan(matrix, one)?;
            let end = self.unowned_from(market, from);
            if end != NOBODY {
                return Ok(end);
            }
            let Some(object) = self.passed.get(turn).copied() else {
                return Ok(NOBODY);
            };
            let person = market.owner(object);
            let own = matrix.value(person, object);
            one = Scanned {
                person,
                base: self.cost(object).minus(own),
            };
        }
        Ok(NOBODY)
    }

    // Raises the prices of the passed objects, up to the distance of the end. Returns whether one
    // leaves the room for sums.
    fn raise(&self, market: &mut Market<'_, K>) -> bool {
        let mut is_beyond = false;
        for object in &self.passed {
            let distance = self.cost(*object).plus(market.price(*object));
            if distance.is_below(self.level) {
                market.raise(*object, self.level.minus(distance));
                is_beyond = is_beyond || !market.price(*object).is_below(K::limit());
            }
        }
        is_beyond
    }

    // Gives each person on the way back from an object the object that was reached from it. A person
    // was scanned after the one from which its own object was reached, so one look at each suffices.
    // Returns whether the way led to the first person, which had no object.
    fn walk_back<R: Reading<K>>(
        &self,
        matrix: &Matrix<'_, K, R>,
        market: &mut Market<'_, K>,
        end: u32,
    ) -> bool {
        let mut object = end;
        for one in self.scanned.iter().rev() {
            let reached = one.base.plus(matrix.value(one.person, object));
            if !self.cost(object).is_below(reached) {
                let left = market.object(one.person);
                market.give(object, one.person);
                if left == NOBODY {
                    return true;
                }
                object = left;
            }
        }
        false
    }

    // Gives one more person an object, if it reaches an unowned one.
    pub fn augment<R: Reading<K>>(
        &mut self,
        matrix: &Matrix<'_, K, R>,
        market: &mut Market<'_, K>,
        person: u32,
        arc_scans: &mut ArcScans,
    ) -> Result<bool, AllocError> {
        self.clear(market)?;
        let end = self.find(matrix, market, person)?;
        arc_scans.add(self.scanned.len().saturating_mul(matrix.objects));
        if end == NOBODY {
            return Ok(false);
        }
        self.is_beyond = self.raise(market);
        Ok(self.walk_back(matrix, market, end))
    }
}
