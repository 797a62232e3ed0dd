// Scans of rows. The value of an object is the sum of its cost, as it is read, and its key, mostly
// its price.
use super::number::{Number, lesser};
use super::reading::Reading;
use search_base::{NOBODY, place_at};

// The number of objects that are compared at once.
pub const BLOCK: usize = 32;

// Whether an object has a value below the limit. Compilers make vectors of this loop, which keeps
// the signs of the differences.
pub fn is_any_below<K: Number, R: Reading<K>>(
    reading: &R,
    costs: &[K],
    keys: &[K],
    limit: K,
) -> bool {
    let mut signs = K::zero();
    for (cost, key) in costs.iter().zip(keys) {
        signs = signs.joined(reading.value(*cost).plus(*key).minus(limit));
    }
    signs.is_below(K::zero())
}

// The best object of a person, its value, and that of the second best one.
#[derive(Clone, Copy)]
pub struct Two<K> {
    pub best: K,
    pub object: u32,
    pub second: K,
}

impl<K: Number> Two<K> {
    fn none() -> Two<K> {
        Two {
            best: K::far(),
            object: NOBODY,
            second: K::far(),
        }
    }

    // With another object. Without branches, since nobody can foretell them.
    fn with(self, object: u32, value: K) -> Two<K> {
        let is_best = value.is_below(self.best);
        let worse = if is_best { self.best } else { value };
        Two {
            best: if is_best { value } else { self.best },
            object: if is_best { object } else { self.object },
            second: lesser(self.second, worse),
        }
    }

    // How much worse the second best is; 0 if there is one object.
    pub fn gap(self) -> K {
        if self.second.is_below(K::far()) {
            self.second.minus(self.best)
        } else {
            K::zero()
        }
    }
}

// The two best of a block that begins at this place.
fn two_of_block<K: Number, R: Reading<K>>(
    reading: &R,
    costs: &[K],
    keys: &[K],
    at: usize,
) -> Two<K> {
    let mut two = Two::none();
    for (k, (cost, key)) in costs.iter().zip(keys).enumerate() {
        let value = reading.value(*cost).plus(*key);
        two = two.with(place_at(at.wrapping_add(k)), value);
    }
    two
}

// The least value of these objects.
pub fn least_value<K: Number, R: Reading<K>>(reading: &R, costs: &[K], keys: &[K]) -> K {
    let mut least = K::far();
    for (cost, key) in costs.iter().zip(keys) {
        least = lesser(least, reading.value(*cost).plus(*key));
    }
    least
}

// Whether a block may have a value below the limit. Where vectors have the least of numbers at once,
// a look before that saves nothing.
fn may_be_below<K: Number, R: Reading<K>>(reading: &R, costs: &[K], keys: &[K], limit: K) -> bool {
    K::is_narrow() || is_any_below(reading, costs, keys, limit)
}

// The block with the least value, by its number from 0, this value, and the least one of the others.
fn two_blocks<K: Number, R: Reading<K>>(reading: &R, row: &[K], keys: &[K]) -> Two<K> {
    let mut two = Two::none();
    for (k, (costs, keys)) in row.chunks(BLOCK).zip(keys.chunks(BLOCK)).enumerate() {
        if may_be_below(reading, costs, keys, two.second) {
            two = two.with(place_at(k), least_value(reading, costs, keys));
        }
    }
    two
}

fn block_of<K>(numbers: &[K], from: usize) -> &[K] {
    let to = from.saturating_add(BLOCK).min(numbers.len());
    numbers.get(from..to).unwrap_or(&[])
}

// The best object of a row with its value, and the second best value. The second best object lies in
// the same block, or has the least value of another one.
pub fn two_best<K: Number, R: Reading<K>>(reading: &R, row: &[K], keys: &[K]) -> Two<K> {
    if row.len() <= BLOCK {
        return two_of_block(reading, row, keys, 0);
    }
    let blocks = two_blocks(reading, row, keys);
    let at = (blocks.object as usize).saturating_mul(BLOCK);
    let two = two_of_block(reading, block_of(row, at), block_of(keys, at), at);
    Two {
        second: lesser(two.second, blocks.second),
        ..two
    }
}

// The first object of a block that nobody owns, with a value below the limit.
fn unowned_of_block<K: Number, R: Reading<K>>(
    reading: &R,
    costs: &[K],
    keys: &[K],
    owners: &[u32],
    limit: K,
) -> Option<usize> {
    for (k, ((cost, key), owner)) in costs.iter().zip(keys).zip(owners).enumerate() {
        if *owner == NOBODY && reading.value(*cost).plus(*key).is_below(limit) {
            return Some(k);
        }
    }
    None
}

// The first object of a row that nobody owns, with a value below the limit; nobody if there is none.
pub fn unowned_below<K: Number, R: Reading<K>>(
    reading: &R,
    row: &[K],
    keys: &[K],
    owners: &[u32],
    limit: K,
) -> u32 {
    let blocks = row.chunks(BLOCK).zip(keys.chunks(BLOCK));
    let mut at = 0usize;
    for ((costs, keys), owners) in blocks.zip(owners.chunks(BLOCK)) {
        if is_any_below(reading, costs, keys, limit) {
            if let Some(k) = unowned_of_block(reading, costs, keys, owners, limit) {
                return place_at(at.wrapping_add(k));
            }
        }
        at = at.wrapping_add(BLOCK);
    }
    NOBODY
}
