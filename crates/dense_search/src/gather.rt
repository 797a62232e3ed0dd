// The objects of a row with a value below a limit.
use super::reading::Reading;
use super::rows::{BLOCK, is_any_below};
use search_base::place_at;
use std::alloc::AllocError;

// An object and its value.
#[derive(Clone, Copy)]
pub struct Candidate {
    pub object: u32,
    pub value: i64,
}

// What is gathered: objects with a value below the limit, about `most` of them.
#[derive(Clone, Copy)]
pub struct Wanted {
    pub limit: i64,
    pub most: usize,
}

fn gather_block<R: Reading<i64>>(
    reading: &R,
    costs: &[i64],
    keys: &[i64],
    at: usize,
    limit: i64,
    found: &mut Vec<Candidate>,
) -> Result<(), AllocError> {
    for (k, (cost, key)) in costs.iter().zip(keys).enumerate() {
        let value = reading.value(*cost).wrapping_add(*key);
        if value < limit {
            let object = place_at(at.wrapping_add(k));
            found.push(Candidate { object, value })?;
        }
    }
    Ok(())
}

// The objects of a part of a row that begins at this place.
fn gather_part<R: Reading<i64>>(
    reading: &R,
    costs: &[i64],
    keys: &[i64],
    from: usize,
    wanted: Wanted,
    found: &mut Vec<Candidate>,
) -> Result<(), AllocError> {
    let mut at = from;
    for (costs, keys) in costs.chunks(BLOCK).zip(keys.chunks(BLOCK)) {
        if found.len() >= wanted.most {
            return Ok(());
        }
        if is_any_below(reading, costs, keys, wanted.limit) {
            gather_block(reading, costs, keys, at, wanted.limit, found)?;
        }
        at = at.wrapping_add(BLOCK);
    }
    Ok(())
}

// The objects of a row, begun at a place, so that rows with many equal values give different ones.
pub fn gather<R: Reading<i64>>(
    reading: &R,
    row: &[i64],
    keys: &[i64],
    from: usize,
    wanted: Wanted,
    found: &mut Vec<Candidate>,
) -> Result<(), AllocError> {
    let from = from.min(row.len()).min(keys.len());
    found.clear();
    let (first, last) = row.split_at(from);
    let (first_keys, last_keys) = keys.split_at(from);
    gather_part(reading, last, last_keys, from, wanted, found)?;
    gather_part(reading, first, first_keys, 0, wanted, found)
}

// A number that looks drawn at random.
pub fn scatter(number: usize) -> usize {
    let mixed = (number as u64).wrapping_mul(0x9e37_79b9_7f4a_7c15);
    (mixed >> 33) as usize
}
