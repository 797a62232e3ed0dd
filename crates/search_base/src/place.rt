// Places of persons and objects, from 0.

/// The place of no person or of no object.
pub const NOBODY: u32 = u32::MAX;

/// The place of an index.
pub fn place_at(index: usize) -> u32 {
    (index & 0xffff_ffff) as u32
}

/// What a list holds at a place; nobody beyond its end.
pub fn at(list: &[u32], place: u32) -> u32 {
    list.get(place as usize).copied().unwrap_or(NOBODY)
}

/// Writes to a place, if it is within the list.
pub fn put(list: &mut [u32], place: u32, value: u32) {
    if (place as usize) < list.len() {
        list[place as usize] = value;
    }
}

/// Whether a place is that of an object without an owner.
#[inline(always)]
pub fn is_unowned(owners: &[u32], object: u32) -> bool {
    match owners.get(object as usize) {
        Some(owner) => *owner == NOBODY,
        None => false,
    }
}
