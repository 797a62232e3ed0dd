// Numbers at the places of persons and objects, which count from 1.

/// The number of a person, or an object; 0 where there is none.
pub fn number_at(numbers: &[i128], number: u32) -> i128 {
    match numbers.get((number as usize).wrapping_sub(1)) {
        Some(found) => *found,
        None => 0,
    }
}

/// Lowers a person's number to this one.
pub fn lower(numbers: &mut [i128], number: u32, value: i128) {
    if let Some(found) = numbers.get_mut((number as usize).wrapping_sub(1)) {
        *found = (*found).min(value);
    }
}
