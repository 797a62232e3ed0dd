// Numbers from 1, where 0 is nobody's, and places from 0 in the searches.
ghost use Rattle.std.specs.Prelude.{◌≡◌, length};

use std::alloc::{AllocError, Global};

// Turns numbers into places.
pub fn to_places(numbers: &mut [u32]) {
    for number in numbers.iter_mut() {
        *number = number.wrapping_sub(1);
    }
}

// Turns places into numbers.
pub fn to_numbers(places: &mut [u32]) {
    for place in places.iter_mut() {
        *place = place.wrapping_add(1);
    }
}

// The numbers from 1 to `last`.
pub fn numbers_to(alloc: Global, last: u32) -> Result<Vec<u32>, AllocError> {
    let mut numbers = Vec::with_capacity(alloc, last as usize)?;
    for number in 0..last {
        numbers.push(number + 1)?;
    }
    Ok(numbers)
}
