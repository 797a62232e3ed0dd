// Numbers from 1, and places from 0 in the search.
use std::alloc::{AllocError, Global};

// The places of numbers: that of 0 is nobody's.
pub fn places_of(alloc: Global, numbers: &[u32]) -> Result<Vec<u32>, AllocError> {
    let mut places = numbers.to_vec(alloc)?;
    for place in places.iter_mut() {
        *place = place.wrapping_sub(1);
    }
    Ok(places)
}

// The numbers of places.
pub fn numbers_of(alloc: Global, places: &[u32]) -> Result<Vec<u32>, AllocError> {
    let mut numbers = places.to_vec(alloc)?;
    for number in numbers.iter_mut() {
        *number = number.wrapping_add(1);
    }
    Ok(numbers)
}

// The numbers from 1 on, as many as there are.
pub fn first_numbers(alloc: Global, count: usize) -> Result<Vec<u32>, AllocError> {
    let mut numbers = vec![in alloc; 0u32; count]?;
    let mut number = 0u32;
    for place in numbers.iter_mut() {
        number = number.wrapping_add(1);
        *place = number;
    }
    Ok(numbers)
}
