// Elements at places that may be outside of a list.

/// The element at a place, or another one if there is none.
pub fn value_at<T: Copy>(list: &[T], place: usize, none: T) -> T {
    match list.get(place) {
        Some(value) => *value,
        None => none,
    }
}

/// Sets the element at a place, if there is one.
pub fn set_value<T: Copy>(list: &mut [T], place: usize, value: T) {
    if place < list.len() {
        list[place] = value;
    }
}

/// The place of a person or an object; 0 has none.
pub fn place_of(number: u32) -> usize {
    (number as usize).wrapping_sub(1)
}
