// The pairs that a plan chooses, of which mostly few stand among many bytes of 0.
use std::simd::prelude::*;

const LANES: usize = 32;

fn first_in_rest(bytes: &[u8], first: usize) -> Option<usize> {
    for (k, byte) in bytes.iter().enumerate() {
        if *byte != 0 {
            return Some(first.wrapping_add(k));
        }
    }
    None
}

/// The first place from this one on whose byte isn't 0.
#[inline(always)]
pub fn next_chosen(bytes: &[u8], from: usize) -> Option<usize> {
    let (chunks, rest) = bytes.get(from..)?.as_chunks::<LANES>();
    let mut place = from;
    for chunk in chunks {
        let lanes = u8x32::from_array(*chunk)
            .simd_ne(u8x32::splat(0))
            .to_bitmask();
        if lanes != 0 {
            return Some(place.wrapping_add(lanes.trailing_zeros() as usize));
        }
        place = place.wrapping_add(LANES);
    }
    first_in_rest(rest, place)
}
