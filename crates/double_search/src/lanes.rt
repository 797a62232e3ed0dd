// Vectors of doubles.
ghost use Rattle.std.specs.Prelude.{◌≡◌, length};

use super::range::lesser;
use std::simd::prelude::*;

#[inline(always)]
pub fn lesser_of<const W: usize>(one: Simd<f64, W>, other: Simd<f64, W>) -> Simd<f64, W> {
    one.simd_lt(other).select(one, other)
}

#[inline(always)]
pub fn greater_of<const W: usize>(one: Simd<f64, W>, other: Simd<f64, W>) -> Simd<f64, W> {
    one.simd_gt(other).select(one, other)
}

#[inline(always)]
fn least_of_four(lanes: f64x4) -> f64 {
    let each = lanes.to_array();
    let first = f64x2::from_array([each[0], each[1]]);
    let last = f64x2::from_array([each[2], each[3]]);
    let both = lesser_of(first, last).to_array();
    lesser(both[0], both[1])
}

// The least lane, of as many as four or a multiple of it.
#[inline(always)]
pub fn least_of<const W: usize>(lanes: Simd<f64, W>) -> f64 {
    let each = lanes.to_array();
    let each = &each[..];
    let (parts, _) = each.as_chunks::<4>();
    let mut least = f64x4::splat(f64::INFINITY);
    for part in parts {
        least = lesser_of(f64x4::from_array(*part), least);
    }
    least_of_four(least)
}

// The most lanes.
pub const MOST: usize = 16;

const PLACES: [i64; MOST] = [0, 1, 2, 3, 4, 5, 6, 7, 8, 9, 10, 11, 12, 13, 14, 15];

// The numbers of the lanes.
#[inline(always)]
fn places<const W: usize>() -> Simd<i64, W> {
    if W <= MOST {
        Simd::from_slice(&PLACES[..])
    } else {
        Simd::splat(0)
    }
}

// Which lane has this number.
#[inline(always)]
pub fn is_at<const W: usize>(place: usize) -> Mask<i64, W> {
    places::<W>().simd_eq(Simd::splat((place as u64).cast_signed()))
}

// 0 in so many lanes, and infinity in the others.
#[inline(always)]
pub fn zero_to<const W: usize>(count: usize) -> Simd<f64, W> {
    let is_before = places::<W>().simd_lt(Simd::splat((count as u64).cast_signed()));
    is_before.select(Simd::splat(0.0), Simd::splat(f64::INFINITY))
}

// The first numbers of a list.
#[inline(always)]
pub fn first_of<const W: usize>(list: &[f64]) -> Simd<f64, W> {
    if list.len() >= W {
        Simd::from_slice(list)
    } else {
        Simd::splat(f64::INFINITY)
    }
}

// Puts numbers first in a list.
#[inline(always)]
pub fn put_first<const W: usize>(list: &mut [f64], numbers: Simd<f64, W>)
    ensures { length list.new ≡ length list.old }
{
    if list.len() >= W {
        numbers.copy_to_slice(list);
    }
}

// A row of a table.
#[inline(always)]
pub fn row_of<const W: usize>(table: &[f64], place: usize) -> Simd<f64, W> {
    let from = place.wrapping_mul(W);
    first_of(table.get(from..from.wrapping_add(W)).unwrap_or(&[]))
}

// A number of a list.
#[inline(always)]
pub fn number_at(list: &[f64], place: usize) -> f64 {
    list.get(place).copied().unwrap_or(0.0)
}
