// The numbers of a search: 64 bits, or 32 bits where costs lie close together, since a scan takes
// half the time then. Sums wrap.

use super::narrow::low_half;

// Costs of 32 bits lie this close to the first one, and prices are below twice as much.
pub const NARROW: i64 = 1 << 27;

pub trait Number: Copy + Drop {
    // More than any distance.
    fn far() -> Self;

    // The key of a hidden object.
    fn hidden() -> Self;

    // Prices below this one leave room for sums.
    fn limit() -> Self;

    fn zero() -> Self;

    // Less than any distance.
    fn nowhere() -> Self;

    fn plus(self, other: Self) -> Self;

    fn minus(self, other: Self) -> Self;

    fn is_below(self, other: Self) -> bool;

    // Below zero if one of both is.
    fn joined(self, other: Self) -> Self;

    fn wide(self) -> i64;

    // The number, or its low bits.
    fn from_wide(number: i64) -> Self;

    // Whether a vector's lesser numbers take one instruction.
    fn is_narrow() -> bool;
}

impl Number for i64 {
    fn far() -> i64 {
        1 << 61
    }

    fn hidden() -> i64 {
        1 << 61
    }

    fn limit() -> i64 {
        1 << 61
    }

    fn zero() -> i64 {
        0
    }

    fn nowhere() -> i64 {
        i64::MIN
    }

    fn plus(self, other: i64) -> i64 {
        self.wrapping_add(other)
    }

    fn minus(self, other: i64) -> i64 {
        self.wrapping_sub(other)
    }

    fn is_below(self, other: i64) -> bool {
        self < other
    }

    fn joined(self, other: i64) -> i64 {
        self | other
    }

    fn wide(self) -> i64 {
        self
    }

    fn from_wide(number: i64) -> i64 {
        number
    }

    fn is_narrow() -> bool {
        false
    }
}

impl Number for i32 {
    fn far() -> i32 {
        1 << 29
    }

    fn hidden() -> i32 {
        1 << 30
    }

    fn limit() -> i32 {
        1 << 28
    }

    fn zero() -> i32 {
        0
    }

    fn nowhere() -> i32 {
        i32::MIN
    }

    fn plus(self, other: i32) -> i32 {
        self.wrapping_add(other)
    }

    fn minus(self, other: i32) -> i32 {
        self.wrapping_sub(other)
    }

    fn is_below(self, other: i32) -> bool {
        self < other
    }

    fn joined(self, other: i32) -> i32 {
        self | other
    }

    fn wide(self) -> i64 {
        i64::from(self)
    }

    fn from_wide(number: i64) -> i32 {
        low_half(number)
    }

    fn is_narrow() -> bool {
        true
    }
}

pub fn lesser<K: Number>(one: K, other: K) -> K {
    if other.is_below(one) { other } else { one }
}

pub fn greater<K: Number>(one: K, other: K) -> K {
    if one.is_below(other) { other } else { one }
}

// The least of some numbers, or `most` if that is less.
pub fn least_of<K: Number>(numbers: &[K], most: K) -> K {
    let mut least = most;
    for number in numbers {
        least = lesser(least, *number);
    }
    least
}
