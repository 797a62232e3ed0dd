// Entries of lists by places: what lies beyond a list's end reads as nothing, and isn't written.

/// No price or value is as great.
pub const FAR: i64 = 1 << 61;

#[inline(always)]
pub fn count_at(list: &[u32], place: usize) -> u32 {
    list.get(place).copied().unwrap_or(0)
}

#[inline(always)]
pub fn set_count(list: &mut [u32], place: usize, count: u32) {
    if place < list.len() {
        list[place] = count;
    }
}

/// Adds to a count; `u32::MAX` takes one away.
#[inline(always)]
pub fn add_count(list: &mut [u32], place: usize, more: u32) {
    if place < list.len() {
        list[place] = list[place].wrapping_add(more);
    }
}

/// What takes one away from a count.
pub const ONE_LESS: u32 = u32::MAX;

#[inline(always)]
pub fn price_at(list: &[i64], place: usize) -> i64 {
    list.get(place).copied().unwrap_or(FAR)
}

#[inline(always)]
pub fn set_price(list: &mut [i64], place: usize, price: i64) {
    if place < list.len() {
        list[place] = price;
    }
}

#[inline(always)]
pub fn byte_at(list: &[u8], place: usize) -> u8 {
    list.get(place).copied().unwrap_or(0)
}

#[inline(always)]
pub fn set_byte(list: &mut [u8], place: usize, byte: u8) {
    if place < list.len() {
        list[place] = byte;
    }
}

pub fn sum_of(counts: &[u32]) -> i64 {
    let mut sum = 0i64;
    for count in counts {
        sum = sum.wrapping_add(i64::from(*count));
    }
    sum
}

/// A length as a signed number.
pub fn signed(length: usize) -> i64 {
    (length as u64 & 0x7fff_ffff_ffff_ffff) as i64
}

/// The same number, without the highest bit.
pub fn signed64(number: u64) -> i64 {
    (number & 0x7fff_ffff_ffff_ffff) as i64
}

/// A number that is not below 0, or 0.
pub fn unsigned(number: i64) -> u64 {
    number.max(0).unsigned_abs()
}

/// A number of 32 bits that is not below 0, or the nearest.
pub fn short(number: i64) -> u32 {
    (unsigned(number).min(0xffff_ffff) & 0xffff_ffff) as u32
}

pub fn clear_counts(list: &mut [u32]) {
    for count in list.iter_mut() {
        *count = 0;
    }
}

pub fn clear_bytes(list: &mut [u8]) {
    for byte in list.iter_mut() {
        *byte = 0;
    }
}

pub fn copy_numbers(to: &mut [i64], from: &[i64]) {
    for (entry, number) in to.iter_mut().zip(from) {
        *entry = *number;
    }
}
