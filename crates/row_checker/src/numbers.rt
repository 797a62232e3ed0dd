// Nodes in a list of numbers.
ghost use Rattle.std.specs.Prelude.{◌≡◌, ℕ, pos, ◌+◌, ◌*◌, ◌≤◌, nat_le, length, slice_index_or, IfOk};
ghost use Rattle.row_checker.specs.Trees.{first_unnamed, head_of, is_leaf, is_named, is_split, multiple_at, multiples_at, number_at};

use super::row::Multiple;
use std::alloc::{AllocError, Global};

/// What stands at the beginning of a node, with its number of pairs.
#[derive(Clone, Copy, PartialEq, Eq)]
pub enum Head {
    /// No whole node.
    None,
    Leaf(usize),
    Split(usize),
}

/// The number at a place; 0 where there is none.
pub fn number_at(numbers: &[i64], place: usize) -> i64
    ensures { result ≡ number_at numbers.now place }
{
    if place < numbers.len() {
        numbers[place]
    } else {
        0
    }
}

// Whether so many pairs stand from a place on.
fn have_room(numbers: &[i64], from: usize, pairs: usize) -> bool
    ensures { result ≡ nat_le (from + 2 * pairs) (length numbers.now) }
{
    from <= numbers.len() && pairs <= (numbers.len() - from) / 2
}

// Whether a leaf of so many pairs stands at a place.
fn is_leaf(numbers: &[i64], place: usize, pairs: usize) -> bool
    requires { place ≤ length numbers.now }
    ensures { result ≡ is_leaf numbers.now place pairs }
{
    number_at(numbers, place) == 0 && have_room(numbers, place + 2, pairs)
}

// Whether a split of so many terms stands at a place.
fn is_split(numbers: &[i64], place: usize, pairs: usize) -> bool
    requires { place ≤ length numbers.now }
    ensures { result ≡ is_split numbers.now place pairs }
{
    number_at(numbers, place) == 1
        && have_room(numbers, place + 3, pairs)
        && number_at(numbers, place + 2) < i64::MAX
}

/// What stands at a place.
pub fn head_at(numbers: &[i64], place: usize) -> Head
    requires { place ≤ length numbers.now }
    ensures { result ≡ head_of numbers.now place }
{
    let count = number_at(numbers, place + 1);
    let pairs = count.unsigned_abs() as usize;
    if count < 0 {
        Head::None
    } else if is_leaf(numbers, place, pairs) {
        Head::Leaf(pairs)
    } else if is_split(numbers, place, pairs) {
        Head::Split(pairs)
    } else {
        Head::None
    }
}

// Whether a number is one of 0, 1, .. below a limit.
fn is_named(number: i64, limit: usize) -> bool
    ensures { result ≡ is_named number limit }
{
    number >= 0 && number.unsigned_abs() < limit as u64
}

/// The place of the first pair whose first number isn't below the limit.
pub fn first_unnamed(numbers: &[i64], from: usize, pairs: usize, limit: usize) -> Option<usize>
    requires { from + 2 * pairs ≤ length numbers.now }
    ensures { result ≡ first_unnamed numbers.now from pairs limit }
{
    for i in 0..pairs {
        if !is_named(number_at(numbers, from + 2 * i), limit) {
            return Some(from + 2 * i);
        }
    }
    None
}

// The pair at a place.
fn multiple_at(numbers: &[i64], place: usize) -> Multiple
    requires { place ≤ length numbers.now }
    ensures { result ≡ multiple_at numbers.now place }
{
    Multiple {
        of: number_at(numbers, place).unsigned_abs() as usize,
        times: number_at(numbers, place + 1),
    }
}

/// The pairs from a place on.
pub fn multiples_at(
    alloc: Global,
    numbers: &[i64],
    from: usize,
    pairs: usize,
) -> Result<Vec<Multiple>, AllocError>
    requires { from + 2 * pairs ≤ length numbers.now }
    ensures { IfOk result (λ ms. ms.items ≡ multiples_at numbers.now from pairs) }
{
    let mut multiples = Vec::new(alloc);
    for i in 0..pairs {
        multiples.push(multiple_at(numbers, from + 2 * i))?;
    }
    Ok(multiples)
}
