// Sums over the terms of rows.
ghost use Rattle.std.specs.Prelude.{◌≡◌, ℕ, ℤ, pos, ◌+◌, ◌*◌, ◌-◌, ◌^◌, ◌<◌, ◌++◌, ◌+ℤ◌, ◌*ℤ◌, Bool, false, min, length, map, slice_index_or, OnOk, IsTrue};
ghost use Rattle.std.specs.Int.RustNames.{unsigned_abs};
ghost use Rattle.row_checker.specs.Rows.{row_in};
ghost use Rattle.row_checker.specs.Leaves.{bound, coefficient, has_sides, side_or_0, size, terms_size, touched_by, variables, weight};

use super::row::{Multiple, Row, side_at, terms_at};
use std::alloc::AllocError;

// A product, which fits.
fn product(a: i64, b: i64) -> i128
    ensures { result ≡ a *ℤ b }
{
    i128::from(a) * i128::from(b)
}

// The absolute value of a product.
fn product_size(a: i64, b: i64) -> u128
    ensures { result ≡ unsigned_abs a * unsigned_abs b }
{
    u128::from(a.unsigned_abs()) * u128::from(b.unsigned_abs())
}

// Adds the absolute values of a row's products, as far as they fit.
fn add_sizes(sum: u128, terms: &[Multiple], times: i64) -> u128
    ensures { result ≡ min (sum + terms_size times terms.now) (2 ^ 128 - 1) }
{
    let mut so_far = sum;
    for term in terms {
        so_far = so_far.saturating_add(product_size(times, term.times));
    }
    so_far
}

// The bound of a multiple, 0 where it isn't there.
fn side_of_multiple(rows: &[Row], multiple: Multiple) -> i64
    ensures { result ≡ side_or_0 (map row_in rows.now) multiple }
{
    side_at(rows, multiple).unwrap_or(0)
}

/// The sum of all absolute values, as far as they fit.
pub fn size_of(rows: &[Row], multiples: &[Multiple]) -> u128
    ensures { result ≡ min (size (map row_in rows.now) multiples.now) (2 ^ 128 - 1) }
{
    let mut sum = 0_u128;
    for multiple in multiples {
        sum = add_sizes(sum, terms_at(rows, multiple.of), multiple.times);
        let side = side_of_multiple(rows, *multiple);
        sum = sum.saturating_add(product_size(multiple.times, side));
    }
    sum
}

/// Whether each multiple takes a bound that is there.
pub fn have_sides(rows: &[Row], multiples: &[Multiple]) -> bool
    ensures { result ≡ has_sides (map row_in rows.now) multiples.now }
{
    for multiple in multiples {
        if side_at(rows, *multiple).is_none() {
            return false;
        }
    }
    true
}

/// The sum of the bounds, each as many times as its row is taken.
pub fn bound_of(rows: &[Row], multiples: &[Multiple]) -> i128
    requires { size (map row_in rows.now) multiples.now < 2 ^ 127 }
    ensures { result ≡ bound (map row_in rows.now) multiples.now }
{
    let mut sum = 0_i128;
    for multiple in multiples {
        let side = side_of_multiple(rows, *multiple);
        sum += product(multiple.times, side);
    }
    sum
}

// Adds so many times a row's terms to the weights.
fn add_terms(weights: &mut [i128], terms: &[Multiple], times: i64)
    requires { (k : ℕ) → k < length weights.old
        → unsigned_abs (slice_index_or weights.old k (pos 0)) + terms_size times terms.now < 2 ^ 127 }
    ensures { (k : ℕ) → k < length weights.old → slice_index_or weights.new k (pos 0)
        ≡ slice_index_or weights.old k (pos 0) +ℤ (times *ℤ coefficient k terms.now) }
{
    for term in terms {
        if term.of < weights.len() {
            weights[term.of] += product(times, term.times);
        }
    }
}

/// Adds the multiples of the rows to weights of 0.
pub fn add_rows(weights: &mut [i128], rows: &[Row], multiples: &[Multiple])
    requires zero { (k : ℕ) → slice_index_or weights.old k (pos 0) ≡ pos 0 }
    requires small { size (map row_in rows.now) multiples.now < 2 ^ 127 }
    ensures { (k : ℕ) → k < length weights.old → slice_index_or weights.new k (pos 0)
        ≡ weight (map row_in rows.now) multiples.now k }
{
    for multiple in multiples {
        add_terms(weights, terms_at(rows, multiple.of), multiple.times);
    }
}

// Notes the variables of a row.
fn touch(touched: &mut Vec<usize>, terms: &[Multiple]) -> Result<(), AllocError>
    ensures { OnOk result (touched.new.items ≡ touched.old.items ++ variables terms.now) }
{
    for term in terms {
        touched.push(term.of)?;
    }
    Ok(())
}

/// Notes the variables of all rows that are taken.
pub fn touch_rows(
    touched: &mut Vec<usize>,
    rows: &[Row],
    multiples: &[Multiple],
) -> Result<(), AllocError>
    ensures { OnOk result (touched.new.items
        ≡ touched.old.items ++ touched_by (map row_in rows.now) multiples.now) }
{
    for multiple in multiples {
        touch(touched, terms_at(rows, multiple.of))?;
    }
    Ok(())
}
