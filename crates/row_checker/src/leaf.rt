// Leaves: multiples of rows that show that no plan meets all rows.
ghost use Rattle.std.specs.Prelude.{◌≡◌, ℕ, ℤ, pos, ◌^◌, ◌-◌, int_lt, Bool, false, ◌&&◌, if◌then◌else◌, min, length, map, slice_index_or, IfOk, OnOk};
ghost use Rattle.row_checker.specs.Rows.{row_in};
ghost use Rattle.row_checker.specs.Leaves.{above_0, end_of};
ghost use Rattle.row_checker.specs.inside.Weights.{greatest_in, is_among};

use super::row::{Multiple, Row};
use super::sums::{add_rows, bound_of, have_sides, size_of, touch_rows};
use std::alloc::AllocError;

/// What a leaf shows.
#[derive(Clone, Copy, PartialEq, Eq)]
pub enum LeafEnd {
    /// No plan meets all rows.
    Shows,
    /// Nothing, since the numbers are too great.
    TooGreat,
    /// Nothing.
    Lacks,
}

// A weight if it is above 0, otherwise 0.
fn above(weight: i128) -> u128
    ensures { result ≡ above_0 weight }
{
    if weight > 0 { weight.unsigned_abs() } else { 0 }
}

// The sum of the weights above 0, which are those of these variables, as far as it fits. All weights
// become 0.
fn drain(weights: &mut [i128], touched: &[usize]) -> u128
    requires { (k : ℕ) → is_among k touched.now ≡ false → slice_index_or weights.old k (pos 0) ≡ pos 0 }
    ensures zero { (k : ℕ) → slice_index_or weights.new k (pos 0) ≡ pos 0 }
    ensures sum { result ≡ min (greatest_in weights.old) (2 ^ 128 - 1) }
{
    let mut sum = 0_u128;
    for variable in touched {
        if *variable < weights.len() {
            sum = sum.saturating_add(above(weights[*variable]));
            weights[*variable] = 0;
        }
    }
    sum
}

// Whether a sum is below a bound.
fn is_below(sum: u128, bound: i128) -> bool
    ensures { result ≡ int_lt (pos sum) bound }
{
    bound > 0 && sum < bound.unsigned_abs()
}

// What a leaf shows whose numbers aren't too great.
fn shown(have_sides: bool, is_below: bool) -> LeafEnd
    ensures { result ≡ (if have_sides && is_below then LeafEnd.Shows else LeafEnd.Lacks) }
{
    if have_sides && is_below {
        LeafEnd::Shows
    } else {
        LeafEnd::Lacks
    }
}

/// What the multiples of the rows show. The weights are 0, before and after.
///
/// # Errors
/// `AllocError` if memory is refused.
pub fn leaf_end(
    weights: &mut [i128],
    touched: &mut Vec<usize>,
    rows: &[Row],
    multiples: &[Multiple],
) -> Result<LeafEnd, AllocError>
    requires { (k : ℕ) → slice_index_or weights.old k (pos 0) ≡ pos 0 }
    ensures zero { OnOk result ((k : ℕ) → slice_index_or weights.new k (pos 0) ≡ pos 0) }
    ensures end { IfOk result (λ end. end ≡ end_of (length weights.old) (map row_in rows.now) multiples.now) }
{
    if size_of(rows, multiples) > i128::MAX as u128 {
        return Ok(LeafEnd::TooGreat);
    }
    touched.clear();
    touch_rows(touched, rows, multiples)?;
    let bound = bound_of(rows, multiples);
    add_rows(weights, rows, multiples);
    let most = drain(weights, touched.as_slice());
    let have_sides = have_sides(rows, multiples);
    Ok(shown(have_sides, is_below(most, bound)))
}
