// Blocks of a full row that change nothing, and may be skipped.
ghost use Rattle.std.specs.Prelude.{◌≡◌, ℕ, ℤ, ◌-ℤ◌, ◌≤ℤ◌, ◌+◌, ◌≤◌, ◌<◌, length, All, IsTrue, slice_index_or};
ghost use Rattle.assign_core.specs.Benefits.{IsBenefit};
ghost use Rattle.assign_core.specs.Prices.{IsNarrow};
ghost use Rattle.bidder.specs.declared.skipping.TheConstants.{LANES};

use assign_core::Benefit;
use std::simd::prelude::*;

/// The number of objects that are compared with the limit at once.
pub const LANES: usize = 16;

/// Whether none of the `LANES` objects from a place on has a benefit that is above its narrow price
/// by more than the limit.
pub fn none_above(benefits: &[Benefit], narrow: &[i64], from: usize, limit: i64) -> bool
    requires benefits { All IsBenefit benefits.now }
    requires narrow { All IsNarrow narrow.now }
    requires long { length benefits.now ≡ length narrow.now }
    requires room { from + LANES ≤ length benefits.now }
    ensures { IsTrue result → (k : ℕ) (d : ℤ) → from ≤ k → k < from + LANES
        → (slice_index_or benefits.now k d -ℤ slice_index_or narrow.now k d) ≤ℤ limit }
{
    let values = i64x16::from_slice(&benefits[from..]) - i64x16::from_slice(&narrow[from..]);
    values.simd_gt(i64x16::splat(limit)).to_bitmask() == 0
}
