// The greatest of costs.
ghost use Rattle.std.specs.Prelude.{◌<◌, ◌≤ℤ◌, ◌≡◌, ℕ, pos, length, slice_index_or};

use assign_core::Cost;

// The place of the greatest cost.
fn place_of_greatest(costs: &[Cost]) -> usize
    requires { 0 < length costs.now }
    ensures within { result < length costs.now }
    ensures most { (k : ℕ) → k < length costs.now
        → slice_index_or costs.now k (pos 0) ≤ℤ slice_index_or costs.now result (pos 0) }
{
    let mut place = 0;
    for k in 0..costs.len() {
        if costs[place] < costs[k] {
            place = k;
        }
    }
    place
}

// The greatest cost.
pub fn greatest_of(costs: &[Cost]) -> Cost
    requires { 0 < length costs.now }
    ensures { (p : ℕ) × (p < length costs.now) × (slice_index_or costs.now p (pos 0) ≡ result)
        × ((k : ℕ) → k < length costs.now → slice_index_or costs.now k (pos 0) ≤ℤ result) }
{
    costs[place_of_greatest(costs)]
}
