// The prices after a search.
ghost use Rattle.std.specs.Prelude.{◌≡◌, ◌≢◌, ℕ, ◌<◌, ◌-ℤ◌, length};
ghost use Rattle.cost_lists.specs.Exact.{IsPriceInLimits};
ghost use Rattle.hungarian.specs.inside.Plans.{at, int_at};
ghost use Rattle.hungarian.specs.inside.Trees.{IsRaised};

use assign_core::Cost;
use cost_lists::Price;

// Raises the price of an object with a rank to the cost of the path to the last one less that to
// this one.
fn raise_one(prices: &mut [Price], object: usize, rank: u32, to_last: Cost, to_object: Cost)
    requires place { object < length prices.old }
    requires fits { 0 < rank → IsPriceInLimits (to_last -ℤ to_object) }
    ensures raised { 0 < rank → int_at prices.new object ≡ (to_last -ℤ to_object) }
    ensures same { rank ≡ 0 → int_at prices.new object ≡ int_at prices.old object }
    ensures others { (k : ℕ) → k ≢ object → int_at prices.new k ≡ int_at prices.old k }
{
    if rank != 0 {
        prices[object] = to_last - to_object;
    }
}

// Raises the prices of the objects with a rank so that each step of the paths goes to a choice.
pub fn raise(prices: &mut [Price], to_objects: &[Cost], ranks: &[u32], end: usize)
    requires end { end < length to_objects.now }
    requires costs { length to_objects.now ≡ length prices.old }
    requires ranks { length ranks.now ≡ length prices.old }
    requires fits { (k : ℕ) → 0 < at ranks.now k
        → IsPriceInLimits (int_at to_objects.now end -ℤ int_at to_objects.now k) }
    ensures { IsRaised (int_at prices.old) (int_at to_objects.now) (at ranks.now) end
        (int_at prices.new) }
{
    let to_last = to_objects[end];
    for j in 0..prices.len() {
        raise_one(prices, j, ranks[j], to_last, to_objects[j]);
    }
}
