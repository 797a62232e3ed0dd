// Counts of rows, or of columns.
ghost use Rattle.std.specs.Prelude.{◌≡◌, ◌<◌, ◌≤◌, ◌<ℤ◌, ℕ, ℤ, pos, length, replicate, All, MatchOption, true, false};
ghost use Rattle.assign_core.specs.Numbered.{IsNumber, numbered};
ghost use Rattle.assign_core.specs.Prices.{price_of};
ghost use Rattle.dual_checker.specs.Faults.{IsFirst};
ghost use Rattle.count_checker.specs.CountFaults.{IsKept};
ghost use Rattle.count_checker.specs.inside.Tallies.{IsKeptCount, bounds_of, chosen_count};

use super::marks::Marks;

// Counts the chosen pairs of each row, or column. The counts are 0 at first.
pub fn count(counts: &mut [usize], keys: &[u32], plan: &Marks<'_>)
    requires zero { counts.old ≡ replicate (length counts.old) 0 }
    requires plan { length plan.now ≡ length keys.now }
    requires within { All (IsNumber (length counts.old)) keys.now }
    ensures { (j : ℕ) → IsNumber (length counts.new) j
        → numbered counts.new j 0 ≡ chosen_count keys.now plan.now j (length keys.now) }
{
    for k in 0..keys.len() {
        if plan.has(k) {
            counts[keys[k] as usize - 1] += 1;
        }
    }
}

// Whether a count is within its bounds, and its number tight.
fn is_kept(count: usize, least: u32, most: u32, price: i64) -> bool
    ensures yes { result ≡ true → IsKeptCount least most count price }
    ensures no { result ≡ false → ¬ IsKeptCount least most count price }
{
    if count < least as usize || count > most as usize {
        return false;
    }
    if price > 0 {
        count == least as usize
    } else if price < 0 {
        count == most as usize
    } else {
        true
    }
}

// The first row, or column, whose count isn't kept or whose number isn't tight.
pub fn first_loose(counts: &[usize], least: &[u32], most: &[u32], prices: &[i64]) -> Option<usize>
    requires least { length least.now ≡ length counts.now }
    requires most { length most.now ≡ length counts.now }
    requires prices { length prices.now ≡ length counts.now }
    ensures { let b = bounds_of least.now most.now in MatchOption result
        ((i : ℕ) → IsNumber (length counts.now) i
        → IsKept b i (numbered counts.now i 0) (price_of prices.now i))
        (λ i. IsFirst (λ i. ¬ IsKept b i (numbered counts.now i 0) (price_of prices.now i))
        (length counts.now) i) }
{
    for i in 0..counts.len() {
        if !is_kept(counts[i], least[i], most[i], prices[i]) {
            return Some(i + 1);
        }
    }
    None
}
