// Whether a listed object is better than the own one, in listed pairs.
ghost use Rattle.std.specs.Prelude.{◌≡◌, ◌<◌, ◌≤◌, ◌<ℤ◌, ◌+ℤ◌, ℕ, length, map, All, MatchOption};
ghost use Rattle.dual_checker.specs.Faults.{IsFirst};
ghost use Rattle.cost_lists.specs.Given.{rows_given};
ghost use Rattle.exact_checker.specs.Under.{HasUnder, IsUnder};
ghost use Rattle.wide_checker.specs.WideNumbers.{IsInPrices, wide_value};
ghost use Rattle.wide_checker.specs.WideSources.{AreWidePairs, triples_in};

use super::numbers::{Wide, cost_at, price_at};
use super::source::WidePairs;
use super::values::sum_of;
use assign_core::Sense;
use cost_lists::{Object, Person};
use exact_checker::earlier;

// The lowest person that lists an object whose sum of cost and price is below the person's value,
// and its lowest object of this kind, of listed pairs.
pub fn first_of_pairs(
    sense: Sense,
    pairs: WidePairs<'_>,
    values: &[i128],
    prices: &[Wide],
) -> Option<(Person, Object)>
    requires pairs { AreWidePairs (length values.now) (length prices.now) pairs }
    requires in_range { All IsInPrices (map wide_value prices.now) }
    ensures { let m = length prices.now in let n = length values.now in
        let p = map wide_value prices.now in
        let rows = rows_given sense (triples_in pairs.entry) m 1 n in MatchOption result
        ((i k : ℕ) → ¬ IsUnder sense rows p values.now i k)
        (λ r. IsFirst (HasUnder sense rows p values.now) n r.0
        × IsFirst (IsUnder sense rows p values.now r.0) m r.1) }
{
    let mut first = None;
    for k in 0..pairs.persons.len() {
        let (person, object) = (pairs.persons[k], pairs.objects[k]);
        let price = price_at(prices, object as usize - 1);
        let sum = sum_of(sense, cost_at(pairs.costs, k), price);
        if sum < values[person as usize - 1] {
            first = Some(earlier(first, person, object));
        }
    }
    first
}
