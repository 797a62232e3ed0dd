// Whether a listed object is better than the own one, in listed pairs.
ghost use Rattle.std.specs.Prelude.{◌≡◌, ◌<◌, ◌≤◌, ◌<ℤ◌, ◌+ℤ◌, ◌⊎◌, ◌↔◌, ℕ, IsTrue, length, All, MatchOption};
ghost use Rattle.assign_core.specs.Numbered.{IsNumber};
ghost use Rattle.dual_checker.specs.Faults.{IsFirst};
ghost use Rattle.cost_lists.specs.Exact.{IsPriceInLimits};
ghost use Rattle.cost_lists.specs.Given.{rows_given};
ghost use Rattle.cost_lists.specs.Source.{ArePairs, triples_in};
ghost use Rattle.exact_checker.specs.Under.{HasUnder, IsUnder};
ghost use Rattle.exact_checker.specs.inside.Earliest.{IsEarlier, IsUpTo};

use super::values::sum_of;
use assign_core::{Cost, Sense};
use cost_lists::{Object, Pairs, Person, Price};

// The first of a pair and another, if there is one, by the persons and then by the objects.
pub fn earlier(first: Option<(Person, Object)>, person: Person, object: Object) -> (Person, Object)
    ensures { IsEarlier first (person, object) result }
{
    match first {
        Some((i, j)) => {
            if i < person || i == person && j <= object {
                (i, j)
            } else {
                (person, object)
            }
        }
        None => (person, object),
    }
}

// The lowest person that lists an object whose sum of cost and price is below the person's value,
// and its lowest object of this kind, of listed pairs.
pub fn first_of_pairs(
    sense: Sense,
    pairs: Pairs<'_>,
    values: &[Cost],
    prices: &[Price],
) -> Option<(Person, Object)>
    requires pairs { ArePairs (length values.now) (length prices.now) pairs }
    requires in_range { All IsPriceInLimits prices.now }
    ensures { let m = length prices.now in let n = length values.now in
        let rows = rows_given sense (triples_in pairs.entry) m 1 n in MatchOption result
        ((i k : ℕ) → ¬ IsUnder sense rows prices.now values.now i k)
        (λ p. IsFirst (HasUnder sense rows prices.now values.now) n p.0
        × IsFirst (IsUnder sense rows prices.now values.now p.0) m p.1) }
{
    let mut first = None;
    for k in 0..pairs.persons.len() {
        let (person, object) = (pairs.persons[k], pairs.objects[k]);
        let sum = sum_of(sense, pairs.costs[k], prices[object as usize - 1]);
        if sum < values[person as usize - 1] {
            first = Some(earlier(first, person, object));
        }
    }
    first
}
