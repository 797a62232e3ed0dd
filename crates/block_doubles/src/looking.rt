// A look at a block: its least sums, own pairs, and the first better pair.
ghost use Rattle.std.specs.Prelude.{◌≡◌, ◌<◌, ◌*◌, ◌^◌, All, IsTrue, MatchOption, length};
ghost use Rattle.dual_checker.specs.Faults.{IsFirst};
ghost use Rattle.cost_lists.specs.Blocks.{IsBounded};
ghost use Rattle.exact_checker.specs.Under.{HasUnder, IsUnder};
ghost use Rattle.double_costs.specs.Units.{is_number};
ghost use Rattle.double_costs.specs.DoubleRows.{rows_of_doubles};
ghost use Rattle.double_checker.specs.Verdicts.{price_units};
ghost use Rattle.block_doubles.specs.Pairs.{AreLeastPairs, AreMarks, numbers_in};

use super::better::first_better;
use super::least::set_least;
use super::marks::set_marks;
use assign_core::Sense;
use cost_lists::{Object, Person};

/// Looks at rows of a greater problem, whose costs lie row by row, at prices of all its objects. A person's
/// row number is the exact sum of its number's cost (under `Max` its negative) and price. Answers the lowest
/// person that has a pair below its number, with its lowest object of these, or `None` exactly where no pair is.
/// Writes an object of the least sum of each person with its cost, or object 0 if all of its pairs are
/// forbidden; and for each person 1 if its own pair stands in the block at its number, and 0 if not. Own
/// objects may be any numbers.
///
/// The time is linear in the costs. It takes no memory.
pub fn look(
    sense: Sense,
    costs: &[f64],
    objects: &[Object],
    number_costs: &[f64],
    number_prices: &[f64],
    prices: &[f64],
    least_objects: &mut [Object],
    least_costs: &mut [f64],
    own: &mut [u8],
) -> Option<(Person, Object)>
    requires long { length costs.now ≡ length objects.now * length prices.now }
    requires few { length prices.now < 2 ^ 32 }
    requires few_persons { length objects.now < 2 ^ 32 }
    requires number_costs { length number_costs.now ≡ length objects.now }
    requires number_prices { length number_prices.now ≡ length objects.now }
    requires least_objects { length least_objects.old ≡ length objects.now }
    requires least_costs { length least_costs.old ≡ length objects.now }
    requires own { length own.old ≡ length objects.now }
    requires prices { All (λ p. IsTrue (is_number p)) prices.now }
    requires costs_finite { All (λ p. IsTrue (is_number p)) number_costs.now }
    requires prices_finite { All (λ p. IsTrue (is_number p)) number_prices.now }
    ensures least { AreLeastPairs sense
        (rows_of_doubles (length prices.now) (length objects.now) costs.now) (price_units prices.now)
        least_objects.new least_costs.new }
    ensures own { AreMarks sense
        (rows_of_doubles (length prices.now) (length objects.now) costs.now) (price_units prices.now)
        objects.now (numbers_in sense number_costs.now number_prices.now) own.new }
    ensures first { let rows = rows_of_doubles (length prices.now) (length objects.now) costs.now in
        let numbers = numbers_in sense number_costs.now number_prices.now in
        MatchOption result (IsBounded sense rows (price_units prices.now) numbers)
        (λ p. IsFirst (HasUnder sense rows (price_units prices.now) numbers) (length objects.now) p.0
        × IsFirst (IsUnder sense rows (price_units prices.now) numbers p.0) (length prices.now) p.1) }
{
    set_least(sense, costs, prices, least_objects, least_costs);
    set_marks(
        sense,
        costs,
        prices,
        objects,
        number_costs,
        number_prices,
        own,
    );
    first_better(
        sense,
        costs,
        prices,
        number_costs,
        number_prices,
        least_objects,
        least_costs,
    )
}
