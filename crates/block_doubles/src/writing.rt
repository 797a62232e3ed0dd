// Pairs that are better than their persons' own, written for a caller.
ghost use Rattle.std.specs.Prelude.{◌≡◌, ◌⊎◌, ◌<◌, ◌≤◌, ◌-◌, ◌*◌, ◌^◌, All, IsTrue, IfErr, IfOk, IfSome, length, slice_index_or};
ghost use Rattle.double_costs.specs.Units.{is_number};
ghost use Rattle.double_costs.specs.DoubleRows.{rows_of_doubles};
ghost use Rattle.double_checker.specs.Verdicts.{price_units};
ghost use Rattle.block_doubles.specs.Pairs.{AreWritten, IsBetterPair, IsLower, numbers_in};
ghost use Rattle.block_doubles.specs.inside.Rising.{IsNext};

use super::better::is_under;
use super::selecting::select;
use assign_core::Sense;
use block_checker::Selected;
use cost_lists::{Object, Person};
use double_checker::row_part;
use std::alloc::{AllocError, Global};

// A pair with its cost.
#[derive(Clone, Copy)]
struct Pair {
    person: Person,
    object: Object,
    cost: f64,
}

// The selected pair, if its sum is below its person's number.
fn better_pair(
    sense: Sense,
    costs: &[f64],
    number_costs: &[f64],
    number_prices: &[f64],
    prices: &[f64],
    selected: Selected,
) -> Option<Pair>
    requires long { length costs.now ≡ length number_costs.now * length prices.now }
    requires few { length prices.now < 2 ^ 32 }
    requires few_persons { length number_costs.now < 2 ^ 32 }
    requires number_prices { length number_prices.now ≡ length number_costs.now }
    requires prices { All (λ p. IsTrue (is_number p)) prices.now }
    requires costs_finite { All (λ p. IsTrue (is_number p)) number_costs.now }
    requires prices_finite { All (λ p. IsTrue (is_number p)) number_prices.now }
    ensures { IfSome result (λ p. IsBetterPair sense
        (rows_of_doubles (length prices.now) (length number_costs.now) costs.now)
        (price_units prices.now) (numbers_in sense number_costs.now number_prices.now)
        p.person p.object p.cost) }
{
    let Selected { row, at } = selected;
    if row >= number_costs.len() || at >= prices.len() {
        return None;
    }
    let costs = row_part(costs, row, prices.len());
    let cost = costs[at];
    if !is_under(
        sense,
        cost,
        prices[at],
        number_costs[row],
        number_prices[row],
    ) {
        return None;
    }
    Some(Pair {
        person: row as u32 + 1,
        object: at as u32 + 1,
        cost,
    })
}

// Whether fewer than `most` of the first persons, which rise, are this one.
fn is_few(persons: &[Person], most: usize, count: usize, person: Person) -> bool
    requires { count ≤ length persons.now }
    ensures some { IsTrue result → 0 < most }
    ensures few { IsTrue result → most ≤ count → slice_index_or persons.now (count - most) 0 < person }
{
    if most == 0 {
        return false;
    }
    if count < most {
        return true;
    }
    persons[count - most] < person
}

// Whether the last one of the first pairs is lower.
fn is_last_lower(
    persons: &[Person],
    objects: &[Object],
    count: usize,
    person: Person,
    object: Object,
) -> bool
    requires within { count ≤ length persons.now }
    requires long { length objects.now ≡ length persons.now }
    ensures { IsTrue result → (count ≡ 0) ⊎ IsLower (slice_index_or persons.now (count - 1) 0)
        (slice_index_or objects.now (count - 1) 0) person object }
{
    if count == 0 {
        return true;
    }
    let (last, other) = (persons[count - 1], objects[count - 1]);
    if last < person {
        return true;
    }
    if last > person {
        return false;
    }
    other < object
}

// Whether a pair may be written after the first ones.
fn is_next(
    persons: &[Person],
    objects: &[Object],
    most: usize,
    count: usize,
    person: Person,
    object: Object,
) -> bool
    requires long { length objects.now ≡ length persons.now }
    ensures { IsTrue result → IsNext persons.now objects.now most count person object }
{
    if count >= persons.len() {
        return false;
    }
    if !is_few(persons, most, count, person) {
        return false;
    }
    is_last_lower(persons, objects, count, person, object)
}

// Writes those of the selected pairs that are better, at most `most` of a person, as far as they rise and the
// lists reach. How many it wrote.
fn write_selected(
    sense: Sense,
    costs: &[f64],
    number_costs: &[f64],
    number_prices: &[f64],
    prices: &[f64],
    selected: &[Selected],
    most: usize,
    persons: &mut [Person],
    objects: &mut [Object],
    paid: &mut [f64],
) -> usize
    requires long { length costs.now ≡ length number_costs.now * length prices.now }
    requires few { length prices.now < 2 ^ 32 }
    requires few_persons { length number_costs.now < 2 ^ 32 }
    requires number_prices { length number_prices.now ≡ length number_costs.now }
    requires prices { All (λ p. IsTrue (is_number p)) prices.now }
    requires costs_finite { All (λ p. IsTrue (is_number p)) number_costs.now }
    requires prices_finite { All (λ p. IsTrue (is_number p)) number_prices.now }
    requires objects_long { length objects.old ≡ length persons.old }
    requires paid_long { length paid.old ≡ length persons.old }
    ensures { AreWritten sense
        (rows_of_doubles (length prices.now) (length number_costs.now) costs.now)
        (price_units prices.now) (numbers_in sense number_costs.now number_prices.now) most result
        (record { persons = persons.old; objects = objects.old; costs = paid.old })
        (record { persons = persons.new; objects = objects.new; costs = paid.new }) }
{
    let mut count = 0;
    for one in selected {
        if let Some(pair) = better_pair(sense, costs, number_costs, number_prices, prices, *one)
            && is_next(persons, objects, most, count, pair.person, pair.object)
        {
            persons[count] = pair.person;
            objects[count] = pair.object;
            paid[count] = pair.cost;
            count += 1;
        }
    }
    count
}

/// Writes pairs whose sums are below their persons' numbers, and says how many: at most `most` of a person,
/// of those of the least sums, by persons, then by objects, as far as the three lists reach. The least pairs
/// are those of `look`. What follows the written part stays.
///
/// That each written pair is better, none stands twice and at most `most` are of a person is proved; that they
/// are those of the least sums is only tested, and sums that round to one number count as equal there.
///
/// # Errors
/// `AllocError` if memory is refused: then nothing is written.
pub fn write_better(
    alloc: Global,
    sense: Sense,
    costs: &[f64],
    number_costs: &[f64],
    number_prices: &[f64],
    prices: &[f64],
    least_objects: &[Object],
    least_costs: &[f64],
    most: usize,
    persons: &mut [Person],
    objects: &mut [Object],
    paid: &mut [f64],
) -> Result<usize, AllocError>
    requires long { length costs.now ≡ length number_costs.now * length prices.now }
    requires few { length prices.now < 2 ^ 32 }
    requires few_persons { length number_costs.now < 2 ^ 32 }
    requires number_prices { length number_prices.now ≡ length number_costs.now }
    requires prices { All (λ p. IsTrue (is_number p)) prices.now }
    requires costs_finite { All (λ p. IsTrue (is_number p)) number_costs.now }
    requires prices_finite { All (λ p. IsTrue (is_number p)) number_prices.now }
    requires objects_long { length objects.old ≡ length persons.old }
    requires paid_long { length paid.old ≡ length persons.old }
    ensures written { IfOk result (λ count. AreWritten sense
        (rows_of_doubles (length prices.now) (length number_costs.now) costs.now)
        (price_units prices.now) (numbers_in sense number_costs.now number_prices.now) most count
        (record { persons = persons.old; objects = objects.old; costs = paid.old })
        (record { persons = persons.new; objects = objects.new; costs = paid.new })) }
    ensures stays { IfErr result (λ e. (persons.new ≡ persons.old) × (objects.new ≡ objects.old)
        × (paid.new ≡ paid.old)) }
{
    let selected = select(
        alloc,
        sense,
        costs,
        number_costs,
        number_prices,
        prices,
        least_objects,
        least_costs,
        most,
    )?;
    let selected = selected.as_slice();
    Ok(write_selected(
        sense,
        costs,
        number_costs,
        number_prices,
        prices,
        selected,
        most,
        persons,
        objects,
        paid,
    ))
}
