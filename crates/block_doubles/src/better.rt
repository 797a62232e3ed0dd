// The first pair that is better than its person's number.
ghost use Rattle.std.specs.Prelude.{◌≡◌, ◌<◌, ◌≤◌, ◌*◌, ◌-◌, ◌^◌, ◌≤ℤ◌, ◌<ℤ◌, ℕ, All, IsTrue, MatchOption, false, length, slice_index_or};
ghost use lib.Ieee.{nan};
ghost use Rattle.double_costs.specs.Units.{is_number};
ghost use Rattle.double_checker.specs.inside.Pairs.{at, paid, row_part};
ghost use Rattle.block_doubles.specs.inside.Places.{AreAbove, IsFirstBetter, IsFirstUnder, IsLeastAt, NoneBelow};

use super::least::is_less;
use assign_core::Sense;
use cost_lists::{Object, Person};
use double_checker::{is_number, row_part};

// Whether a cost is finite, and its sum with the price below a number.
pub fn is_under(sense: Sense, cost: f64, price: f64, number_cost: f64, number_price: f64) -> bool
    requires price { IsTrue (is_number price) }
    requires number_cost { IsTrue (is_number number_cost) }
    requires number_price { IsTrue (is_number number_price) }
    ensures finite { IsTrue result → IsTrue (is_number cost) }
    ensures under { IsTrue result → paid sense cost price <ℤ paid sense number_cost number_price }
    ensures no { result ≡ false → IsTrue (is_number cost)
        → paid sense number_cost number_price ≤ℤ paid sense cost price }
{
    if is_number(cost) {
        is_less(sense, cost, price, number_cost, number_price)
    } else {
        false
    }
}

// The first object of a row whose sum is below a number.
fn first_under(
    sense: Sense,
    row: &[f64],
    prices: &[f64],
    number_cost: f64,
    number_price: f64,
) -> Option<Object>
    requires long { length row.now ≡ length prices.now }
    requires few { length row.now < 2 ^ 32 }
    requires prices { All (λ p. IsTrue (is_number p)) prices.now }
    requires number_cost { IsTrue (is_number number_cost) }
    requires number_price { IsTrue (is_number number_price) }
    ensures { let v = paid sense number_cost number_price in MatchOption result
        (NoneBelow sense v row.now prices.now (length row.now))
        (λ j. IsFirstUnder sense v row.now prices.now j) }
{
    for k in 0..row.len() {
        if is_under(sense, row[k], prices[k], number_cost, number_price) {
            return Some(k as u32 + 1);
        }
    }
    None
}

// Whether a least pair, if there is one, is below a number.
pub fn is_least_under(
    sense: Sense,
    prices: &[f64],
    object: Object,
    cost: f64,
    number_cost: f64,
    number_price: f64,
) -> bool
    requires within { object ≤ length prices.now }
    requires prices { All (λ p. IsTrue (is_number p)) prices.now }
    requires number_cost { IsTrue (is_number number_cost) }
    requires number_price { IsTrue (is_number number_price) }
    ensures { result ≡ false → 0 < object → IsTrue (is_number cost)
        → paid sense number_cost number_price ≤ℤ paid sense cost (at prices.now (object - 1)) }
{
    if object == 0 {
        return false;
    }
    is_under(
        sense,
        cost,
        prices[object as usize - 1],
        number_cost,
        number_price,
    )
}

// The same, where the least pair of the row is known.
fn first_of_row(
    sense: Sense,
    row: &[f64],
    prices: &[f64],
    object: Object,
    cost: f64,
    number_cost: f64,
    number_price: f64,
) -> Option<Object>
    requires long { length row.now ≡ length prices.now }
    requires few { length row.now < 2 ^ 32 }
    requires prices { All (λ p. IsTrue (is_number p)) prices.now }
    requires number_cost { IsTrue (is_number number_cost) }
    requires number_price { IsTrue (is_number number_price) }
    requires least { IsLeastAt sense row.now prices.now object cost }
    ensures { let v = paid sense number_cost number_price in MatchOption result
        (NoneBelow sense v row.now prices.now (length row.now))
        (λ j. IsFirstUnder sense v row.now prices.now j) }
{
    if !is_least_under(sense, prices, object, cost, number_cost, number_price) {
        return None;
    }
    first_under(sense, row, prices, number_cost, number_price)
}

// The first person that has a pair below its number, and its first object of this kind.
pub fn first_better(
    sense: Sense,
    costs: &[f64],
    prices: &[f64],
    number_costs: &[f64],
    number_prices: &[f64],
    objects: &[Object],
    paid: &[f64],
) -> Option<(Person, Object)>
    requires long { length costs.now ≡ length objects.now * length prices.now }
    requires few { length prices.now < 2 ^ 32 }
    requires few_persons { length objects.now < 2 ^ 32 }
    requires number_costs { length number_costs.now ≡ length objects.now }
    requires number_prices { length number_prices.now ≡ length objects.now }
    requires paid { length paid.now ≡ length objects.now }
    requires prices { All (λ p. IsTrue (is_number p)) prices.now }
    requires costs_finite { All (λ p. IsTrue (is_number p)) number_costs.now }
    requires prices_finite { All (λ p. IsTrue (is_number p)) number_prices.now }
    requires least { (i : ℕ) → i < length objects.now
        → IsLeastAt sense (row_part (length prices.now) i costs.now) prices.now
        (slice_index_or objects.now i 0) (slice_index_or paid.now i nan) }
    ensures { MatchOption result
        (AreAbove sense costs.now prices.now number_costs.now number_prices.now (length objects.now))
        (λ p. IsFirstBetter sense costs.now prices.now number_costs.now number_prices.now
        (length objects.now) p.0 p.1) }
{
    let m = prices.len();
    for i in 0..objects.len() {
        let row = row_part(costs, i, m);
        if let Some(object) = first_of_row(
            sense,
            row,
            prices,
            objects[i],
            paid[i],
            number_costs[i],
            number_prices[i],
        ) {
            return Some((i as u32 + 1, object));
        }
    }
    None
}
