// Whether a block has the persons' own pairs, at their numbers.
ghost use Rattle.std.specs.Prelude.{◌≡◌, ◌<◌, ◌*◌, ℕ, All, IsTrue, length, slice_index_or};
ghost use Rattle.double_costs.specs.Units.{is_number};
ghost use Rattle.double_checker.specs.inside.Pairs.{at, paid, row_part};
ghost use Rattle.block_doubles.specs.inside.Places.{IsMarkAt, number_at};

use super::least::is_less;
use assign_core::Sense;
use cost_lists::Object;
use double_checker::{is_number, row_part};

// 1 if an own object stands in a row at a finite cost, whose sum with its price is the number; else 0.
fn mark_of(
    sense: Sense,
    row: &[f64],
    prices: &[f64],
    object: Object,
    number_cost: f64,
    number_price: f64,
) -> u8
    requires long { length row.now ≡ length prices.now }
    requires prices { All (λ p. IsTrue (is_number p)) prices.now }
    requires number_cost { IsTrue (is_number number_cost) }
    requires number_price { IsTrue (is_number number_price) }
    ensures { IsMarkAt sense (paid sense number_cost number_price) row.now prices.now object result }
{
    if object == 0 || object as usize > row.len() {
        return 0;
    }
    let (cost, price) = (row[object as usize - 1], prices[object as usize - 1]);
    if !is_number(cost) {
        return 0;
    }
    if is_less(sense, cost, price, number_cost, number_price) {
        return 0;
    }
    if is_less(sense, number_cost, number_price, cost, price) {
        return 0;
    }
    1
}

// Writes each person's mark.
pub fn set_marks(
    sense: Sense,
    costs: &[f64],
    prices: &[f64],
    objects: &[Object],
    number_costs: &[f64],
    number_prices: &[f64],
    marks: &mut [u8],
)
    requires long { length costs.now ≡ length objects.now * length prices.now }
    requires number_costs { length number_costs.now ≡ length objects.now }
    requires number_prices { length number_prices.now ≡ length objects.now }
    requires marks { length marks.old ≡ length objects.now }
    requires prices { All (λ p. IsTrue (is_number p)) prices.now }
    requires costs_finite { All (λ p. IsTrue (is_number p)) number_costs.now }
    requires prices_finite { All (λ p. IsTrue (is_number p)) number_prices.now }
    ensures { (i : ℕ) → i < length marks.new
        → IsMarkAt sense (number_at sense number_costs.now number_prices.now i)
        (row_part (length prices.now) i costs.now) prices.now (slice_index_or objects.now i 0)
        (slice_index_or marks.new i 0) }
{
    let m = prices.len();
    for i in 0..marks.len() {
        let row = row_part(costs, i, m);
        marks[i] = mark_of(
            sense,
            row,
            prices,
            objects[i],
            number_costs[i],
            number_prices[i],
        );
    }
}
