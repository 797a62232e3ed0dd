// The least sum of each person's costs and prices, exactly.
ghost use Rattle.std.specs.Prelude.{◌≡◌, ◌↔◌, ◌<◌, ◌≤◌, ◌*◌, ◌^◌, ◌<ℤ◌, ℕ, All, IsTrue, length, slice_index_or};
ghost use lib.Ieee.{nan};
ghost use Rattle.double_costs.specs.Units.{is_number};
ghost use Rattle.double_checker.specs.inside.Pairs.{at, paid, row_part};
ghost use Rattle.block_doubles.specs.declared.least.TheConstants.{STEP};
ghost use Rattle.block_doubles.specs.inside.Places.{IsAboveGuess, IsBestFrom, IsBestOf, IsGuess, IsLeastAt, IsLesser, IsStep};

use super::guessing::place_of_least;
use assign_core::Sense;
use cost_lists::Object;
use double_checker::{is_number, is_sum_less, row_part, turned};

// An object with its cost and price; 0 is none.
#[derive(Clone, Copy)]
pub struct Best {
    pub object: Object,
    pub cost: f64,
    pub price: f64,
}

// Whether the exact sum of a cost and a price is below that of others. Costs count as ones to minimise.
pub fn is_less(sense: Sense, cost: f64, price: f64, other_cost: f64, other_price: f64) -> bool
    requires cost { IsTrue (is_number cost) }
    requires price { IsTrue (is_number price) }
    requires other_cost { IsTrue (is_number other_cost) }
    requires other_price { IsTrue (is_number other_price) }
    ensures { IsTrue result ↔ (paid sense cost price <ℤ paid sense other_cost other_price) }
{
    is_sum_less(
        turned(sense, cost),
        price,
        turned(sense, other_cost),
        other_price,
    )
}

// The better of a pair, if there is one, and one more; of equal ones the first.
fn lesser(sense: Sense, best: Best, object: Object, cost: f64, price: f64) -> Best
    requires price { IsTrue (is_number price) }
    requires best_cost { 0 < best.object → IsTrue (is_number best.cost) }
    requires best_price { 0 < best.object → IsTrue (is_number best.price) }
    ensures { IsLesser sense best object cost price result }
{
    if !is_number(cost) {
        return best;
    }
    let one = Best {
        object,
        cost,
        price,
    };
    if best.object == 0 {
        return one;
    }
    if is_less(sense, cost, price, best.cost, best.price) {
        one
    } else {
        best
    }
}

// Whether rounded sums show that the exact sum of a cost and a price is below that of others. Rounding keeps
// the order, so sums that differ when rounded differ as they are.
fn is_rounded_less(sense: Sense, cost: f64, price: f64, other_cost: f64, other_price: f64) -> bool
    requires cost { IsTrue (is_number cost) }
    requires price { IsTrue (is_number price) }
    requires other_price { IsTrue (is_number other_price) }
    ensures { IsTrue result → IsTrue (is_number other_cost)
        → paid sense cost price <ℤ paid sense other_cost other_price }
{
    turned(sense, cost) + price < turned(sense, other_cost) + other_price
}

// Whether a pair is above the guess, if there is one.
fn is_above_guess(sense: Sense, guess: Best, cost: f64, price: f64) -> bool
    requires price { IsTrue (is_number price) }
    requires guess_cost { 0 < guess.object → IsTrue (is_number guess.cost) }
    requires guess_price { 0 < guess.object → IsTrue (is_number guess.price) }
    ensures { IsTrue result → IsAboveGuess sense guess cost price }
{
    if guess.object == 0 {
        return false;
    }
    is_rounded_less(sense, guess.cost, guess.price, cost, price)
}

// The better of a pair, if there is one, and one more. Those above the guess aren't compared exactly.
fn better_of(sense: Sense, guess: Best, best: Best, object: Object, cost: f64, price: f64) -> Best
    requires price { IsTrue (is_number price) }
    requires guess_cost { 0 < guess.object → IsTrue (is_number guess.cost) }
    requires guess_price { 0 < guess.object → IsTrue (is_number guess.price) }
    requires best_cost { 0 < best.object → IsTrue (is_number best.cost) }
    requires best_price { 0 < best.object → IsTrue (is_number best.price) }
    ensures { IsStep sense guess best object cost price result }
{
    if is_above_guess(sense, guess, cost, price) {
        return best;
    }
    lesser(sense, best, object, cost, price)
}

// The pair of the first least rounded sum of a row, if it is finite.
fn guess_of_row(sense: Sense, row: &[f64], prices: &[f64]) -> Best
    requires long { length row.now ≡ length prices.now }
    requires few { length row.now < 2 ^ 32 }
    requires prices { All (λ p. IsTrue (is_number p)) prices.now }
    ensures { IsGuess row.now prices.now result }
{
    let none = Best {
        object: 0,
        cost: f64::INFINITY,
        price: 0.0,
    };
    let place = place_of_least(sense, row, prices);
    if place >= row.len() {
        return none;
    }
    if !is_number(row[place]) {
        return none;
    }
    Best {
        object: place as u32 + 1,
        cost: row[place],
        price: prices[place],
    }
}

// Whether all pairs at places from one to another are above the guess. It looks at all of them, without
// branches.
fn are_above_guess(
    sense: Sense,
    row: &[f64],
    prices: &[f64],
    guess: Best,
    from: usize,
    to: usize,
) -> bool
    requires long { length row.now ≡ length prices.now }
    requires prices { All (λ p. IsTrue (is_number p)) prices.now }
    requires guess_cost { 0 < guess.object → IsTrue (is_number guess.cost) }
    requires guess_price { 0 < guess.object → IsTrue (is_number guess.price) }
    requires to { to ≤ length row.now }
    ensures { IsTrue result → (h : ℕ) → from ≤ h → h < to
        → IsAboveGuess sense guess (at row.now h) (at prices.now h) }
{
    let mut all = true;
    for k in from..to {
        all = is_above_guess(sense, guess, row[k], prices[k]) & all;
    }
    all
}

// The best of the pairs up to a place, and those from there to another one.
fn best_among(
    sense: Sense,
    row: &[f64],
    prices: &[f64],
    guess: Best,
    best: Best,
    from: usize,
    to: usize,
) -> Best
    requires long { length row.now ≡ length prices.now }
    requires few { length row.now < 2 ^ 32 }
    requires prices { All (λ p. IsTrue (is_number p)) prices.now }
    requires guess { IsGuess row.now prices.now guess }
    requires order { from ≤ to }
    requires to { to ≤ length row.now }
    requires best { IsBestFrom sense guess row.now prices.now from best }
    ensures { IsBestFrom sense guess row.now prices.now to result }
{
    let mut best = best;
    for k in from..to {
        best = better_of(sense, guess, best, k as u32 + 1, row[k], prices[k]);
    }
    best
}

// The same, where all of those may be above the guess.
fn best_of_step(
    sense: Sense,
    row: &[f64],
    prices: &[f64],
    guess: Best,
    best: Best,
    from: usize,
    to: usize,
) -> Best
    requires long { length row.now ≡ length prices.now }
    requires few { length row.now < 2 ^ 32 }
    requires prices { All (λ p. IsTrue (is_number p)) prices.now }
    requires guess { IsGuess row.now prices.now guess }
    requires order { from ≤ to }
    requires to { to ≤ length row.now }
    requires best { IsBestFrom sense guess row.now prices.now from best }
    ensures { IsBestFrom sense guess row.now prices.now to result }
{
    if are_above_guess(sense, row, prices, guess, from, to) {
        return best;
    }
    best_among(sense, row, prices, guess, best, from, to)
}

// How many pairs are one step.
const STEP: usize = 64;

// The best of the guess and so many steps.
fn best_of_steps(sense: Sense, row: &[f64], prices: &[f64], guess: Best, steps: usize) -> Best
    requires long { length row.now ≡ length prices.now }
    requires few { length row.now < 2 ^ 32 }
    requires prices { All (λ p. IsTrue (is_number p)) prices.now }
    requires guess { IsGuess row.now prices.now guess }
    requires room { steps * STEP ≤ length row.now }
    ensures { IsBestFrom sense guess row.now prices.now (steps * STEP) result }
{
    let mut best = guess;
    for s in 0..steps {
        let from = s * STEP;
        best = best_of_step(sense, row, prices, guess, best, from, from + STEP);
    }
    best
}

// The best pair of a row, from a guess.
fn least_from(sense: Sense, row: &[f64], prices: &[f64], guess: Best) -> Best
    requires long { length row.now ≡ length prices.now }
    requires few { length row.now < 2 ^ 32 }
    requires prices { All (λ p. IsTrue (is_number p)) prices.now }
    requires guess { IsGuess row.now prices.now guess }
    ensures { IsBestOf sense row.now prices.now (length row.now) result }
{
    let steps = row.len() / STEP;
    let best = best_of_steps(sense, row, prices, guess, steps);
    best_among(sense, row, prices, guess, best, steps * STEP, row.len())
}

// The best pair of a row.
fn least_of_row(sense: Sense, row: &[f64], prices: &[f64]) -> Best
    requires long { length row.now ≡ length prices.now }
    requires few { length row.now < 2 ^ 32 }
    requires prices { All (λ p. IsTrue (is_number p)) prices.now }
    ensures { IsBestOf sense row.now prices.now (length row.now) result }
{
    let guess = guess_of_row(sense, row, prices);
    least_from(sense, row, prices, guess)
}

// Writes each person's best object, and its cost.
pub fn set_least(
    sense: Sense,
    costs: &[f64],
    prices: &[f64],
    objects: &mut [Object],
    paid: &mut [f64],
)
    requires long { length costs.now ≡ length objects.old * length prices.now }
    requires paid { length paid.old ≡ length objects.old }
    requires few { length prices.now < 2 ^ 32 }
    requires prices { All (λ p. IsTrue (is_number p)) prices.now }
    ensures { (i : ℕ) → i < length objects.new
        → IsLeastAt sense (row_part (length prices.now) i costs.now) prices.now
        (slice_index_or objects.new i 0) (slice_index_or paid.new i nan) }
{
    let m = prices.len();
    for i in 0..objects.len() {
        let best = least_of_row(sense, row_part(costs, i, m), prices);
        objects[i] = best.object;
        paid[i] = best.cost;
    }
}
