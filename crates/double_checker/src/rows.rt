// Whether each person's own object is a choice of its row.
ghost use Rattle.std.specs.Prelude.{◌≡◌, ◌≤◌, ◌<◌, ◌+◌, ◌*◌, ◌+ℤ◌, ◌≤ℤ◌, ◌⊎◌, true, All, IsTrue, IfSome};
ghost use Rattle.std.specs.Prelude.{MatchOption, length};
ghost use Rattle.double_costs.specs.Units.{is_number, units_of};
ghost use Rattle.double_checker.specs.inside.Pairs.{AreAbove, AreAtLeast, HasOpen, at, paid};
ghost use Rattle.double_checker.specs.inside.Plans.{AreOwn, AreRowsSeen, HasOpenRow, IsBase};
ghost use Rattle.double_checker.specs.inside.Plans.{IsRowSeen};

use super::numbers::{both, is_number, row_part, turned};
use super::pairs::{is_above, is_at_least};
use assign_core::Sense;
use cost_lists::Object;

// Whether one holds.
fn either(a: bool, b: bool) -> bool
    ensures { result ≡ true → (a ≡ true) ⊎ (b ≡ true) }
{
    if a { true } else { b }
}

// Whether each other cost of a row is above a base and a margin. It looks at all of them, without
// branches.
fn are_others_above(
    sense: Sense,
    row: &[f64],
    prices: &[f64],
    own: usize,
    base: f64,
    margin: f64,
) -> bool
    requires long { length row.now ≡ length prices.now }
    requires prices { All (λ p. IsTrue (is_number p)) prices.now }
    requires base { IsTrue (is_number base) }
    requires margin { IsTrue (is_number margin) }
    ensures { result ≡ true → AreAbove sense (units_of base +ℤ units_of margin)
        row.now prices.now own (length row.now) }
{
    let mut holds = true;
    for k in 0..row.len() {
        let is_worse = is_above(sense, base, margin, row[k], prices[k]);
        holds = both(holds, either(k == own, is_worse));
    }
    holds
}

// Whether each cost of a row is at least the own one with its price; if so, whether each other one
// is above a base and a margin.
fn is_row_above(
    sense: Sense,
    row: &[f64],
    prices: &[f64],
    own: usize,
    base: f64,
    margin: f64,
) -> Option<bool>
    requires long { length row.now ≡ length prices.now }
    requires own { own < length row.now }
    requires finite { IsTrue (is_number (at row.now own)) }
    requires prices { All (λ p. IsTrue (is_number p)) prices.now }
    requires base { IsTrue (is_number base) }
    requires margin { IsTrue (is_number margin) }
    requires enough { paid sense (at row.now own) (at prices.now own)
        ≤ℤ (units_of base +ℤ units_of margin) }
    ensures { let own_paid = paid sense (at row.now own) (at prices.now own) in
        MatchOption result (HasOpen sense row.now prices.now own)
        (λ by_margin. AreAtLeast sense own_paid row.now prices.now (length row.now)
        × (by_margin ≡ true → AreAbove sense (units_of base +ℤ units_of margin)
        row.now prices.now own (length row.now))) }
{
    if are_others_above(sense, row, prices, own, base, margin) {
        return Some(true);
    }
    let (own_cost, own_price) = (row[own], prices[own]);
    let mut by_margin = true;
    for k in 0..row.len() {
        if !is_above(sense, base, margin, row[k], prices[k]) && k != own {
            if !is_at_least(sense, own_cost, own_price, row[k], prices[k]) {
                return None;
            }
            by_margin = false;
        }
    }
    Some(by_margin)
}

// Whether the own cost with its price is below a base.
fn is_base(own_cost: f64, own_price: f64, base: f64, margin: f64) -> bool
    requires own_cost { IsTrue (is_number own_cost) }
    requires own_price { IsTrue (is_number own_price) }
    ensures { IsTrue result → IsBase own_cost own_price base margin }
{
    if !is_number(base) {
        return false;
    }
    if !is_number(margin) {
        return false;
    }
    if margin < 0.0 {
        return false;
    }
    own_cost + own_price < base + 0.0
}

// Whether each cost of a row is at least the own one with its price; if so, whether each other one
// is above it by more than the margin.
fn is_row_seen(sense: Sense, row: &[f64], prices: &[f64], own: usize, margin: f64) -> Option<bool>
    requires long { length row.now ≡ length prices.now }
    requires own { own < length row.now }
    requires finite { IsTrue (is_number (at row.now own)) }
    requires prices { All (λ p. IsTrue (is_number p)) prices.now }
    ensures { MatchOption result (HasOpen sense row.now prices.now own)
        (λ by_margin. IsRowSeen sense (units_of margin) row.now prices.now own by_margin) }
{
    let (own_cost, own_price) = (turned(sense, row[own]), prices[own]);
    let base = own_cost + own_price + margin;
    if is_base(own_cost, own_price, base, margin) {
        return is_row_above(sense, row, prices, own, base, margin);
    }
    match is_row_above(sense, row, prices, own, own_cost, own_price) {
        Some(_) => Some(false),
        None => None,
    }
}

// Whether each person's own object is a choice of its row at these prices; if so, whether it is one
// by the margin.
pub fn are_rows_seen(
    sense: Sense,
    costs: &[f64],
    objects: &[Object],
    prices: &[f64],
    margin: f64,
) -> Option<bool>
    requires long { length costs.now ≡ length objects.now * length prices.now }
    requires own { AreOwn (length prices.now) costs.now objects.now }
    requires prices { All (λ p. IsTrue (is_number p)) prices.now }
    ensures { MatchOption result
        (HasOpenRow sense (length prices.now) costs.now objects.now prices.now)
        (λ by_margin. AreRowsSeen sense (units_of margin) (length prices.now) costs.now objects.now
        prices.now by_margin (length objects.now)) }
{
    let m = prices.len();
    let mut by_margin = true;
    for i in 0..objects.len() {
        let row = row_part(costs, i, m);
        let own = objects[i] as usize - 1;
        let seen = is_row_seen(sense, row, prices, own, margin)?;
        by_margin = both(by_margin, seen);
    }
    Some(by_margin)
}
