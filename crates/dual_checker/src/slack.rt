// Whether each person has slackness 1.
ghost use Rattle.std.specs.Prelude.{◌≡◌, ℕ, ℤ, pos, ◌+◌, ◌*ℤ◌, ◌≤ℤ◌, ◌-ℤ◌, length, map, All, MatchOption};
ghost use Rattle.assign_core.specs.Numbered.{IsNumber};
ghost use Rattle.assign_core.specs.Rows.{IsCost, IsRow, IsSize, listed_or_zero, row_of};
ghost use Rattle.assign_core.specs.Benefits.{benefit, benefit_row};
ghost use Rattle.assign_core.specs.Prices.{IsPrice, price_of};
ghost use Rattle.assign_core.specs.Slackness.{AllSlack, HasSlack};
ghost use Rattle.dual_checker.specs.Faults.{BreaksSlack, BreaksSlackOf, IsFirst, IsShort};
ghost use Rattle.assign_core.specs.Assignment.{AreListed};
ghost use Rattle.dual_checker.specs.inside.Rounded.{AreRounded};

use super::sums::shows_slack;
use assign_core::{Cost, GREATEST_COST, MOST_PERSONS, Object, Person, Price, Problem, Sense};

// An object's price.
pub fn price_at(prices: &[Price], object: Object) -> Price
    requires object { IsNumber (length prices.now) object }
    requires in_range { All IsPrice prices.now }
    ensures value { result ≡ price_of prices.now object }
    ensures range { IsPrice result }
{
    prices[object.place()]
}

// The value of an object: the benefit of its cost among `n` persons, less its price.
fn worth(sense: Sense, n: u16, cost: Cost, price: Price) -> Price
    requires size { IsSize n }
    requires cost { IsCost cost }
    requires price { IsPrice price }
    ensures value { result ≡ (benefit sense n cost -ℤ price) }
    ensures most { result ≤ℤ (pos (MOST_PERSONS + 1) *ℤ GREATEST_COST) }
{
    i128::from(sense.benefit(n, cost)) - price
}

// The cost of a person's own object.
fn own_cost(problem: &Problem, person: Person, object: Object) -> Cost
    ensures { result ≡ listed_or_zero (row_of problem.now person) object }
{
    problem.cost_of(person, object).unwrap_or(0)
}

// The lowest object of a row whose value is over 1 above that of a person's own object.
fn first_broken(
    row: &[(Object, Cost)],
    sense: Sense,
    prices: &[Price],
    own: Object,
    own_worth: Price,
) -> Option<Object>
    requires size { IsSize (length prices.now) }
    requires row { IsRow (length prices.now) row.now }
    requires in_range { All IsPrice prices.now }
    requires number { IsNumber (length prices.now) own }
    requires own { let cost = listed_or_zero row.now own in
        own_worth ≡ (benefit sense (length prices.now) cost -ℤ price_of prices.now own) }
    requires most { own_worth ≤ℤ (pos (MOST_PERSONS + 1) *ℤ GREATEST_COST) }
    ensures { let benefits = benefit_row sense (length prices.now) row.now in
        MatchOption result (HasSlack (pos 1) prices.now benefits own)
        (λ k. IsFirst (BreaksSlack (pos 1) prices.now benefits own) (length prices.now) k) }
{
    let n = prices.len() as u16;
    for i in 0..row.len() {
        let pair = row[i];
        let (object, cost) = pair;
        if worth(sense, n, cost, price_at(prices, object)) > own_worth + 1 {
            return Some(object);
        }
    }
    None
}

// The lowest object of a row that breaks slackness 1 of a person, whose own object has this cost.
fn first_of_row(
    row: &[(Object, Cost)],
    sense: Sense,
    prices: &[Price],
    rounded: &[i64],
    own: Object,
    cost: Cost,
) -> Option<Object>
    requires size { IsSize (length prices.now) }
    requires row { IsRow (length prices.now) row.now }
    requires in_range { All IsPrice prices.now }
    requires rounded { AreRounded rounded.now prices.now }
    requires number { IsNumber (length prices.now) own }
    requires cost { cost ≡ listed_or_zero row.now own }
    ensures { let benefits = benefit_row sense (length prices.now) row.now in
        MatchOption result (HasSlack (pos 1) prices.now benefits own)
        (λ k. IsFirst (BreaksSlack (pos 1) prices.now benefits own) (length prices.now) k) }
{
    if shows_slack(row, sense, prices, rounded, own, cost) {
        return None;
    }
    let own_worth = worth(sense, prices.len() as u16, cost, price_at(prices, own));
    first_broken(row, sense, prices, own, own_worth)
}

// The lowest person that lacks slackness 1, and the lowest object that breaks it.
pub fn first_short(
    problem: &Problem,
    sense: Sense,
    objects: &[Object],
    prices: &[Price],
    rounded: &[i64],
) -> Option<(Person, Object)>
    requires long { length objects.now ≡ length problem.now }
    requires priced { length prices.now ≡ (length problem.now) }
    requires listed { AreListed problem.now objects.now }
    requires in_range { All IsPrice prices.now }
    requires rounded { AreRounded rounded.now prices.now }
    ensures { let m = (length problem.now) in
        MatchOption result
        (AllSlack (pos 1) prices.now (map (benefit_row sense m) problem.now) objects.now)
        (λ p. IsFirst (IsShort sense m problem.now objects.now prices.now)
        (length problem.now) p.0
        × IsFirst (BreaksSlackOf sense m problem.now objects.now prices.now p.0) m p.1) }
{
    // This call shows the prover that this many persons can be numbered.
    let _persons = problem.n();
    for (i, object) in objects.iter().enumerate() {
        let person = Person(i as u16 + 1);
        let cost = own_cost(problem, person, *object);
        let row = problem.row(person);
        if let Some(other) = first_of_row(row, sense, prices, rounded, *object, cost) {
            return Some((person, other));
        }
    }
    None
}
