// Whether persons list their objects, and have slackness 1 with these.
ghost use Rattle.std.specs.Prelude.{◌≡◌, ◌↔◌, ℕ, pos, ◌+◌, ◌<◌, ◌*ℤ◌, ◌≤ℤ◌, ◌-ℤ◌, length, All, IfOk, IsTrue};
ghost use Rattle.assign_core.specs.Numbered.{IsNumber};
ghost use Rattle.assign_core.specs.Rows.{IsCost, IsRow, IsSize, listed_or_zero};
ghost use Rattle.assign_core.specs.Benefits.{benefit, benefit_row};
ghost use Rattle.assign_core.specs.Prices.{IsPrice, price_of};
ghost use Rattle.assign_core.specs.Slackness.{HasSlack};
ghost use Rattle.parallel_checker.specs.Persons.{IsSlackPerson};

use assign_core::{
    Cost, GREATEST_COST, MOST_PERSONS, Object, Person, Price, Prices, Problem, Sense,
};
use rayon::prelude::*;
use std::alloc::{AllocError, Global};
use std::thread::Threads;

// The value of an object: the benefit of its cost among `n` persons, less its price.
fn value_of(sense: Sense, n: u16, cost: Cost, price: Price) -> Price
    requires size { IsSize n }
    requires cost { IsCost cost }
    requires price { IsPrice price }
    ensures value { result ≡ (benefit sense n cost -ℤ price) }
    ensures most { result ≤ℤ (pos (MOST_PERSONS + 1) *ℤ GREATEST_COST) }
{
    i128::from(sense.benefit(n, cost)) - price
}

// Whether no object of a row has a value over 1 above that of a person's own object.
fn has_slack(
    row: &[(Object, Cost)],
    sense: Sense,
    prices: &Prices,
    own: Object,
    own_value: Price,
) -> bool
    requires size { IsSize (length prices.now) }
    requires row { IsRow (length prices.now) row.now }
    requires own { let cost = listed_or_zero row.now own in
        own_value ≡ (benefit sense (length prices.now) cost -ℤ price_of prices.now own) }
    requires most { own_value ≤ℤ (pos (MOST_PERSONS + 1) *ℤ GREATEST_COST) }
    ensures { let benefits = benefit_row sense (length prices.now) row.now in
        IsTrue result ↔ HasSlack (pos 1) prices.now benefits own }
{
    let n = prices.as_slice().len() as u16;
    for i in 0..row.len() {
        let pair = row[i];
        let (object, cost) = pair;
        if value_of(sense, n, cost, prices.price(object)) > own_value + 1 {
            return false;
        }
    }
    true
}

// Whether the person at a place lists its object, and has slackness 1 with it.
fn is_slack(problem: &Problem, sense: Sense, objects: &[Object], prices: &Prices, i: usize) -> bool
    requires place { i < length problem.now }
    requires long { length objects.now ≡ length problem.now }
    requires priced { length prices.now ≡ length problem.now }
    ensures { IsTrue result ↔ IsSlackPerson sense problem.now objects.now prices.now (i + 1) }
{
    let n = problem.n();
    let person = Person(i as u16 + 1);
    let own = objects[i];
    let Some(cost) = problem.cost_of(person, own) else {
        return false;
    };
    let own_value = value_of(sense, n, cost, prices.price(own));
    has_slack(problem.row(person), sense, prices, own, own_value)
}

// Whether all marks are set.
fn all_set(marks: &[bool]) -> bool
    ensures { IsTrue result ↔ All IsTrue marks.now }
{
    marks.iter().all(|mark| *mark)
}

// Whether all persons list their objects, and have slackness 1 with these: a thread for each
// processor asks some of them.
pub fn all_slack(
    rt: &(impl Threads + Sync),
    alloc: Global,
    problem: &Problem,
    sense: Sense,
    objects: &[Object],
    prices: &Prices,
) -> Result<bool, AllocError>
    requires long { length objects.now ≡ length problem.now }
    requires priced { length prices.now ≡ length problem.now }
    ensures { IfOk result (λ yes. IsTrue yes ↔ ((i : ℕ) → IsNumber (length problem.now) i
        → IsSlackPerson sense problem.now objects.now prices.now i)) }
{
    let mut marks = vec![in alloc; false; problem.n() as usize]?;
    par_for_each_mut(
        rt,
        marks.as_mut_slice(),
        |i: usize, mark: &mut bool|
            requires { (i < length problem.now)
                × (length objects.now ≡ length problem.now)
                × (length prices.now ≡ length problem.now) }
            ensures { IsTrue mark.new ↔ IsSlackPerson sense problem.entry.now objects.entry.now
                prices.entry.now (i + 1) }
        { *mark = is_slack(problem, sense, objects, prices, i) },
    );
    Ok(all_set(marks.as_slice()))
}
