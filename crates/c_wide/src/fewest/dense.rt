// Dense problems. A plan that is best at combined costs is best for the costs alone, and so consists of tight pairs at
// any exact prices: after a search for the costs alone only these are looked at.
ghost use Rattle.std.specs.Prelude.{◌≡◌, ◌↔◌, ℕ, List, true, nat_eq, IsTrue, length, map, All, IfOk, IfSome};
ghost use Rattle.std.specs.List.{IsDistinct};
ghost use Rattle.assign_core.specs.Numbered.{IsNumber};
ghost use Rattle.cost_lists.specs.Exact.{AreFree, IsPriceInLimits};
ghost use Rattle.cost_lists.specs.ListedCosts.{IsCount};
ghost use Rattle.c_calls.specs.declared.lists.form.Form.TheVariants.{Dense};
ghost use Rattle.c_calls.specs.lists.Faults.{IsWhole};
ghost use Rattle.c_calls.specs.lists.Input.{lists_in};
ghost use Rattle.c_calls.specs.lists.Shapes.{IsShape};
ghost use Rattle.wide_checker.specs.WideNumbers.{IsInPrices, wide_value};
ghost use Rattle.c_wide.specs.fewest.Answers.{IsFewestAnswer};
ghost use Rattle.c_wide.specs.fewest.Tight.{AreTight};

use super::answer::{FewestAnswer, plan_of};
use super::first::{Fewest, First, fewest_over, first_plan};
use super::priced::{Priced, are_least, own_levels};
use super::tight::{Tight, tight_pairs};
use assign_core::Sense;
use c_calls::Shape;
use c_calls::lists::{Form, Input, lists_of};
use cost_lists::{GREATEST_PRICE, Object, Person, Price, are_within};
use exact_checker::Verdict;
use std::alloc::{AllocError, Global};
use wide_checker::{Wide, WideLists, WidePairs, check};

// So many times as many pairs as there are may be read for fewer changes.
const MOST_READ: usize = 4;

fn are_prices(prices: &[Price]) -> bool
    ensures { IsTrue result ↔ All IsPriceInLimits prices.now }
{
    prices
        .iter()
        .all(|price| 0 <= *price && *price <= GREATEST_PRICE)
}

fn wide_prices(alloc: Global, prices: &[i128]) -> Result<Vec<Wide>, AllocError>
    ensures { IfOk result (λ wide. map wide_value wide.items ≡ prices.now) }
{
    let mut wide = Vec::with_capacity(alloc, prices.len())?;
    for place in 0..prices.len() {
        wide.push(Wide::of(prices[place]))?;
    }
    Ok(wide)
}

fn numbers_to(alloc: Global, n: Person) -> Result<Vec<Person>, AllocError> {
    let mut numbers = Vec::with_capacity(alloc, n as usize)?;
    for number in 0..n {
        numbers.push(number + 1)?;
    }
    Ok(numbers)
}

// Whether the checker accepts a plan and its prices for the own pairs alone, at costs of 0: no object is given twice,
// prices are in range, and each object is owned or its price is 0.
fn are_apart(
    alloc: Global,
    n: Person,
    m: Object,
    objects: &[Object],
    prices: &[Wide],
) -> Result<bool, AllocError>
    requires persons { IsCount n }
    requires objects { IsCount m }
    requires long { length objects.now ≡ n }
    requires within { All (IsNumber m) objects.now }
    ensures apart { IfOk result (λ yes. yes ≡ true → IsDistinct nat_eq objects.now) }
    ensures range { IfOk result (λ yes. yes ≡ true → All IsInPrices (map wide_value prices.now)) }
    ensures free { IfOk result (λ yes. yes ≡ true
        → AreFree m (map wide_value prices.now) objects.now) }
{
    let persons = numbers_to(alloc, n)?;
    if persons.len() != objects.len() || !are_within(n, persons.as_slice()) {
        return Ok(false);
    }
    let costs = vec![in alloc; Wide::of(0); objects.len()]?;
    let pairs = WidePairs {
        persons: persons.as_slice(),
        objects,
        costs: costs.as_slice(),
    };
    let lists = WideLists::sparse(Sense::Min, n, m, pairs);
    Ok(check(alloc, &lists, objects, prices)? == Verdict::Yes)
}

// A plan that changes fewest persons as an answer, if its prices show at combined costs that it is one.
fn accept(
    alloc: Global,
    shape: Shape,
    input: &Input<'_>,
    kept: &[Object],
    first: &[Price],
    values: &[Price],
    tight: &[Tight],
    found: Fewest,
) -> Result<Option<FewestAnswer>, AllocError>
    requires shape { IsShape input.now shape }
    requires whole { IsWhole input.now }
    requires form { input.now.form ≡ Dense }
    requires kept { length kept.now ≡ input.now.n }
    requires first { length first.now ≡ input.now.m }
    requires values { length values.now ≡ input.now.n }
    requires tight { AreTight shape.sense input.now.costs first.now values.now input.now.n tight.now }
    ensures { IfOk result (λ answer. IfSome answer
        (IsFewestAnswer (lists_in shape.sense input.now) kept.now)) }
{
    let Fewest {
        objects,
        prices,
        by,
    } = found;
    if objects.len() != input.n
        || prices.len() != input.m
        || !are_within(shape.m, objects.as_slice())
    {
        return Ok(None);
    }
    let wide = wide_prices(alloc, prices.as_slice())?;
    if !are_apart(alloc, shape.n, shape.m, objects.as_slice(), wide.as_slice())? {
        return Ok(None);
    }
    let priced = Priced {
        sense: shape.sense,
        n: shape.n,
        m: shape.m,
        costs: input.costs,
        kept,
        prices: prices.as_slice(),
    };
    let levels = own_levels(alloc, priced, objects.as_slice())?;
    if !are_least(priced, by, first, values, tight, levels.as_slice()) {
        return Ok(None);
    }
    let lists = lists_of(shape, input);
    Ok(Some(plan_of(alloc, &lists, kept, objects, wide)?))
}

/// An answer to a dense problem, if searches find one; nothing for any other.
pub fn dense_answer(
    alloc: Global,
    shape: Shape,
    input: &Input<'_>,
    kept: &[Object],
) -> Result<Option<FewestAnswer>, AllocError>
    requires shape { IsShape input.now shape }
    requires whole { IsWhole input.now }
    requires kept { length kept.now ≡ input.now.n }
    ensures { IfOk result (λ answer. IfSome answer
        (IsFewestAnswer (lists_in shape.sense input.now) kept.now)) }
{
    let Form::Dense = input.form else {
        return Ok(None);
    };
    let Some(plan) = first_plan(alloc, shape.sense, input.n, input.m, input.costs)? else {
        return Ok(None);
    };
    let First {
        objects,
        prices,
        values,
    } = plan;
    let (first, values) = (prices.as_slice(), values.as_slice());
    if values.len() != input.n || first.len() != input.m || !are_prices(first) {
        return Ok(None);
    }
    let tight = tight_pairs(alloc, shape.sense, input.costs, values, first)?;
    let most = input.costs.len().saturating_mul(MOST_READ);
    let Some(found) = fewest_over(alloc, objects, first, kept, tight.as_slice(), most)? else {
        return Ok(None);
    };
    accept(
        alloc,
        shape,
        input,
        kept,
        first,
        values,
        tight.as_slice(),
        found,
    )
}
