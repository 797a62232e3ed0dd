// Problems from pairs, and first prices.
ghost use Rattle.std.specs.Prelude.{◌≡◌, ◌≤ℤ◌, length, IfOk};
ghost use Rattle.std.specs.Arc.{arc_value};
ghost use Rattle.assign_core.specs.Numbered.{IsNumber};
ghost use Rattle.assign_core.specs.Prices.{IsPrice};
ghost use Rattle.assign_core.specs.Rows.{IsCost, IsSize};
ghost use Rattle.assign_core.specs.Sparse.{IsTriple};
ghost use Rattle.scaled_values.specs.Scaled.{greatest_of};

use assign_core::{
    Cost, GREATEST_COST, GREATEST_FIRST_PRICE, MOST_PERSONS, Numbered, Object, Person, Price,
    Prices, Problem, Sense,
};
use scaled_values::{Scaled, scale};
use std::alloc::{AllocError, Global};
use std::sync::Arc;

/// A person and an object, with the pair's cost.
pub type Pair = (u16, u16, Cost);

/// A number of persons, brought into range.
pub fn size(n: u16) -> u16
    ensures { IsSize result }
{
    n.max(1).min(MOST_PERSONS)
}

/// A number brought into the range from 1 to n.
pub fn number(n: u16, i: u16) -> u16
    requires { IsSize n }
    ensures { IsNumber n result }
{
    i.max(1).min(n)
}

/// A cost brought into range.
pub fn cost_in_range(cost: Cost) -> Cost
    ensures { IsCost result }
{
    cost.max(-GREATEST_COST).min(GREATEST_COST)
}

/// A person and an object of n with a cost.
pub fn triple(n: u16, pair: Pair) -> (Person, Object, Cost)
    requires { IsSize n }
    ensures { IsTriple n result }
{
    (
        Person(number(n, pair.0)),
        Object(number(n, pair.1)),
        cost_in_range(pair.2),
    )
}

/// The problem that lists these pairs.
pub fn problem_of(alloc: Global, n: u16, pairs: &[Pair]) -> Result<Problem, AllocError>
    requires { IsSize n }
    ensures { IfOk result (λ problem. length problem ≡ n) }
{
    let mut triples = Vec::with_capacity(alloc, pairs.len())?;
    for pair in pairs {
        triples.push(triple(n, *pair))?;
    }
    Problem::sparse(alloc, n, triples.as_slice())
}

/// The same problem with its benefits.
pub fn scaled_of(
    alloc: Global,
    n: u16,
    pairs: &[Pair],
    sense: Sense,
) -> Result<Arc<Scaled>, AllocError>
    requires { IsSize n }
    ensures { IfOk result (λ scaled. length (arc_value scaled).problem ≡ n) }
{
    let problem = problem_of(alloc, n, pairs)?;
    Ok(Arc::new(alloc, scale(alloc, problem, sense)?)?)
}

/// A first price brought into range.
pub fn first_price(price: Price) -> Price
    ensures least { IsPrice result }
    ensures low { result ≤ℤ GREATEST_FIRST_PRICE }
{
    price.max(0).min(GREATEST_FIRST_PRICE)
}

/// First prices of n objects: those given, and 0 for the rest.
pub fn first_prices(alloc: Global, n: u16, given: &[Price]) -> Result<Prices, AllocError>
    requires { IsSize n }
    ensures long { IfOk result (λ prices. length prices ≡ n) }
    ensures low { IfOk result (λ prices. greatest_of prices ≤ℤ GREATEST_FIRST_PRICE) }
{
    let mut values = Vec::with_capacity(alloc, n as usize)?;
    for i in 0..n {
        values.push(first_price(given.get(i as usize).copied().unwrap_or(0)))?;
    }
    Prices::new(alloc, values)
}

/// The numbers of persons or of objects.
pub fn numbers_of<T: Numbered>(alloc: Global, those: &[T]) -> Result<Vec<u16>, AllocError> {
    let mut numbers = Vec::new(alloc);
    for it in those {
        numbers.push((*it).number())?;
    }
    Ok(numbers)
}
