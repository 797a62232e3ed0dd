// Problems, made of lists that a caller has.
ghost use Rattle.std.specs.Prelude.{◌↔◌, All, IfOk, IsTrue, MatchOption};
ghost use Rattle.assign_core.specs.Numbered.{IsNumber};
ghost use Rattle.assign_core.specs.Rows.{IsCost, IsSize};
ghost use Rattle.assign_core.specs.Sparse.{IsSparse, IsTriple};

use assign_core::{Cost, GREATEST_COST, MOST_PERSONS, Object, Person, Problem};
use std::alloc::{AllocError, Global};

// Whether there may be so many persons.
fn is_size(n: u16) -> bool
    ensures { IsTrue result ↔ IsSize n }
{
    0 < n && n <= MOST_PERSONS
}

// Whether a number is that of one of `n` persons or objects.
fn is_number(n: u16, number: u16) -> bool
    ensures { IsTrue result ↔ IsNumber n number }
{
    0 < number && number <= n
}

// Whether a cost is in range.
fn is_cost(cost: Cost) -> bool
    ensures { IsTrue result ↔ IsCost cost }
{
    -GREATEST_COST <= cost && cost <= GREATEST_COST
}

// Whether a pair is one of `n` persons and `n` objects, with a cost.
fn is_triple(n: u16, triple: (Person, Object, Cost)) -> bool
    ensures { IsTrue result ↔ IsTriple n triple }
{
    let (person, object, cost) = triple;
    is_number(n, person.0) && is_number(n, object.0) && is_cost(cost)
}

// Whether all pairs are.
fn are_triples(n: u16, triples: &[(Person, Object, Cost)]) -> bool
    ensures { IsTrue result ↔ All (IsTriple n) triples.now }
{
    triples.iter().all(|triple| is_triple(n, *triple))
}

// Whether the conditions of `Problem::sparse` hold.
fn are_in_range(n: u16, triples: &[(Person, Object, Cost)]) -> bool
    ensures { IsTrue result ↔ (IsSize n × All (IsTriple n) triples.now) }
{
    is_size(n) && are_triples(n, triples)
}

/// The problem of pairs of any origin. `None` exactly where `n` or a pair is out of range.
///
/// # Errors
/// `AllocError` if memory is refused.
pub fn problem_of_pairs(
    alloc: Global,
    n: u16,
    triples: &[(Person, Object, Cost)],
) -> Result<Option<Problem>, AllocError>
    ensures { IfOk result (λ made. MatchOption made
        (¬ (IsSize n × All (IsTriple n) triples.now)) (IsSparse n triples.now)) }
{
    if !are_in_range(n, triples) {
        return Ok(None);
    }
    Ok(Some(Problem::sparse(alloc, n, triples)?))
}
