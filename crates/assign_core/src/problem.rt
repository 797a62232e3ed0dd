// A problem: for each person the listed objects, rising, each with its cost.
ghost use Rattle.std.specs.Prelude.{◌≡◌, ℕ, ℤ, ◌+◌, ◌-◌, ◌*◌, ◌<◌, ◌≤◌, List, [], ◌++◌, Some, IsSome, length, map, replicate, All, IfOk};
ghost use Rattle.assign_core.specs.Numbered.{IsNumber, numbered};
ghost use Rattle.assign_core.specs.Rows.{Listing, IsProblem, IsRising, IsRow, IsCost, IsSize, HasCosts, listed_in, row_of};
ghost use Rattle.assign_core.specs.Dense.{dense_rows, row_from, rows_cut};
ghost use Rattle.assign_core.specs.Assignment.{IsAssignment, total};

use super::assignment::Assignment;
use super::numbers::{Cost, MOST_PERSONS, Object, Person};
use std::alloc::{AllocError, Global};
use std::marker::Model;

/// For each person a list of (object, cost), rising by object. There are 1 to `MOST_PERSONS`
/// persons and as many objects, both numbered from 1.
#[derive(Drop)]
pub struct Problem {
    rows: Vec<Vec<(Object, Cost)>>,
}

impl Model for Problem {
    ghost Value = { List (List (ℕ × ℤ)) };

    ghost view = { λ p. map (λ r. r.items) p.rows.items };

    ghost invariant = { λ p. IsProblem (map (λ r. r.items) p.rows.items) };
}

// The cost of an object in a rising row, by binary search; `None` if it isn't listed.
fn find(row: &[(Object, Cost)], object: Object) -> Option<Cost>
    requires { IsRising row.now }
    ensures { result ≡ listed_in row.now object }
{
    match row.binary_search_by_key(&object.0, |pair| pair.0.0) {
        Ok(place) => Some(row[place].1),
        Err(_) => None,
    }
}

// The sum of the costs of the objects, one for each row.
fn sum_of(rows: &[Vec<(Object, Cost)>], objects: &[Object]) -> Cost
    requires few { length rows.now ≤ MOST_PERSONS }
    requires same { length rows.now ≡ length objects.now }
    requires rising { All IsRising (map (λ r. r.items) rows.now) }
    requires costs { All HasCosts (map (λ r. r.items) rows.now) }
    ensures { result ≡ total (map (λ r. r.items) rows.now) objects.now }
{
    let mut sum: Cost = 0;
    for (i, row) in rows.iter().enumerate() {
        let cost = find(row.as_slice(), objects[i]).unwrap_or(0);
        sum += cost;
    }
    sum
}

// A person's row: the costs to objects 1, 2, ..
fn row_of_costs(alloc: Global, costs: &[Cost]) -> Result<Vec<(Object, Cost)>, AllocError>
    requires { length costs.now ≤ MOST_PERSONS }
    ensures { IfOk result (λ row. row.items ≡ row_from 1 costs.now) }
{
    let mut row = Vec::with_capacity(alloc, costs.len())?;
    for (i, cost) in costs.iter().enumerate() {
        row.push((Object(i as u16 + 1), *cost))?;
    }
    Ok(row)
}

// The rows of `n` persons among `m` objects: the first `m` costs are those of person 1, the next
// `m` those of person 2, ..
fn cut_rows(
    alloc: Global,
    n: u16,
    m: u16,
    costs: &[Cost],
) -> Result<Vec<Vec<(Object, Cost)>>, AllocError>
    requires few { m ≤ MOST_PERSONS }
    requires count { length costs.now ≡ n * m }
    ensures { IfOk result (λ rows. map (λ r. r.items) rows.items ≡ rows_cut m n costs.now) }
{
    let mut rows = Vec::with_capacity(alloc, n as usize)?;
    let mut left = costs;
    for _ in 0..n {
        let (front, rest) = left.split_at(m as usize);
        rows.push(row_of_costs(alloc, front)?)?;
        left = rest;
    }
    Ok(rows)
}

impl Problem {
    /// The problem of these rows.
    pub fn from_rows(rows: Vec<Vec<(Object, Cost)>>) -> Problem
        requires { IsProblem (map (λ r. r.items) rows.items) }
        ensures { result ≡ map (λ r. r.items) rows.items }
    {
        Problem { rows }
    }

    /// The problem of `n` persons and `n` objects in which each person lists each object. The first
    /// `n` costs are those of person 1 to objects 1, 2, .., the next `n` those of person 2, and so
    /// on.
    ///
    /// It reads each cost once, and takes 16 bytes for it.
    ///
    /// # Errors
    /// `AllocError` if memory is refused.
    ///
    /// # Example
    /// The body of `calling::cost_of_dense`:
    /// ```
    /// let problem = Problem::dense(alloc, n, costs)?;
    /// least_cost(alloc, problem)
    /// ```
    pub fn dense(alloc: Global, n: u16, costs: &[Cost]) -> Result<Problem, AllocError>
        requires size { IsSize n }
        requires count { length costs.now ≡ n * n }
        requires costs { All IsCost costs.now }
        ensures { IfOk result (λ problem. problem ≡ dense_rows n costs.now) }
    {
        Ok(Problem {
            rows: cut_rows(alloc, n, n, costs)?,
        })
    }

    /// The number of persons, which is also the number of objects.
    pub fn n(&self) -> u16
        ensures count { result ≡ length self.now }
        ensures problem { IsProblem self.now }
    {
        self.rows.len() as u16
    }

    /// The objects that a person lists, rising, each with its cost.
    pub fn row(&self, person: Person) -> &[(Object, Cost)]
        requires { IsNumber (length self.now) person }
        ensures row { result.now ≡ row_of self.now person }
        ensures rule { IsRow (length self.now) result.now }
    {
        self.rows[person.place()].as_slice()
    }

    /// The cost of a pair; `None` if the pair isn't listed, or the person isn't in the problem.
    ///
    /// It reads at most 14 pairs of the person's row, also where all objects are listed.
    pub fn cost_of(&self, person: Person, object: Object) -> Option<Cost>
        ensures { result ≡ listed_in (row_of self.now person) object }
    {
        let place = person.0.checked_sub(1)?;
        let row = self.rows.get(place as usize)?;
        find(row.as_slice(), object)
    }

    /// The sum of the costs of an assignment's pairs.
    ///
    /// It reads at most 14 pairs of each row, as `cost_of` does.
    pub fn total(&self, assignment: &Assignment) -> Cost
        requires { IsAssignment self.now assignment.now }
        ensures { result ≡ total self.now assignment.now }
    {
        sum_of(self.rows.as_slice(), assignment.objects())
    }
}
