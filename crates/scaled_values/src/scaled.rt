// A problem with its benefits.
ghost use Rattle.std.specs.Prelude.{◌≡◌, ℕ, pos, ◌+ℤ◌, ◌≤ℤ◌, ◌<◌, ◌≤◌, length, map, All, IfOk};
ghost use Rattle.assign_core.specs.Numbered.{IsNumber};
ghost use Rattle.assign_core.specs.Rows.{IsProblem, row_of};
ghost use Rattle.assign_core.specs.Benefits.{benefit_rows, IsBenefit};
ghost use Rattle.assign_core.specs.Prices.{IsPrice};
ghost use Rattle.scaled_values.specs.Scaled.{ScaledProblem, benefits_of, values_in, least_benefit, greatest_benefit, spread};
ghost use Rattle.scaled_values.specs.Scaled.{first_eps, IsEps, floor_of, top_of, IsBenefitRow, IsBetween};
ghost use Rattle.scaled_values.specs.Limits.{most_spread, most_step};
ghost use Rattle.scaled_values.specs.Held.{entries_of, HasForm};
ghost use Rattle.scaled_values.specs.inside.Stored.{stored_entries, HasStoredForm};
ghost use Rattle.scaled_values.specs.inside.Stored.{IsStored};
ghost use Rattle.scaled_values.specs.inside.Range.{no_range, range_with};

use super::phases::{fifth, steps};
use super::range::Range;
use super::row::{Row, StoredRow};
use assign_core::{Benefit, Person, Price, Problem, Sense};
use std::alloc::{AllocError, Global};
use std::marker::Model;

/// A problem with the benefits of its pairs: each cost times `n + 1`, negated under `Min`.
#[derive(Drop)]
pub struct Scaled {
    problem: Problem,
    sense: Sense,
    rows: Vec<StoredRow>,
    least: Benefit,
    greatest: Benefit,
}

impl Model for Scaled {
    ghost Value = { ScaledProblem };

    ghost view = { λ s. record { problem = s.problem; sense = s.sense } };

    ghost invariant = { λ s. IsStored (record { problem = s.problem; sense = s.sense }) s.rows.items s.least s.greatest };
}

// The benefits of all rows, and the range of all benefits.
fn stored_rows(
    alloc: Global,
    problem: &Problem,
    sense: Sense,
) -> Result<(Vec<StoredRow>, Range), AllocError>
    ensures entries { IfOk result (λ made.
        map stored_entries made.0.items ≡ benefit_rows sense problem.now) }
    ensures form { IfOk result (λ made. All (HasStoredForm (length problem.now)) made.0.items) }
    ensures range { IfOk result (λ made.
        made.1 ≡ range_with no_range (values_in (benefit_rows sense problem.now))) }
{
    let n = problem.n();
    let mut rows = Vec::with_capacity(alloc, n as usize)?;
    let mut range = Range::none();
    for i in 0..n {
        let (row, wider) = StoredRow::new(alloc, sense, n, problem.row(Person(i + 1)), range)?;
        range = wider;
        rows.push_reserved(row);
    }
    Ok((rows, range))
}

/// The problem with its benefits under the sense, in time linear in the listed pairs and in `n`. It
/// takes 8 bytes a pair for a person that lists all objects, and 16 for any other.
///
/// # Errors
/// `AllocError` if memory is refused.
///
/// # Example
/// From `calling::solve_alone`:
/// ```
/// let scaled = Arc::new(alloc, scale(alloc, problem, sense)?)?;
/// ```
pub fn scale(alloc: Global, problem: Problem, sense: Sense) -> Result<Scaled, AllocError>
    ensures problem { IfOk result (λ s. s.problem ≡ problem) }
    ensures sense { IfOk result (λ s. s.sense ≡ sense) }
{
    let (rows, found) = stored_rows(alloc, &problem, sense)?;
    Ok(with_rows(problem, sense, rows, found))
}

// The problem with the benefits of all rows, and the range of all benefits.
pub(super) fn with_rows(
    problem: Problem,
    sense: Sense,
    rows: Vec<StoredRow>,
    found: Range,
) -> Scaled
    requires entries { map stored_entries rows.items ≡ benefit_rows sense problem }
    requires form { All (HasStoredForm (length problem)) rows.items }
    requires range { found ≡ range_with no_range (values_in (benefit_rows sense problem)) }
    ensures problem { result.problem ≡ problem }
    ensures sense { result.sense ≡ sense }
{
    // This call shows the prover that the rows are those of a problem.
    let _persons = problem.n();
    let range = found.or_zeros();
    Scaled {
        problem,
        sense,
        rows,
        least: range.least,
        greatest: range.greatest,
    }
}

impl Scaled {
    /// The problem.
    pub fn problem(&self) -> &Problem
        ensures problem { result.now ≡ self.now.problem }
        ensures rule { IsProblem self.now.problem }
    {
        &self.problem
    }

    /// Whether to minimise or to maximise.
    pub fn sense(&self) -> Sense
        ensures { result ≡ self.now.sense }
    {
        self.sense
    }

    /// The number of persons, which is also the number of objects.
    pub fn n(&self) -> u16
        ensures count { result ≡ length self.now.problem }
        ensures rule { IsProblem self.now.problem }
    {
        self.problem.n()
    }

    /// The benefits of a person's pairs.
    pub fn row(&self, person: Person) -> Row<'_>
        requires { IsNumber (length self.now.problem) person }
        ensures entries { entries_of result ≡ row_of (benefits_of self.now) person }
        ensures form { HasForm (length self.now.problem) result }
        ensures rule { IsBenefitRow (length self.now.problem) (row_of (benefits_of self.now) person) }
        ensures bounds { IsBetween (least_benefit self.now) (greatest_benefit self.now)
            (row_of (benefits_of self.now) person) }
        ensures problem { IsProblem self.now.problem }
    {
        self.rows[person.place()].as_row()
    }

    /// The least benefit of a listed pair, or 0 if nothing is listed.
    pub fn least_benefit(&self) -> Benefit
        ensures value { result ≡ least_benefit self.now }
        ensures range { IsBenefit result }
    {
        self.least
    }

    /// The greatest benefit of a listed pair, or 0 if nothing is listed.
    pub fn greatest_benefit(&self) -> Benefit
        ensures value { result ≡ greatest_benefit self.now }
        ensures range { IsBenefit result }
    {
        self.greatest
    }

    /// The greatest benefit less the least.
    pub fn spread(&self) -> Benefit
        ensures value { result ≡ spread self.now }
        ensures least { pos 0 ≤ℤ result }
        ensures greatest { result ≤ℤ most_spread }
    {
        self.greatest - self.least
    }

    /// The slackness of the first phase: a fifth of the spread, but at least 1.
    pub fn first_eps(&self) -> i64
        ensures value { result ≡ first_eps self.now }
        ensures listed { IsEps self.now result }
    {
        fifth(self.spread())
    }

    // The spread plus a slackness: the most by which an object's price can exceed that of another
    // that its owner lists, if the owner has this slackness.
    fn step(&self, eps: i64) -> i64
        requires { IsEps self.now eps }
        ensures value { result ≡ spread self.now +ℤ eps }
        ensures least { pos 0 ≤ℤ result }
        ensures greatest { result ≤ℤ most_step }
    {
        self.spread() + eps
    }

    /// The floor of a phase with slackness `eps` that starts with greatest price `p0`, in the unit
    /// of benefits: the least benefit less `p0`, and less `n - 1` times the sum of the spread and
    /// `eps`.
    ///
    /// In an auction that keeps slackness `eps`, a person whose best value is below it has no way
    /// to an unowned object (Bertsekas, Network Optimization, 1998, section 7.1.5). This call
    /// returns the number only; the auction proves what it means.
    pub fn floor(&self, p0: Price, eps: i64) -> Price
        requires price { IsPrice p0 }
        requires eps { IsEps self.now eps }
        ensures { result ≡ floor_of self.now p0 eps }
    {
        Price::from(self.least_benefit()) - p0 - steps(self.n() - 1, self.step(eps))
    }

    /// The top of this phase: `p0` plus `n` times the sum of the spread and `eps`.
    ///
    /// This call returns the number only. That no bid of the phase goes above it is a law of bids.
    pub fn top(&self, p0: Price, eps: i64) -> Price
        requires price { IsPrice p0 }
        requires eps { IsEps self.now eps }
        ensures { result ≡ top_of self.now p0 eps }
    {
        p0 + steps(self.n(), self.step(eps))
    }
}
