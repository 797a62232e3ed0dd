// Proved answers to given problems.
ghost use Rattle.std.specs.Prelude.{◌≡◌, IfErr, IfOk, IfSome, MatchOption, length};
ghost use Rattle.double_checker.specs.Verdicts.{AreCosts};
ghost use Rattle.c_calls.specs.doubles.Answers.{IsAccepted, IsFound};
ghost use Rattle.c_calls.specs.doubles.Faults.{HasFault, IsShape};

use super::input::Input;
use super::judge::judge;
use super::marks::marks;
use crate::fault::Fault;
use crate::size::Shape;
use cost_lists::Object;
use double_checker::{HallVerdict, Verdict, check, check_hall};
use double_costs::first_fault;
use double_search::{Ended, Problem, search, search_from};
use list_solver::HallSet;
use std::alloc::{AllocError, Global};

/// A plan with its prices.
#[derive(Drop)]
pub struct Plan {
    pub objects: Vec<Object>,
    pub prices: Vec<f64>,
    pub by_margin: bool,
}

/// What a search found.
#[derive(Drop)]
pub enum Answer {
    /// An optimal plan.
    Best(Plan),
    /// A Hall set.
    Hall(HallSet),
    /// Nothing that the checkers accept.
    Undecided,
}

// What the checker accepts of a plan.
fn judge_plan(
    alloc: Global,
    shape: Shape,
    input: &Input<'_>,
    plan: Plan,
    margin: f64,
) -> Result<Answer, AllocError>
    requires { IsShape input.now shape }
    ensures { IfOk result (λ answer. IsAccepted input.now answer) }
{
    let mut owned = marks(alloc, shape.m)?;
    let verdict = check(
        shape.sense,
        shape.n,
        shape.m,
        input.costs,
        plan.objects.as_slice(),
        plan.prices.as_slice(),
        margin,
        owned.as_mut_slice(),
    );
    match verdict {
        Verdict::Best { by_margin } => Ok(Answer::Best(Plan { by_margin, ..plan })),
        _ => Ok(Answer::Undecided),
    }
}

// What the checker accepts of a Hall set.
fn judge_hall(
    alloc: Global,
    shape: Shape,
    input: &Input<'_>,
    set: HallSet,
) -> Result<Answer, AllocError>
    requires { IsShape input.now shape }
    ensures { IfOk result (λ answer. IsAccepted input.now answer) }
{
    let mut named = marks(alloc, shape.m)?;
    let (persons, objects) = (set.persons.as_slice(), set.objects.as_slice());
    let named = named.as_mut_slice();
    let (sense, n, m) = (shape.sense, shape.n, shape.m);
    match check_hall(sense, n, m, input.costs, persons, objects, named) {
        HallVerdict::Hall => Ok(Answer::Hall(set)),
        _ => Ok(Answer::Undecided),
    }
}

/// Where a search begins.
#[derive(Clone, Copy)]
pub enum Start<'a> {
    Nothing,
    /// With an earlier plan and its prices.
    Plan(&'a [Object], &'a [f64]),
}

// A search from there.
fn search_from_start(
    alloc: Global,
    problem: Problem<'_>,
    start: Start<'_>,
    plan: &mut Plan,
) -> Result<Ended, AllocError> {
    match start {
        Start::Nothing => {
            plan.objects.resize(problem.persons, 0)?;
            plan.prices.resize(problem.objects, 0.0)?;
            search(
                alloc,
                problem,
                plan.objects.as_mut_slice(),
                plan.prices.as_mut_slice(),
            )
        }
        Start::Plan(objects, prices) => {
            plan.objects.extend_from_slice(objects)?;
            plan.prices.extend_from_slice(prices)?;
            search_from(
                alloc,
                problem,
                plan.objects.as_mut_slice(),
                plan.prices.as_mut_slice(),
            )
        }
    }
}

// A search, and what the checkers accept of its end.
fn search_on(
    alloc: Global,
    shape: Shape,
    input: &Input<'_>,
    start: Start<'_>,
) -> Result<Answer, AllocError>
    requires { IsShape input.now shape }
    ensures { IfOk result (λ answer. IsAccepted input.now answer) }
{
    let problem = Problem {
        sense: shape.sense,
        persons: shape.n as usize,
        objects: shape.m as usize,
        costs: input.costs,
    };
    let mut plan = Plan {
        objects: Vec::new(alloc),
        prices: Vec::new(alloc),
        by_margin: false,
    };
    match search_from_start(alloc, problem, start, &mut plan)? {
        Ended::Plan(margin) => judge_plan(alloc, shape, input, plan, margin),
        Ended::Hall(set) => {
            let double_search::HallSet { persons, objects } = set;
            judge_hall(alloc, shape, input, HallSet { persons, objects })
        }
        Ended::Lost => Ok(Answer::Undecided),
    }
}

// Where nothing is accepted: the first double that is no cost, if there is one.
fn undecided(shape: Shape, input: &Input<'_>) -> Result<Answer, Fault>
    requires { IsShape input.now shape }
    ensures found { IfOk result (IsFound input.now) }
    ensures fault { IfErr result (HasFault input.now) }
{
    match first_fault(shape.sense, input.costs) {
        Some(place) => Err(Fault::Cost(place)),
        None => Ok(Answer::Undecided),
    }
}

/// Where memory was refused: the first double that is no cost, if there is one.
pub fn refused(shape: Shape, input: &Input<'_>) -> Fault
    requires { IsShape input.now shape }
    ensures { HasFault input.now result }
{
    match first_fault(shape.sense, input.costs) {
        Some(place) => Fault::Cost(place),
        None => Fault::Memory,
    }
}

// Where nothing is accepted that a search from there found: a search from nothing.
fn search_on_both(
    alloc: Global,
    shape: Shape,
    input: &Input<'_>,
    start: Start<'_>,
) -> Result<Answer, AllocError>
    requires { IsShape input.now shape }
    ensures { IfOk result (λ answer. IsAccepted input.now answer) }
{
    let answer = search_on(alloc, shape, input, start)?;
    match (start, answer) {
        (Start::Plan(_, _), Answer::Undecided) => search_on(alloc, shape, input, Start::Nothing),
        (_, answer) => Ok(answer),
    }
}

/// Searches from there, and from nothing where that finds no answer. An error is the first fault of
/// what is given.
pub fn answer_on(alloc: Global, input: &Input<'_>, start: Start<'_>) -> Result<Answer, Fault>
    ensures found { IfOk result (IsFound input.now) }
    ensures fault { IfErr result (HasFault input.now) }
{
    let shape = judge(input)?;
    match search_on_both(alloc, shape, input, start) {
        Ok(Answer::Undecided) => undecided(shape, input),
        Ok(answer) => Ok(answer),
        Err(_) => Err(refused(shape, input)),
    }
}
