// Proved answers that change fewest persons.
ghost use Rattle.std.specs.Prelude.{◌≡◌, ℕ, List, length, map, All, IfOk};
ghost use Rattle.assign_core.specs.Assignment.{IsBest};
ghost use Rattle.c_calls.specs.lists.Faults.{IsWhole};
ghost use Rattle.c_calls.specs.lists.Input.{lists_in};
ghost use Rattle.c_calls.specs.lists.Shapes.{IsShape};
ghost use Rattle.wide_checker.specs.WideNumbers.{IsWideCost, wide_value};
ghost use Rattle.wide_checker.specs.WideOptimum.{IsWideOptimum};
ghost use Rattle.c_wide.specs.Answers.{IsWideAnswer};
ghost use Rattle.c_wide.specs.fewest.Answers.{IsFewestAnswer};
ghost use Rattle.c_wide.specs.fewest.Changes.{combined_lists};
ghost use Rattle.c_wide.specs.fewest.Combined.{AreCombined};

use super::combine::{combined_costs, lists_combined};
use super::dense::dense_answer;
use super::kept::changes_of;
use crate::answer::{Answer, answer_of};
use assign_core::Cost;
use c_calls::Shape;
use c_calls::lists::{Input, lists_of};
use cost_lists::{CostLists, Object};
use list_solver::HallSet;
use std::alloc::{AllocError, Global};
use wide_checker::Wide;

/// An optimal assignment that changes fewest persons.
#[derive(Drop)]
pub struct FewestPlan {
    pub objects: Vec<Object>,
    /// Exact prices at combined costs.
    pub prices: Vec<Wide>,
    /// The sum of its costs.
    pub total: Cost,
    /// How many persons it changes.
    pub changes: usize,
}

/// What a search found, and the checkers accept.
#[derive(Drop)]
pub enum FewestAnswer {
    /// An optimal assignment that changes fewest persons.
    Best(FewestPlan),
    /// A Hall set.
    Hall(HallSet),
    /// Nothing.
    Undecided,
}

/// An optimal assignment at combined costs, with exact prices, as an answer to the given problem.
pub fn plan_of(
    alloc: Global,
    lists: &CostLists<'_>,
    kept: &[Object],
    objects: Vec<Object>,
    prices: Vec<Wide>,
) -> Result<FewestAnswer, AllocError>
    requires kept { length kept.now ≡ length lists.now.rows }
    requires optimum { IsWideOptimum (combined_lists kept.now lists.now) objects.items
        (map wide_value prices.items) }
    requires best { IsBest lists.now.sense (combined_lists kept.now lists.now).rows objects.items }
    ensures { IfOk result (IsFewestAnswer lists.now kept.now) }
{
    let total = lists.total(alloc, objects.as_slice())?;
    let changes = changes_of(kept, objects.as_slice());
    Ok(FewestAnswer::Best(FewestPlan {
        objects,
        prices,
        total,
        changes,
    }))
}

// An answer at combined costs as one of the given problem.
fn answer_from(
    alloc: Global,
    lists: &CostLists<'_>,
    kept: &[Object],
    answer: Answer,
) -> Result<FewestAnswer, AllocError>
    requires kept { length kept.now ≡ length lists.now.rows }
    requires answer { IsWideAnswer (combined_lists kept.now lists.now) answer }
    ensures { IfOk result (IsFewestAnswer lists.now kept.now) }
{
    match answer {
        Answer::Best(objects, prices, _) => plan_of(alloc, lists, kept, objects, prices),
        Answer::Hall(set) => Ok(FewestAnswer::Hall(set)),
        Answer::Undecided => Ok(FewestAnswer::Undecided),
    }
}

// What a search finds at combined costs, and the checkers accept.
fn combined_answer(
    alloc: Global,
    shape: Shape,
    input: &Input<'_>,
    costs: &[Wide],
) -> Result<Answer, AllocError>
    requires shape { IsShape input.now shape }
    requires whole { IsWhole input.now }
    requires long { length costs.now ≡ length input.now.costs }
    requires range { All IsWideCost costs.now }
    ensures { IfOk result (λ answer. (kept : List ℕ) → length kept ≡ input.now.n
        → AreCombined shape.sense input.now kept (length input.now.costs) costs.now
        → IsWideAnswer (combined_lists kept (lists_in shape.sense input.now)) answer) }
{
    let lists = lists_combined(shape, input, costs);
    answer_of(alloc, &lists)
}

/// Searches at combined costs, and says what the checkers accept.
pub fn fewest_of(
    alloc: Global,
    shape: Shape,
    input: &Input<'_>,
    kept: &[Object],
) -> Result<FewestAnswer, AllocError>
    requires shape { IsShape input.now shape }
    requires whole { IsWhole input.now }
    requires kept { length kept.now ≡ input.now.n }
    ensures { IfOk result (IsFewestAnswer (lists_in shape.sense input.now) kept.now) }
{
    if let Some(found) = dense_answer(alloc, shape, input, kept)? {
        return Ok(found);
    }
    let costs = combined_costs(alloc, shape, input, kept)?;
    let answer = combined_answer(alloc, shape, input, costs.as_slice())?;
    let lists = lists_of(shape, input);
    answer_from(alloc, &lists, kept, answer)
}
