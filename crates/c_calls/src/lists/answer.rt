// Proved answers to given problems.
ghost use Rattle.std.specs.Prelude.{◌≡◌, All, IfErr, IfOk, IfSome, IsTrue, length};
ghost use Rattle.cost_lists.specs.Exact.{IsPriceInLimits};
ghost use Rattle.c_calls.specs.lists.Answers.{IsSearched};
ghost use Rattle.c_calls.specs.lists.Faults.{HasFault, IsWhole};
ghost use Rattle.c_calls.specs.lists.Input.{HasLengths};
ghost use Rattle.c_calls.specs.lists.Shapes.{HasStateLengths, IsShape};

use super::costs::lists_of;
use super::form::Form;
use super::input::Input;
use super::judging::{judge, shape_of};
use super::rule::{InPrices, first_wrong};
use super::state::{state_anew, state_of};
use crate::fault::Fault;
use crate::size::{Shape, pairs_of};
use cost_lists::{Object, Price};
use list_solver::{Found, Record, SearchState, solve_lists};
use plan_repair::mend_dense;
use std::alloc::{AllocError, Global};

/// A search that ended.
#[derive(Drop)]
pub struct Searched {
    pub shape: Shape,
    pub state: SearchState,
    pub found: Found,
}

// Searches from where a search stands.
fn search_on(
    alloc: Global,
    shape: Shape,
    input: &Input<'_>,
    state: SearchState,
    budget: u64,
) -> Result<Searched, AllocError>
    requires shape { IsShape input.now shape }
    requires whole { IsWhole input.now }
    requires lengths { HasStateLengths input.now state }
    ensures { IfOk result (IsSearched input.now budget) }
{
    let lists = lists_of(shape, input);
    let mut state = state;
    let found = solve_lists(alloc, &lists, &mut state, budget)?;
    Ok(Searched {
        shape,
        state,
        found,
    })
}

// Whether a search begins from first prices in range, not all 0, with room for two passes over all pairs.
fn may_mend(shape: Shape, input: &Input<'_>, budget: u64, record: Record) -> bool
    requires { IsShape input.now shape }
    ensures { IsTrue result → All IsPriceInLimits input.now.first }
{
    let has_room = budget == 0 || pairs_of(input.n, input.m) as u64 <= budget / 2;
    has_room
        && record.stage == 0
        && input.first.iter().any(|price| *price != 0)
        && first_wrong(InPrices, input.first).is_none()
}

// The plan of before with its prices, mended after few changes of a dense problem. Its one pass judges all
// costs too. Refused memory leaves the answer to the search.
fn mend(
    alloc: Global,
    shape: Shape,
    input: &Input<'_>,
    budget: u64,
    objects: &[Object],
    record: Record,
) -> Option<Searched>
    requires { IsShape input.now shape }
    ensures { IfSome result (IsSearched input.now budget) }
{
    let Form::Dense = input.form else {
        return None;
    };
    if !may_mend(shape, input, budget, record) {
        return None;
    }
    let Shape { sense, n, m } = shape;
    let Ok(Some(mended)) = mend_dense(alloc, sense, n, m, input.costs, objects, input.first) else {
        return None;
    };
    let state = SearchState {
        prices: mended.prices,
        objects: mended.objects,
        record: Record::cold(),
    };
    Some(Searched {
        shape,
        state,
        found: Found::Best(mended.total),
    })
}

/// Searches from nothing but first prices, if there are any, with no budget. An error is the first
/// fault of what is given.
pub fn search_anew(alloc: Global, input: &Input<'_>) -> Result<Searched, Fault>
    ensures searched { IfOk result (IsSearched input.now 0) }
    ensures fault { IfErr result (HasFault input.now) }
{
    let shape = judge(input)?;
    let state = state_anew(alloc, shape, input)?;
    let searched = search_on(alloc, shape, input, state, 0)?;
    Ok(searched)
}

/// Searches from where a caller's lists and record stand, unless few changes of a plan are mended. An
/// error is the first fault of what is given.
pub fn search_from(
    alloc: Global,
    input: &Input<'_>,
    budget: u64,
    objects: &[Object],
    prices: &[Price],
    record: Record,
) -> Result<Searched, Fault>
    requires objects { HasLengths input.now → length objects.now ≡ input.now.n }
    requires prices { HasLengths input.now → length prices.now ≡ input.now.m }
    ensures searched { IfOk result (IsSearched input.now budget) }
    ensures fault { IfErr result (HasFault input.now) }
{
    let shape = shape_of(input)?;
    if let Some(mended) = mend(alloc, shape, input, budget, objects, record) {
        return Ok(mended);
    }
    let shape = judge(input)?;
    let state = state_of(alloc, shape, input, objects, prices, record)?;
    let searched = search_on(alloc, shape, input, state, budget)?;
    Ok(searched)
}
