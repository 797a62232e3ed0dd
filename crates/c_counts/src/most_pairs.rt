// Problems whose best plans are those of most pairs: each pair has the same cost, below 0, no row and no
// column needs any, and no column has a group. What is found isn't trusted, as with any counts.
use crate::flow::Flow;
use crate::ones::are_all;
use crate::prepare::turned;
use crate::search::Answer;
use assign_core::Cost;
use count_checker::CountLists;
use count_search::{Found, Record};
use search_base::ArcScans;
use std::alloc::{AllocError, Global};

// The stages of a record: it begins from nothing, or from a plan, or goes on from one.
const COLD: u64 = 0;

const WARM: u64 = 1;

const MOST_PAIRS: u64 = 5;

/// The cost of each pair as one to minimise, if a plan of most pairs is a best one.
pub fn cost_of_each(lists: CountLists<'_>) -> Option<Cost> {
    let first = lists.costs.first().copied().unwrap_or(0);
    let cost = turned(lists.sense, first);
    let is_free = are_all(lists.row_least, 0)
        && are_all(lists.column_least, 0)
        && are_all(lists.groups, 0);
    if cost < 0 && is_free && lists.costs.iter().all(|cost| *cost == first) {
        Some(cost)
    } else {
        None
    }
}

/// Whether a search that stands here begins, or goes on with a plan of most pairs.
pub fn goes_by_most(record: &Record) -> bool {
    record.stage <= WARM || record.stage == MOST_PAIRS
}

/// Searches for a plan of most pairs, each of which has this cost.
pub fn solve_most(
    alloc: Global,
    lists: CountLists<'_>,
    cost: Cost,
    answer: &mut Answer,
    budget: u64,
) -> Result<Found, AllocError> {
    let limit = if budget == 0 { u64::MAX } else { budget };
    let mut flow = Flow::new(
        alloc,
        lists.rows,
        lists.columns,
        lists.row_most,
        lists.column_most,
        ArcScans { done: 0, limit },
    )?;
    if answer.record.stage != COLD {
        flow.take(answer.plan.as_slice());
    }
    let is_done = flow.grow()?;
    flow.write_plan(answer.plan.as_mut_slice());
    flow.write_numbers(
        cost,
        answer.row_numbers.as_mut_slice(),
        answer.column_numbers.as_mut_slice(),
    );
    answer.record.stage = MOST_PAIRS;
    answer.record.arc_scans = answer.record.arc_scans.wrapping_add(flow.arc_scans.done);
    Ok(if is_done { Found::Plan } else { Found::Stopped })
}
