// Problems in which all counts are ones: each row takes one column, each column at most one row, and no
// column has a group. They are one-to-one, and the solver of these answers them, from the same lists.
ghost use Rattle.std.specs.Prelude.{◌≡◌, IfOk, length};
ghost use Rattle.count_checker.specs.CountLists.{AreCountLists};
ghost use Rattle.c_counts.specs.Ones.{HasStateLengths};

use crate::input::pairs_of;
use crate::prepare::{negate, turned};
use crate::search::Answer;
use cost_lists::{CostLists, Pairs};
use count_checker::{CheckedLists, CountLists};
use count_search::{Found, Record};
use list_solver::{Found as OneToOne, HallSet, Record as ListRecord, SearchState, solve_lists};
use std::alloc::{AllocError, Global};

// The stages of a record: it begins from nothing, or from a plan and the columns' numbers, or the solver of
// one-to-one problems goes on.
const COLD: u64 = 0;

const WARM: u64 = 1;

const ONES: u64 = 4;

/// Whether all numbers are this one.
pub fn are_all(numbers: &[u32], wanted: u32) -> bool {
    numbers.iter().all(|number| *number == wanted)
}

/// Whether all counts are ones, in no groups. Where there are as many rows as columns, a column may need its
/// row.
pub fn are_ones(lists: CountLists<'_>) -> bool {
    are_all(lists.row_least, 1)
        && are_all(lists.row_most, 1)
        && are_all(lists.column_most, 1)
        && are_all(lists.groups, 0)
        && (lists.row_least.len() == lists.column_least.len() || are_all(lists.column_least, 0))
}

/// Whether a search that stands here begins, or goes on with a problem of ones.
pub fn goes_by_ones(record: &Record) -> bool {
    record.stage <= WARM || record.stage == ONES
}

// Whether the pairs are those of each row with columns 1 to m.
fn are_whole(rows: &[u32], columns: &[u32], m: u32) -> bool {
    let (mut row, mut column) = (1u32, 1u32);
    for (own_row, own_column) in rows.iter().zip(columns) {
        if *own_row != row || *own_column != column {
            return false;
        }
        let is_last = column == m;
        row = row.wrapping_add(u32::from(is_last));
        column = if is_last { 1 } else { column.wrapping_add(1) };
    }
    true
}

// The costs of the pairs, where they are.
fn costs_of<'a>(problem: &'a CheckedLists<'_>) -> CostLists<'a>
    ensures rows { length result.rows ≡ length problem.now.row_least.now }
    ensures columns { result.m ≡ length problem.now.column_least.now }
{
    let lists = problem.lists();
    let (n, m) = (lists.row_least.len(), lists.column_least.len());
    let (rows, columns) = (n as u32, m as u32);
    if lists.costs.len() == pairs_of(n, m) && are_whole(lists.rows, lists.columns, columns) {
        return CostLists::dense(lists.sense, rows, columns, lists.costs);
    }
    let pairs = Pairs {
        persons: lists.rows,
        objects: lists.columns,
        costs: lists.costs,
    };
    CostLists::sparse(lists.sense, rows, columns, pairs)
}

// Where the solver stands, of the record between two calls.
fn list_record_of(record: &Record) -> ListRecord {
    if record.stage != ONES {
        return ListRecord {
            arc_scans: record.arc_scans,
            ..ListRecord::cold()
        };
    }
    ListRecord {
        stage: (record.outside & 0xffff_ffff) as u32,
        shift: (record.outside >> 32) as u32,
        slackness: i64::try_from(record.slackness).unwrap_or(0),
        bids: record.bids,
        passes: record.limit,
        dummy_bids: (record.until & 0xffff_ffff) as u32,
        flags: (record.until >> 32) as u32,
        arc_scans: record.arc_scans,
    }
}

fn record_of(record: &ListRecord) -> Record {
    Record {
        stage: ONES,
        slackness: u64::try_from(record.slackness).unwrap_or(0),
        outside: u64::from(record.shift) << 32 | u64::from(record.stage),
        bids: record.bids,
        limit: record.passes,
        arc_scans: record.arc_scans,
        until: u64::from(record.flags) << 32 | u64::from(record.dummy_bids),
        paths: 0,
    }
}

// The column of each row in a plan.
fn take_plan(objects: &mut [u32], lists: CountLists<'_>, plan: &[u8]) {
    let pairs = lists.rows.iter().zip(lists.columns);
    for ((row, column), byte) in pairs.zip(plan) {
        if *byte != 0 {
            if let Some(object) = objects.get_mut((*row as usize).wrapping_sub(1)) {
                *object = *column;
            }
        }
    }
}

// Where a search begins or goes on.
fn state_of(
    alloc: Global,
    lists: CountLists<'_>,
    answer: &Answer,
) -> Result<SearchState, AllocError>
    ensures { IfOk result (HasStateLengths lists.entry) }
{
    let mut prices = vec![in alloc; 0i64; lists.column_least.len()]?;
    let mut objects = vec![in alloc; 0u32; lists.row_least.len()]?;
    if answer.record.stage != COLD {
        negate(prices.as_mut_slice(), answer.column_numbers.as_slice());
        take_plan(objects.as_mut_slice(), lists, answer.plan.as_slice());
    }
    Ok(SearchState {
        prices,
        objects,
        record: list_record_of(&answer.record),
    })
}

// The place of a row's own pair, and its cost as one to minimise.
#[derive(Clone, Copy)]
struct Own {
    place: usize,
    cost: i64,
}

// The own pair of each row: of several with its column one of the least cost.
fn own_pairs(
    alloc: Global,
    lists: CountLists<'_>,
    objects: &[u32],
) -> Result<Vec<Own>, AllocError> {
    let none = Own {
        place: usize::MAX,
        cost: i64::MAX,
    };
    let mut owned = vec![in alloc; none; objects.len()]?;
    let pairs = lists.rows.iter().zip(lists.columns).zip(lists.costs);
    for (place, ((row, column), cost)) in pairs.enumerate() {
        let at = (*row as usize).wrapping_sub(1);
        if objects.get(at).copied() == Some(*column) {
            if let Some(own) = owned.get_mut(at) {
                own.lower(place, turned(lists.sense, *cost));
            }
        }
    }
    Ok(owned)
}

impl Own {
    fn lower(&mut self, place: usize, cost: i64) {
        if cost < self.cost {
            *self = Own { place, cost };
        }
    }
}

// A row's number is the cost of its own pair and the price of its column.
fn write_rows(numbers: &mut [i64], owned: &[Own], state: &SearchState) {
    let rows = owned.iter().zip(&state.objects);
    for (number, (own, object)) in numbers.iter_mut().zip(rows) {
        let place = (*object as usize).wrapping_sub(1);
        let price = state.prices.get(place).copied().unwrap_or(0);
        *number = own.cost.wrapping_add(price);
    }
}

fn write_plan(plan: &mut [u8], owned: &[Own]) {
    for byte in plan.iter_mut() {
        *byte = 0;
    }
    for own in owned {
        if let Some(byte) = plan.get_mut(own.place) {
            *byte = 1;
        }
    }
}

// Writes the plan and the numbers at which the solver stands.
fn write_state(
    alloc: Global,
    lists: CountLists<'_>,
    state: &SearchState,
    answer: &mut Answer,
) -> Result<(), AllocError> {
    let owned = own_pairs(alloc, lists, state.objects.as_slice())?;
    write_plan(answer.plan.as_mut_slice(), owned.as_slice());
    write_rows(answer.row_numbers.as_mut_slice(), owned.as_slice(), state);
    negate(
        answer.column_numbers.as_mut_slice(),
        state.prices.as_slice(),
    );
    answer.record = record_of(&state.record);
    Ok(())
}

fn mark(marks: &mut [u8], numbers: &[u32]) {
    for number in numbers {
        if let Some(byte) = marks.get_mut((*number as usize).wrapping_sub(1)) {
            *byte = 1;
        }
    }
}

// Rows that list fewer columns than they are lack.
fn write_lack(answer: &mut Answer, set: &HallSet) {
    mark(answer.row_marks.as_mut_slice(), set.persons.as_slice());
    mark(answer.column_marks.as_mut_slice(), set.objects.as_slice());
}

/// Solves a problem of ones. What is found isn't trusted, as with any counts.
pub fn solve_ones(
    alloc: Global,
    problem: &CheckedLists<'_>,
    answer: &mut Answer,
    budget: u64,
) -> Result<Found, AllocError> {
    let lists = problem.lists();
    let costs = costs_of(problem);
    let mut state = state_of(alloc, lists, answer)?;
    match solve_lists(alloc, &costs, &mut state, budget)? {
        OneToOne::Best(_) => {
            write_state(alloc, lists, &state, answer)?;
            Ok(Found::Plan)
        }
        OneToOne::Hall(set) => {
            write_lack(answer, &set);
            Ok(Found::RowsLack)
        }
        OneToOne::Stopped => {
            write_state(alloc, lists, &state, answer)?;
            Ok(Found::Stopped)
        }
    }
}
