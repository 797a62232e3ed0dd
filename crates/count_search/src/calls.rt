// The call of a search.
mod open_search;

use super::arranged::{Arranged, is_better_exchanged, scattered_groups};
use super::numbers::Numbers;
use super::problem::{CostRange, Problem};
use super::record::Record;
use super::shortage::{Lack, Marks};
use super::state::State;
use super::values::{copy_numbers, count_at, set_byte, sum_of};
use open_search::OpenSearch;
use search_base::ArcScans;
use std::alloc::{AllocError, Global};

/// What a search writes.
#[derive(Drop)]
pub struct Answer<'a> {
    /// 1 for each chosen pair, 0 for the others.
    pub plan: &'a mut [u8],
    pub row_numbers: &'a mut [i64],
    pub column_numbers: &'a mut [i64],
    /// 1 for each row of a shortage.
    pub row_marks: &'a mut [u8],
    pub column_marks: &'a mut [u8],
}

/// The end of a search.
#[derive(Clone, Copy)]
pub enum Found {
    /// A plan, with numbers that prove it best.
    Plan,
    /// The marked rows need more than the marked columns take, and what these rows list elsewhere.
    RowsLack,
    /// The marked columns need more than the marked rows take, and what the other rows list there.
    ColumnsLack,
    /// The budget is spent, and the next call goes on.
    Stopped,
    /// The lists don't fit one another, a number is out of its range, or a least count is above its
    /// greatest.
    Nothing,
}

fn found_of(lack: Lack) -> Found {
    match lack {
        Lack::Rows => Found::RowsLack,
        Lack::Columns => Found::ColumnsLack,
    }
}

fn copy_bytes(to: &mut [u8], from: &[u8]) {
    for (entry, byte) in to.iter_mut().zip(from) {
        *entry = *byte;
    }
}

impl Answer<'_> {
    fn fits(&self, problem: &Problem<'_>) -> bool {
        let (rows, columns) = (problem.row_count(), problem.column_count());
        self.plan.len() == problem.columns.len()
            && self.row_numbers.len() == rows
            && self.column_numbers.len() == columns
            && self.row_marks.len() == rows
            && self.column_marks.len() == columns
    }

    fn write_plan(&mut self, state: &State, numbers: &Numbers) {
        copy_bytes(self.plan, state.plan.as_slice());
        copy_numbers(self.row_numbers, numbers.rows.as_slice());
        copy_numbers(self.column_numbers, numbers.columns.as_slice());
    }

    fn write_marks(&mut self, marks: &Marks) {
        copy_bytes(self.row_marks, marks.rows.as_slice());
        copy_bytes(self.column_marks, marks.columns.as_slice());
    }
}

// The first place whose least count is greater than the greatest.
fn first_above(least: &[u32], most: &[u32]) -> Option<usize> {
    for (place, count) in least.iter().enumerate() {
        if *count > count_at(most, place) {
            return Some(place);
        }
    }
    None
}

// A row or a column that lists too little, or sums that leave no plan.
fn plain_shortage(problem: &Problem<'_>, state: &State, marks: &mut Marks) -> Option<Lack> {
    if let Some(column) = first_above(state.column_least.as_slice(), state.column_most.as_slice()) {
        set_byte(marks.columns.as_mut_slice(), column, 1);
        return Some(Lack::Columns);
    }
    if let Some(row) = first_above(state.row_least.as_slice(), state.row_most.as_slice()) {
        set_byte(marks.rows.as_mut_slice(), row, 1);
        return Some(Lack::Rows);
    }
    let rows_lack = sum_of(problem.row_least) > sum_of(problem.column_most);
    if rows_lack || sum_of(problem.column_least) > sum_of(problem.row_most) {
        marks.mark_all();
        return Some(if rows_lack { Lack::Rows } else { Lack::Columns });
    }
    None
}

fn search_whole(
    alloc: Global,
    problem: &Problem<'_>,
    range: CostRange,
    answer: &mut Answer<'_>,
    budget: u64,
    record: &mut Record,
) -> Result<Found, AllocError> {
    let state = State::new(alloc, problem)?;
    let mut marks = Marks::new(alloc, problem)?;
    let plain = plain_shortage(problem, &state, &mut marks);
    let mut run = OpenSearch {
        alloc,
        problem,
        range,
        state,
        marks,
        arc_scans: ArcScans {
            done: record.arc_scans.min(u64::MAX / 2),
            limit: u64::MAX,
        },
        record: *record,
        budget,
    };
    let found = match plain {
        Some(lack) => found_of(lack),
        None => run.run(answer)?,
    };
    run.record.arc_scans = run.arc_scans.done;
    *record = run.record;
    run.write(answer, found)?;
    Ok(found)
}

// The same with rows and columns exchanged.
fn search_exchanged(
    alloc: Global,
    problem: &Problem<'_>,
    range: CostRange,
    answer: &mut Answer<'_>,
    budget: u64,
    record: &mut Record,
) -> Result<Found, AllocError> {
    let arranged = Arranged::exchanged(alloc, problem)?;
    let mut plan = arranged.plan_of(alloc, answer.plan)?;
    let mut exchanged = Answer {
        plan: plan.as_mut_slice(),
        row_numbers: &mut *answer.column_numbers,
        column_numbers: &mut *answer.row_numbers,
        row_marks: &mut *answer.column_marks,
        column_marks: &mut *answer.row_marks,
    };
    let own = arranged.exchanged_problem(problem);
    let found = search_whole(alloc, &own, range, &mut exchanged, budget, record)?;
    arranged.write_plan(plan.as_slice(), answer.plan);
    Ok(match found {
        Found::RowsLack => Found::ColumnsLack,
        Found::ColumnsLack => Found::RowsLack,
        other => other,
    })
}

// The same with the pairs of each row by groups.
fn search_grouped(
    alloc: Global,
    problem: &Problem<'_>,
    range: CostRange,
    keys: &[u32],
    answer: &mut Answer<'_>,
    budget: u64,
    record: &mut Record,
) -> Result<Found, AllocError> {
    let arranged = Arranged::grouped(alloc, problem, keys)?;
    let mut plan = arranged.plan_of(alloc, answer.plan)?;
    let mut grouped = Answer {
        plan: plan.as_mut_slice(),
        row_numbers: &mut *answer.row_numbers,
        column_numbers: &mut *answer.column_numbers,
        row_marks: &mut *answer.row_marks,
        column_marks: &mut *answer.column_marks,
    };
    let own = Problem {
        starts: arranged.starts(),
        columns: arranged.columns(),
        costs: arranged.costs(),
        row_least: problem.row_least,
        row_most: problem.row_most,
        column_least: problem.column_least,
        column_most: problem.column_most,
        groups: problem.groups,
    };
    let found = search_whole(alloc, &own, range, &mut grouped, budget, record)?;
    arranged.write_plan(plan.as_slice(), answer.plan);
    Ok(found)
}

/// Searches for a best plan with row numbers and column numbers that prove it, or for a shortage. With r
/// the row's number, v the column's and e = cost - r - v, each chosen pair has e of at most 0, the least
/// of its row's group, each other pair has e of at least 0 or its row takes another of the group, and a
/// number is above 0 only at a least count, below 0 only at a greatest one. Nothing of it is proved: a
/// checker judges it.
///
/// It stops after about `budget` arc scans (0: it doesn't), at the end of a row's bids or of a
/// shortest path; a call that goes on reads the lists a few times before it counts. Until a call ends with
/// another word than `Stopped`, the next one gets the same problem, the answer's lists and the record as
/// they are. `Record::warm()` begins from the numbers and the plan of the answer's lists.
pub fn search(
    alloc: Global,
    problem: &Problem<'_>,
    answer: &mut Answer<'_>,
    budget: u64,
    record: &mut Record,
) -> Result<Found, AllocError> {
    let Some(range) = problem.fitting_range() else {
        return Ok(Found::Nothing);
    };
    if !answer.fits(problem) {
        return Ok(Found::Nothing);
    }
    if is_better_exchanged(problem) {
        return search_exchanged(alloc, problem, range, answer, budget, record);
    }
    match scattered_groups(alloc, problem)? {
        Some(keys) => {
            let keys = keys.keys.as_slice();
            search_grouped(alloc, problem, range, keys, answer, budget, record)
        }
        None => search_whole(alloc, problem, range, answer, budget, record),
    }
}
