// A problem and an answer that own their lists.
use count_search::{Answer, Found, Problem, Record, search};
use std::alloc::{AllocError, Global};

/// The lists of a problem.
#[derive(Drop)]
pub struct Lists {
    pub starts: Vec<usize>,
    pub columns: Vec<u32>,
    pub costs: Vec<i64>,
    pub row_least: Vec<u32>,
    pub row_most: Vec<u32>,
    pub column_least: Vec<u32>,
    pub column_most: Vec<u32>,
    pub groups: Vec<u32>,
}

/// The lists of an answer.
#[derive(Drop)]
pub struct Held {
    pub plan: Vec<u8>,
    pub row_numbers: Vec<i64>,
    pub column_numbers: Vec<i64>,
    pub row_marks: Vec<u8>,
    pub column_marks: Vec<u8>,
}

impl Lists {
    pub fn problem(&self) -> Problem<'_> {
        Problem {
            starts: self.starts.as_slice(),
            columns: self.columns.as_slice(),
            costs: self.costs.as_slice(),
            row_least: self.row_least.as_slice(),
            row_most: self.row_most.as_slice(),
            column_least: self.column_least.as_slice(),
            column_most: self.column_most.as_slice(),
            groups: self.groups.as_slice(),
        }
    }
}

impl Held {
    /// Of these sizes, all 0.
    pub fn new(
        alloc: Global,
        pairs: usize,
        rows: usize,
        columns: usize,
    ) -> Result<Held, AllocError> {
        Ok(Held {
            plan: vec![in alloc; 0u8; pairs]?,
            row_numbers: vec![in alloc; 0i64; rows]?,
            column_numbers: vec![in alloc; 0i64; columns]?,
            row_marks: vec![in alloc; 0u8; rows]?,
            column_marks: vec![in alloc; 0u8; columns]?,
        })
    }

    /// One call.
    pub fn call(
        &mut self,
        alloc: Global,
        problem: &Problem<'_>,
        budget: u64,
        record: &mut Record,
    ) -> Result<Found, AllocError> {
        let mut answer = Answer {
            plan: self.plan.as_mut_slice(),
            row_numbers: self.row_numbers.as_mut_slice(),
            column_numbers: self.column_numbers.as_mut_slice(),
            row_marks: self.row_marks.as_mut_slice(),
            column_marks: self.column_marks.as_mut_slice(),
        };
        search(alloc, problem, &mut answer, budget, record)
    }
}
