// The costs that a search reads, and where it stands.
use super::bounds::{Bound, bound_of_pairs, bound_of_rows};
use super::lists::{Listed, cost_in, up_to};
use super::rows::{Rows, turned};
use super::thresholds::sampled;
use assign_core::Cost;
use list_solver::Record;
use sparse_search::SparseProblem;
use std::alloc::{AllocError, Global};

/// No threshold is as great: all pairs are up to it.
pub const ALL: Cost = Cost::MAX;

// At the bound so many pairs of a row are mostly enough.
const FEW: usize = 40;

/// The costs, row by row or by listed pairs.
#[derive(Clone, Copy)]
pub enum Table<'a> {
    Rows(Rows<'a>),
    Pairs(SparseProblem<'a>),
}

impl<'a> Table<'a> {
    /// The pairs up to a threshold.
    pub fn up_to(self, alloc: Global, persons: usize, most: Cost) -> Result<Listed, AllocError> {
        match self {
            Table::Rows(rows) => rows.up_to(alloc, persons, most, usize::MAX),
            Table::Pairs(problem) => up_to(alloc, problem, most),
        }
    }

    /// Pairs up to the bound.
    pub fn at_bound(
        self,
        alloc: Global,
        persons: usize,
        bound: Cost,
    ) -> Result<Listed, AllocError> {
        match self {
            Table::Rows(rows) => rows.up_to(alloc, persons, bound, FEW),
            Table::Pairs(problem) => up_to(alloc, problem, bound),
        }
    }

    pub fn bound(self, alloc: Global, persons: usize) -> Result<Bound, AllocError> {
        match self {
            Table::Rows(rows) => bound_of_rows(alloc, rows, persons),
            Table::Pairs(problem) => bound_of_pairs(alloc, problem),
        }
    }

    /// The least cost of a person's object; `Cost::MAX` if the person doesn't list it.
    pub fn cost(self, person: u32, object: u32) -> Cost {
        match self {
            Table::Rows(rows) => match rows.row(person).get(object as usize) {
                Some(cost) => turned(*cost, rows.flip),
                None => Cost::MAX,
            },
            Table::Pairs(problem) => cost_in(problem.row(person), object),
        }
    }

    /// All pairs of so many persons.
    pub fn pairs(self, persons: usize) -> usize {
        match self {
            Table::Rows(rows) => persons.saturating_mul(rows.objects),
            Table::Pairs(problem) => problem.pairs.len(),
        }
    }

    /// Costs to take thresholds from, sorted; none for listed pairs.
    pub fn sample(self, alloc: Global) -> Result<Vec<Cost>, AllocError> {
        match self {
            Table::Rows(rows) => sampled(alloc, rows),
            Table::Pairs(_) => Ok(Vec::new(alloc)),
        }
    }

    pub fn objects(self) -> usize {
        match self {
            Table::Rows(rows) => rows.objects,
            Table::Pairs(problem) => problem.objects,
        }
    }
}

/// What a search does next.
#[derive(Clone, Copy, PartialEq, Eq)]
pub enum Stage {
    /// It begins; the objects aren't read.
    Begin,
    /// A matching at the bound.
    Bound,
    /// No plan is known.
    Low,
    /// There is a plan up to a threshold.
    High,
    /// A matching grows.
    Growth,
}

/// Up to the low threshold there is no plan; up to the high one there is, if one is known.
#[derive(Clone, Copy)]
pub struct SearchState {
    pub stage: Stage,
    pub low: Cost,
    pub high: Cost,
}

// A threshold and this are no number below 0.
const SHIFT: Cost = 1 << 62;

impl SearchState {
    /// Where a record says that the search stands.
    pub fn of(record: Record) -> SearchState {
        let stage = match record.stage {
            1 => Stage::Bound,
            2 => Stage::Low,
            3 => Stage::High,
            4 => Stage::Growth,
            _ => Stage::Begin,
        };
        SearchState {
            stage,
            low: record.slackness,
            high: Cost::try_from(record.bids).unwrap_or(0).wrapping_sub(SHIFT),
        }
    }

    /// The record of this state after so many arc scans.
    pub fn record(self, arc_scans: u64) -> Record {
        let stage = match self.stage {
            Stage::Begin => 0,
            Stage::Bound => 1,
            Stage::Low => 2,
            Stage::High => 3,
            Stage::Growth => 4,
        };
        Record {
            stage,
            shift: 0,
            slackness: self.low,
            bids: u64::try_from(self.high.wrapping_add(SHIFT)).unwrap_or(0),
            passes: 0,
            dummy_bids: 0,
            flags: 0,
            arc_scans,
        }
    }
}
