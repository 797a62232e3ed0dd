// The whole search, stage by stage.
mod beginning;
mod copying;
mod kept;
mod phases;
mod searches;

use super::market::Market;
use super::matrix::{DenseProblem, Matrix};
use super::prices::{begin_at_zero, cut, reduce};
use super::reading::{AsCosts, AsGains, Reading};
use super::record::{Ended, Outcome, Record, Stage};
use super::settling::settle_all;
use assign_core::Sense;
use kept::Kept;
use search_base::ArcScans;
use std::alloc::{AllocError, Global};

/// The most persons and the most objects.
pub const MOST: usize = 1 << 22;

// The most stages of a search.
const STAGES: usize = 16;

// More calls than searches for all persons and objects take, and passes too, as a number for each.
const MOST_CALLS: u64 = 4;

const MORE_CALLS: u64 = 16;

// So often searches go on from an end that doesn't hold. Then the search begins with nothing.
const MOST_RESTARTS: u32 = 1;

// A call copies if its budget allows so many passes over all pairs, since a copy takes as long as one
// or two.
const COPY_PASSES: u64 = 2;

// A core's passes over all pairs.
const CORE_PASSES: u64 = 2;

// What a step of a search leads to.
#[derive(Clone, Copy)]
enum Step {
    To(Stage),
    End(Outcome),
}

// What follows on an end of a stage.
fn after(ended: Ended, assigned: Step, long: Stage) -> Step {
    match ended {
        Ended::Assigned => assigned,
        Ended::Long => Step::To(long),
        Ended::Near => Step::To(Stage::Retry),
        Ended::Stopped => Step::End(Outcome::Stopped),
        Ended::Blocked => Step::End(Outcome::Lost),
    }
}

// A search at work: what its stages change.
#[derive(Drop)]
struct Work<'a> {
    market: Market<'a, i64>,
    record: Record,
    arc_scans: ArcScans,
    // Whether this call went on from what another one left, so that an end is to be confirmed.
    is_resumed: bool,
    // Where the first searches ended, while a core is solved; then where the core ended.
    kept: Option<Kept>,
    // Whether the costs may be searched over a copy in 32 bits.
    may_copy: bool,
}

impl<'a> Work<'a> {
    // Whether searches took more calls than there can be if each assigns a person or lowers a price: the
    // objects don't fit their prices then.
    fn are_astray<R: Reading<i64>>(&self, matrix: &Matrix<'_, i64, R>) -> bool {
        let places = (matrix.persons as u64).saturating_add(matrix.objects as u64);
        let most = places.saturating_mul(MOST_CALLS).saturating_add(MORE_CALLS);
        let counts_calls = matches!(
            self.record.stage,
            Stage::Paths | Stage::Retry | Stage::Finish | Stage::CopyPaths | Stage::CopyFinish
        );
        counts_calls && self.record.passes > most
    }

    // Counts a call that searches to the end were stopped in.
    fn count_call(&mut self) {
        if let Stage::Finish | Stage::CopyFinish = self.record.stage {
            self.record.passes = self.record.passes.saturating_add(1);
        }
    }

    fn step<R: Reading<i64>>(
        &mut self,
        alloc: Global,
        matrix: &Matrix<'_, i64, R>,
    ) -> Result<Step, AllocError> {
        if self.are_astray(matrix) {
            self.begin_again();
        }
        match self.record.stage {
            Stage::Cold => self.begin_cold(alloc, matrix),
            Stage::Warm => self.begin_warm(alloc, matrix),
            Stage::Paths => self.search_paths(alloc, matrix),
            Stage::Core => self.solve_cores(alloc, matrix),
            Stage::Retry => self.retry(alloc, matrix),
            Stage::Auction => self.bid_in_phases(alloc, matrix),
            Stage::Finish => self.finish(alloc, matrix),
            Stage::CopyPaths | Stage::CopyAuction | Stage::CopyFinish => {
                self.resume_copied(alloc, matrix)
            }
        }
    }

    // The prices in the unit of the costs, the least one 0.
    fn close(&mut self) {
        let shift = self.record.shift;
        reduce(self.market.prices, shift);
        begin_at_zero(self.market.prices);
        self.record.shift = 0;
    }

    // Whether an end holds in a call that went on from what another one left: what that was, nobody
    // vouches for. If it doesn't, searches go on from there.
    fn is_confirmed<R: Reading<i64>>(&mut self, matrix: &Matrix<'_, i64, R>) -> bool {
        if !self.is_resumed {
            return true;
        }
        self.is_resumed = false;
        self.market.enter_objects();
        self.arc_scans.add(settle_all(matrix, &mut self.market));
        self.market.unassigned() == 0 && !self.market.has_overpriced_unowned()
    }

    // After an end that doesn't hold, or none, searches go on from there. If that comes once more, the
    // search begins with nothing: prices near the cut, which each call cuts, would never let it end.
    fn begin_again(&mut self) {
        if self.record.restarts >= MOST_RESTARTS {
            self.record = Record::cold();
        } else {
            self.record.restarts = self.record.restarts.wrapping_add(1);
            self.record.stage = Stage::Finish;
            self.record.passes = 0;
        }
    }

    // Whether the budget is spent, or what is left of it is too little for a core.
    fn is_ending<R: Reading<i64>>(&self, matrix: &Matrix<'_, i64, R>) -> bool {
        let least = match self.record.stage {
            Stage::Core => (matrix.pairs() as u64).saturating_mul(CORE_PASSES),
            _ => 1,
        };
        self.arc_scans.left() < least
    }

    // Stage by stage up to an end.
    fn go_on<R: Reading<i64>>(
        &mut self,
        alloc: Global,
        matrix: &Matrix<'_, i64, R>,
    ) -> Result<Outcome, AllocError> {
        for _ in 0..STAGES {
            match self.step(alloc, matrix)? {
                Step::To(stage) => {
                    self.record.stage = stage;
                    if self.is_ending(matrix) {
                        return Ok(Outcome::Stopped);
                    }
                }
                Step::End(Outcome::Best) => {
                    self.close();
                    if self.is_confirmed(matrix) {
                        return Ok(Outcome::Best);
                    }
                    self.begin_again();
                }
                Step::End(outcome) => {
                    self.count_call();
                    return Ok(outcome);
                }
            }
        }
        Ok(Outcome::Lost)
    }
}

fn run_as<R: Reading<i64>>(
    alloc: Global,
    matrix: &Matrix<'_, i64, R>,
    prices: &mut [i64],
    objects: &mut [u32],
    record: &mut Record,
    budget: u64,
) -> Result<Outcome, AllocError> {
    let limit = if budget == 0 {
        u64::MAX
    } else {
        record.arc_scans.saturating_add(budget)
    };
    if record.is_begun() {
        cut(prices);
    }
    let mut work = Work {
        market: Market::new(alloc, prices, objects)?,
        record: record.sound(),
        is_resumed: record.is_begun(),
        kept: None,
        may_copy: budget == 0 || budget / COPY_PASSES >= matrix.pairs() as u64,
        arc_scans: ArcScans {
            done: record.arc_scans,
            limit,
        },
    };
    let outcome = work.go_on(alloc, matrix)?;
    *record = work.record;
    record.arc_scans = work.arc_scans.done;
    Ok(outcome)
}

// Whether the lists fit one another.
fn is_whole(problem: DenseProblem<'_>, prices: &[i64], objects: &[u32]) -> bool {
    problem.persons <= problem.objects
        && problem.objects <= MOST
        && problem.costs.len() == problem.persons.wrapping_mul(problem.objects)
        && prices.len() == problem.objects
        && objects.len() == problem.persons
}

/// Searches for exact prices and a plan, and stops after about `budget` arc scans (0: it
/// doesn't). A call reads and writes a price for each object and an object for each person. At
/// `Best` prices are whole numbers in the unit of the costs, none below 0, and 0 where nobody owns
/// the object. At `Stopped` they are those from which the next call goes on, with the record.
pub fn search(
    alloc: Global,
    problem: DenseProblem<'_>,
    prices: &mut [i64],
    objects: &mut [u32],
    record: &mut Record,
    budget: u64,
) -> Result<Outcome, AllocError> {
    if !is_whole(problem, prices, objects) {
        return Ok(Outcome::Lost);
    }
    match problem.sense {
        Sense::Min => {
            let matrix = problem.read_as(AsCosts);
            run_as(alloc, &matrix, prices, objects, record, budget)
        }
        Sense::Max => {
            let matrix = problem.read_as(AsGains);
            run_as(alloc, &matrix, prices, objects, record, budget)
        }
    }
}
