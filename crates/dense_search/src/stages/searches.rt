// Searches of shortest paths, and cores.
use super::super::cores::{resume_cores, solve_by_cores};
use super::super::matrix::Matrix;
use super::super::paths::{Allowance, augment_all, augment_by_rows, lower_unowned};
use super::super::reading::Reading;
use super::super::record::{Ended, Outcome, Stage};
use super::super::settling::settle_all;
use super::beginning::MIDDLE;
use super::copying::{MOST_COPIED, is_middle};
use super::kept::Kept;
use super::{CORE_PASSES, Step, Work, after};
use std::alloc::{AllocError, Global};

// Searches alone solve problems with fewer pairs.
const SMALL: usize = 1 << 14;

// A core's work apart from its passes, in arc scans a person.
const CORE_ARC_SCANS: u64 = 4000;

// The arc scans of searches after a core, as passes over all pairs.
const RETRY_PASSES: u64 = 64;

// The arc scans of searches before a copy with loss, as passes over all pairs.
const SHIFT_PASSES: u64 = 8;

// If bids leave more than this part of the persons, searches would take longer than a copy with loss: of
// drawn costs they leave a twentieth, of points of the plane a fifth. In large squares a core is faster up
// to a half, and where objects stay unowned searches are.
const PART_LEFT: usize = 7;

const LARGE_PART_LEFT: usize = 2;

// The arc scans after which a core is as fast as searches.
fn arc_scans_of_core<R: Reading<i64>>(matrix: &Matrix<'_, i64, R>) -> u64 {
    if matrix.pairs() < SMALL {
        return u64::MAX;
    }
    let persons = (matrix.persons as u64).saturating_mul(CORE_ARC_SCANS);
    let passes = (matrix.pairs() as u64).saturating_mul(CORE_PASSES);
    persons.saturating_add(passes)
}

impl<'a> Work<'a> {
    // Whether searches over a copy with loss, and an auction with dummies after them, can be faster than a core.
    // With many more objects than persons searches over all costs find an unowned object soon.
    fn may_shift<R: Reading<i64>>(&self, matrix: &Matrix<'_, i64, R>) -> bool {
        self.may_copy
            && matrix.pairs() >= SMALL
            && matrix.pairs() <= MOST_COPIED
            && matrix.persons > matrix.objects / 8 * 7
    }

    // Whether bids left so many persons that a copy with loss is faster than searches.
    fn is_hard<R: Reading<i64>>(&self, matrix: &Matrix<'_, i64, R>) -> bool {
        let is_square = matrix.persons == matrix.objects;
        let part = if is_square && matrix.pairs() < MIDDLE {
            PART_LEFT
        } else {
            LARGE_PART_LEFT
        };
        let left = self.market.unassigned();
        self.may_shift(matrix) && left > matrix.persons / part
    }

    // Searches for all persons from the bids, as far as a core isn't as fast.
    fn augment_first<R: Reading<i64>>(
        &mut self,
        alloc: Global,
        matrix: &Matrix<'_, i64, R>,
    ) -> Result<Ended, AllocError> {
        let (before, pairs) = (self.arc_scans.done, matrix.pairs());
        let most = if self.may_shift(matrix) && pairs < MIDDLE {
            (pairs as u64).saturating_mul(SHIFT_PASSES)
        } else {
            arc_scans_of_core(matrix)
        };
        let allowed = Allowance {
            most: self.record.left_of(most, pairs),
            is_growing: true,
        };
        let ended = augment_all(
            alloc,
            matrix,
            &mut self.market,
            allowed,
            &mut self.arc_scans,
        )?;
        let taken = self.arc_scans.since(before);
        self.record.count_passes(ended, taken, pairs);
        Ok(ended)
    }

    // Searches for all persons from the prices of a core, by scans of whole rows, since they reach most
    // objects.
    fn augment_again<R: Reading<i64>>(
        &mut self,
        alloc: Global,
        matrix: &Matrix<'_, i64, R>,
    ) -> Result<Ended, AllocError> {
        let (before, pairs) = (self.arc_scans.done, matrix.pairs());
        let all = (pairs as u64).saturating_mul(RETRY_PASSES);
        let most = self.record.left_of(all, pairs);
        let ended = augment_by_rows(alloc, matrix, &mut self.market, most, &mut self.arc_scans)?;
        let taken = self.arc_scans.since(before);
        self.record.count_passes(ended, taken, pairs);
        Ok(ended)
    }

    // Each person has an object: unowned objects come down to the least price. A call that is stopped
    // there leaves the rest to the last searches, whose calls are counted.
    pub fn lower<R: Reading<i64>>(
        &mut self,
        alloc: Global,
        matrix: &Matrix<'_, i64, R>,
    ) -> Result<Step, AllocError> {
        let is_square = matrix.persons == matrix.objects;
        if is_square || !self.market.has_overpriced_unowned() {
            return Ok(Step::End(Outcome::Best));
        }
        let ended = lower_unowned(alloc, matrix, &mut self.market, &mut self.arc_scans)?;
        if let Ended::Stopped = ended {
            self.record.stage = Stage::Finish;
            self.record.passes = 1;
        }
        Ok(after(ended, Step::End(Outcome::Best), Stage::Finish))
    }

    fn after_searches<R: Reading<i64>>(
        &mut self,
        alloc: Global,
        matrix: &Matrix<'_, i64, R>,
        ended: Ended,
        long: Stage,
    ) -> Result<Step, AllocError> {
        match ended {
            Ended::Assigned => self.lower(alloc, matrix),
            ended => Ok(after(ended, Step::End(Outcome::Best), long)),
        }
    }

    pub fn search_paths<R: Reading<i64>>(
        &mut self,
        alloc: Global,
        matrix: &Matrix<'_, i64, R>,
    ) -> Result<Step, AllocError> {
        if self.bid_first(matrix) {
            return Ok(Step::End(Outcome::Stopped));
        }
        let is_hard = self.is_hard(matrix);
        let ended = if is_hard {
            Ended::Long
        } else {
            self.augment_first(alloc, matrix)?
        };
        if let Ended::Long = ended {
            if is_hard || self.may_shift(matrix) && matrix.pairs() < MIDDLE {
                if let Some(step) = self.search_shifted(alloc, matrix)? {
                    return Ok(step);
                }
            }
            if is_middle(matrix) {
                self.may_copy = false;
            }
            self.kept = Some(Kept::of(alloc, &self.market)?);
        }
        self.after_searches(alloc, matrix, ended, Stage::Core)
    }

    pub fn solve_cores<R: Reading<i64>>(
        &mut self,
        alloc: Global,
        matrix: &Matrix<'_, i64, R>,
    ) -> Result<Step, AllocError> {
        if self.record.passes > 0 {
            return self.resume_core(alloc, matrix);
        }
        let may_copy = self.may_copy_later(matrix);
        let record = &mut self.record;
        let arc_scans = &mut self.arc_scans;
        let ended = solve_by_cores(alloc, matrix, &mut self.market, record, arc_scans, may_copy)?;
        if let Ended::Long = ended {
            self.record.passes = 0;
        }
        if let Ended::Near = ended {
            self.leave_core();
        }
        Ok(after(ended, Step::End(Outcome::Best), Stage::Retry))
    }

    // Lets searches go on from the prices of a core.
    fn leave_core(&mut self) {
        self.record.passes = 0;
        self.kept = None;
        self.may_copy = false;
    }

    // Goes on where an earlier call stopped after a core. A pass that finds no better pair confirms
    // an end.
    fn resume_core<R: Reading<i64>>(
        &mut self,
        alloc: Global,
        matrix: &Matrix<'_, i64, R>,
    ) -> Result<Step, AllocError> {
        let (record, arc_scans) = (&mut self.record, &mut self.arc_scans);
        let ended = resume_cores(alloc, matrix, &mut self.market, record, arc_scans)?;
        match ended {
            Ended::Stopped => {}
            Ended::Near => self.leave_core(),
            Ended::Assigned | Ended::Long | Ended::Blocked => self.record.passes = 0,
        }
        Ok(match ended {
            Ended::Assigned => {
                self.is_resumed = self.market.has_overpriced_unowned();
                Step::End(Outcome::Best)
            }
            Ended::Long => Step::To(Stage::Auction),
            Ended::Near => Step::To(Stage::Retry),
            Ended::Stopped => Step::End(Outcome::Stopped),
            Ended::Blocked => Step::To(Stage::Retry),
        })
    }

    // Searches over a copy, or on from where the first ones ended; if these take too long, the core's
    // prices are those of the auction.
    pub fn retry<R: Reading<i64>>(
        &mut self,
        alloc: Global,
        matrix: &Matrix<'_, i64, R>,
    ) -> Result<Step, AllocError> {
        if self.record.passes == 0 && self.may_copy_later(matrix) {
            if let Some(step) = self.search_copied(alloc, matrix)? {
                return Ok(step);
            }
        }
        if !self.swap_kept() && self.record.passes == 0 {
            self.arc_scans.add(settle_all(matrix, &mut self.market));
        }
        let ended = self.augment_again(alloc, matrix)?;
        match ended {
            Ended::Long => {
                let _ = self.swap_kept();
            }
            // They went on from objects that don't fit their prices.
            Ended::Blocked => {
                self.market.enter_objects();
                return Ok(Step::To(Stage::Finish));
            }
            Ended::Assigned | Ended::Near | Ended::Stopped => {}
        }
        self.after_searches(alloc, matrix, ended, Stage::Auction)
    }
}
