// Searches over a copy of the costs in 32 bits.
use super::super::capped::{Capped, capped_costs, is_cut};
use super::super::copied::search_market;
use super::super::matrix::Matrix;
use super::super::narrow::{narrow_costs, narrow_prices, widen};
use super::super::reading::Reading;
use super::super::record::{Ended, Outcome, Stage};
use super::super::shifted::shifted_costs;
use super::super::squared::search_copy;
use super::{Step, Work};
use std::alloc::{AllocError, Global};

// Problems with no more pairs are searched where they are: a copy takes longer than it saves.
const MOST_IN_PLACE: usize = 1 << 10;

// Problems with more pairs aren't copied: a core is faster.
const MOST_NARROW: usize = 1 << 21;

// Problems with more pairs aren't copied where a core isn't enough.
pub const MOST_COPIED: usize = 1 << 24;

// Whether searches over a copy in 32 bits are fastest. With many more objects than persons few pairs
// are looked at, and a copy takes longer than these.
pub fn is_middle<R: Reading<i64>>(matrix: &Matrix<'_, i64, R>) -> bool {
    matrix.pairs() <= MOST_NARROW && matrix.persons > matrix.objects / 8 * 5
}

impl<'a> Work<'a> {
    // Bids and searches over a copy of the costs, if there may be one and all sums fit it. A small
    // problem needs no copy.
    pub fn search_copied<R: Reading<i64>>(
        &mut self,
        alloc: Global,
        matrix: &Matrix<'_, i64, R>,
    ) -> Result<Option<Step>, AllocError> {
        if !self.may_copy {
            return Ok(None);
        }
        let before = self.record;
        let step = self.search_by_rows(alloc, matrix)?;
        if step.is_none() {
            self.record = before;
        }
        Ok(step)
    }

    // What follows on an end of searches over a copy; nothing if they found nothing.
    fn after_copy<R: Reading<i64>>(
        &mut self,
        alloc: Global,
        matrix: &Matrix<'_, i64, R>,
        ended: Ended,
    ) -> Result<Option<Step>, AllocError> {
        match ended {
            Ended::Assigned => Ok(Some(self.lower(alloc, matrix)?)),
            Ended::Stopped => Ok(Some(Step::End(Outcome::Stopped))),
            Ended::Near | Ended::Long | Ended::Blocked => Ok(None),
        }
    }

    // Searches over the costs of a small problem, and else over a copy without loss. Nothing if they don't
    // fit it.
    fn search_by_rows<R: Reading<i64>>(
        &mut self,
        alloc: Global,
        matrix: &Matrix<'_, i64, R>,
    ) -> Result<Option<Step>, AllocError> {
        if matrix.pairs() <= MOST_IN_PLACE {
            self.may_copy = false;
            let (record, arc_scans) = (&mut self.record, &mut self.arc_scans);
            let ended = search_market(alloc, matrix, &mut self.market, record, arc_scans)?;
            self.market.enter_objects();
            return self.after_copy(alloc, matrix, ended);
        }
        if let Some(costs) = narrow_costs(alloc, matrix)? {
            let ended = self.search_narrow(alloc, costs)?;
            return self.after_copy(alloc, matrix, ended);
        }
        match capped_costs(alloc, matrix)? {
            Some(capped) => self.search_capped(alloc, matrix, capped),
            None => Ok(None),
        }
    }

    // Searches over a copy in which costs far above all others are cut. If a person's own is one of
    // these, searches over all costs follow.
    fn search_capped<R: Reading<i64>>(
        &mut self,
        alloc: Global,
        matrix: &Matrix<'_, i64, R>,
        capped: Capped,
    ) -> Result<Option<Step>, AllocError> {
        let ended = self.search_narrow(alloc, capped.costs)?;
        if let Ended::Assigned = ended {
            if is_cut(matrix, &self.market, capped.first) {
                self.record.passes = 0;
                return Ok(Some(Step::To(Stage::Retry)));
            }
        }
        self.after_copy(alloc, matrix, ended)
    }

    // Searches over a copy in whole units of a power of 2. It leaves prices at which each person's object
    // is nearly a best one, and these give a core.
    pub fn search_shifted<R: Reading<i64>>(
        &mut self,
        alloc: Global,
        matrix: &Matrix<'_, i64, R>,
    ) -> Result<Option<Step>, AllocError> {
        if !self.may_copy {
            return Ok(None);
        }
        let before = self.record;
        let (shifted, costs) = shifted_costs(alloc, matrix)?;
        if self.record.stage.is_copied() && !shifted.enter(self.market.prices) {
            return Ok(None);
        }
        let ended = self.search_narrow(alloc, costs)?;
        shifted.restore(self.market.prices);
        match ended {
            Ended::Assigned if shifted.shift > 0 => {
                self.record.passes = 1;
                Ok(Some(Step::To(Stage::Core)))
            }
            Ended::Assigned | Ended::Stopped => self.after_copy(alloc, matrix, ended),
            Ended::Near | Ended::Long | Ended::Blocked => {
                self.market.release_all();
                self.record = before;
                Ok(None)
            }
        }
    }

    fn search_narrow(&mut self, alloc: Global, costs: Vec<i32>) -> Result<Ended, AllocError> {
        self.may_copy = false;
        let mut prices = narrow_prices(alloc, self.market.prices)?;
        let (mut record, mut arc_scans) = (self.record, self.arc_scans);
        let objects = &mut *self.market.objects;
        let slice = prices.as_mut_slice();
        let ended = search_copy(alloc, costs, slice, objects, &mut record, &mut arc_scans)?;
        self.record = record;
        self.arc_scans = arc_scans;
        widen(prices.as_slice(), self.market.prices);
        self.market.enter_objects();
        Ok(ended)
    }

    // Goes on over a copy where an earlier call stopped, or without one if the budget is too short.
    pub fn resume_copied<R: Reading<i64>>(
        &mut self,
        alloc: Global,
        matrix: &Matrix<'_, i64, R>,
    ) -> Result<Step, AllocError> {
        if let Some(step) = self.search_copied(alloc, matrix)? {
            return Ok(step);
        }
        if let Some(step) = self.search_shifted(alloc, matrix)? {
            return Ok(step);
        }
        self.record.passes = 0;
        Ok(Step::To(Stage::Finish))
    }

    // Whether searches over a copy can follow on a core. With more objects than persons larger cores
    // and the auction are faster: sums of 1,500 x 2,628 take a ninth of the time.
    pub fn may_copy_later<R: Reading<i64>>(&self, matrix: &Matrix<'_, i64, R>) -> bool {
        self.may_copy && matrix.persons == matrix.objects && matrix.pairs() <= MOST_COPIED
    }
}
