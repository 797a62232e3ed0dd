// The auction in phases, and searches to the end after it.
use super::super::auction::auction;
use super::super::bids::bid_within;
use super::super::matrix::Matrix;
use super::super::paths::{Allowance, augment_all, lower_unowned};
use super::super::prices::magnify;
use super::super::reading::Reading;
use super::super::record::{Ended, Outcome, SHIFT, Stage};
use super::super::settling::settle_all;
use super::{Step, Work, after};
use std::alloc::{AllocError, Global};

// The first slackness of the auction is this part of what a person would gain on average.
const FIRST_DIVISOR: i64 = 5;

impl<'a> Work<'a> {
    // The auction, in whose unit costs count 2^9 times.
    pub fn bid_in_phases<R: Reading<i64>>(
        &mut self,
        alloc: Global,
        matrix: &Matrix<'_, i64, R>,
    ) -> Result<Step, AllocError> {
        if self.record.shift == 0 {
            self.record.shift = SHIFT;
            magnify(self.market.prices, SHIFT);
            let slackness = self.record.slackness / FIRST_DIVISOR;
            self.record.slackness = slackness.wrapping_shl(SHIFT).max(1);
            self.record.bids = 0;
            self.market.release_all();
        }
        let matrix = &matrix.magnified(self.record.shift);
        let record = &mut self.record;
        let arc_scans = &mut self.arc_scans;
        Ok(if auction(alloc, matrix, &mut self.market, record, arc_scans)? {
            Step::To(Stage::Finish)
        } else {
            Step::End(Outcome::Stopped)
        })
    }

    // Who keeps or takes a best object, in the unit of the prices, and bids of the others.
    fn begin_finish<R: Reading<i64>>(&mut self, matrix: &Matrix<'_, i64, R>) {
        self.arc_scans.add(settle_all(matrix, &mut self.market));
        let unassigned = self.market.unassigned();
        let _ = bid_within(matrix, &mut self.market, unassigned, &mut self.arc_scans);
        self.record.passes = 1;
    }

    // Searches to the end, in the unit of the prices.
    pub fn finish<R: Reading<i64>>(
        &mut self,
        alloc: Global,
        matrix: &Matrix<'_, i64, R>,
    ) -> Result<Step, AllocError> {
        let matrix = &matrix.magnified(self.record.shift);
        if self.record.passes == 0 {
            self.begin_finish(matrix);
        }
        let allowed = Allowance {
            most: u64::MAX,
            is_growing: false,
        };
        let ended = augment_all(
            alloc,
            matrix,
            &mut self.market,
            allowed,
            &mut self.arc_scans,
        )?;
        let Ended::Assigned = ended else {
            return Ok(after(ended, Step::End(Outcome::Best), Stage::Finish));
        };
        let ended = lower_unowned(alloc, matrix, &mut self.market, &mut self.arc_scans)?;
        Ok(after(ended, Step::End(Outcome::Best), Stage::Finish))
    }
}
