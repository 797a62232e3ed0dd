// How a search ends: unowned objects come down.
use super::super::problem::Scaled;
use super::super::record::{Record, Stage};
use super::super::tight::settle;
use super::super::unowned::{bring_down, bring_down_many};
use super::{Run, RunEnd};
use std::alloc::AllocError;

// More are brought down together.
const MANY_OVERPRICED: usize = 32;

// Where the last stage goes on: many objects come down together, or one by one, or none is overpriced.
const TOGETHER: u32 = 1;

const ONE_BY_ONE: u32 = 2;

const NONE_DEAR: u32 = 3;

impl<'a> Run<'a> {
    // After each person is assigned: unowned objects have to be as cheap as any.
    pub fn after_all(&mut self) -> Option<RunEnd> {
        if self.problem.is_square() {
            self.record = self.record.with_stage(Stage::LastPaths);
            return self.finish();
        }
        self.record = self.record.with_stage(Stage::Unowned);
        None
    }

    // Whether pairs are tight and unowned objects cheap, as a search leaves them.
    fn is_settled(&mut self) -> bool {
        let scaled = self.scaled();
        let _ = settle(scaled, &mut self.market, 0, &mut self.arc_scans);
        self.market.count_unassigned() == 0 && self.market.count_overpriced() == 0
    }

    // The end, after one more pass over all pairs where the search went on from a record. If it isn't
    // settled then, it begins again: prices beyond all sums, which each call cuts, would never let it end.
    fn finish(&mut self) -> Option<RunEnd> {
        if self.is_resumed && self.arc_scans.is_spent() {
            return None;
        }
        let was_resumed = self.is_resumed;
        self.is_resumed = false;
        let is_settled = !was_resumed || self.is_settled();
        if !is_settled {
            self.record = Record::cold();
            return None;
        }
        let shift = self.scaled().shift;
        self.market.bring_to_costs(shift);
        Some(RunEnd::Best)
    }

    // In the unit of the costs, in which many prices are the least one.
    fn begin_unowned(&mut self) -> Result<(), AllocError> {
        let shift = self.scaled().shift;
        self.market.bring_to_costs(shift);
        self.record.shift = 0;
        let scaled = self.scaled();
        self.lower_overpriced(scaled)?;
        self.record.place = TOGETHER;
        Ok(())
    }

    pub fn bring_down_unowned(&mut self) -> Result<Option<RunEnd>, AllocError> {
        if self.record.place == 0 {
            self.begin_unowned()?;
            return Ok(None);
        }
        let scaled = self.scaled();
        for _object in 0..self.problem.objects {
            if self.record.place >= NONE_DEAR {
                return Ok(self.finish());
            }
            self.bring_some_down(scaled)?;
            if self.arc_scans.is_spent() {
                return Ok(None);
            }
        }
        Ok(self.finish())
    }

    // Brings down many overpriced unowned objects, or a single one. If most of many stay overpriced, single ones are
    // faster. The record keeps that, since calls that each begin with many may never end.
    fn bring_some_down(&mut self, scaled: Scaled<'_>) -> Result<(), AllocError> {
        let (search, market, arc_scans) = (&mut self.search, &mut self.market, &mut self.arc_scans);
        let are_together = self.record.place == TOGETHER;
        let overpriced = if are_together {
            market.count_overpriced()
        } else {
            0
        };
        if overpriced > MANY_OVERPRICED {
            bring_down_many(self.alloc, search, scaled, market, arc_scans)?;
            if market.count_overpriced()
                >= overpriced.saturating_sub(overpriced / MANY_OVERPRICED)
            {
                self.record.place = ONE_BY_ONE;
            }
            return Ok(());
        }
        let is_one_down = bring_down(search, scaled, market, arc_scans)?;
        self.record.place = if is_one_down { ONE_BY_ONE } else { NONE_DEAR };
        Ok(())
    }
}
