// A search on its way: bids, repair, and what a call leaves to the next one.
use super::super::auction::Auction;
use super::super::layout::Layout;
use super::super::numbers::Numbers;
use super::super::phases::{BIDS_OF_A_HAND, Ended, first_slackness};
use super::super::problem::{CostRange, Problem};
use super::super::record::{AUCTION, COLD, REPAIR, Record, WARM};
use super::super::repair::{PathEnd, Repair, answer_all};
use super::super::shortage::{Lack, Marks, find_shortage};
use super::super::state::{MOST_FIRST_NUMBER, MOST_NUMBER, State};
use super::super::values::{copy_numbers, count_at, set_byte, unsigned};
use super::{Answer, Found, copy_bytes, found_of};
use search_base::{ArcScans, place_at};
use std::alloc::{AllocError, Global};

// A repair from a plan goes up to so many looks at each pair, and at each pair for each hand of its row;
// then the auction begins.
const WARM_ARC_SCANS: u64 = 4;

const WARM_ARC_SCANS_OF_A_HAND: u64 = 2;

// A search on its way.
#[derive(Drop)]
pub struct OpenSearch<'a, 'b> {
    pub alloc: Global,
    pub problem: &'a Problem<'b>,
    pub range: CostRange,
    pub state: State,
    pub marks: Marks,
    pub arc_scans: ArcScans,
    pub record: Record,
    pub budget: u64,
}

// How the bids ended.
enum Bids {
    Done,
    Lack(Lack),
    Stopped,
}

impl OpenSearch<'_, '_> {
    // The auction, and its cut, with a shortage if it shows one.
    fn bid(&mut self, answer: &mut Answer<'_>) -> Result<Bids, AllocError> {
        let Some(layout) = Layout::of(self.alloc, self.problem, &self.state, self.range)? else {
            return Ok(Bids::Done);
        };
        let mut auction = Auction::for_layout(
            self.alloc,
            self.problem,
            &self.state,
            layout,
            self.arc_scans,
        )?;
        if self.record.stage == AUCTION {
            self.resume(&mut auction, layout, answer)?;
        } else {
            auction.begin_phase(
                &mut self.state,
                layout,
                first_slackness(layout),
                BIDS_OF_A_HAND,
            );
        }
        auction.arc_scans.limit = self.limit_from(auction.arc_scans.done);
        let ended = auction.run(self.alloc, self.problem, &mut self.state, layout)?;
        self.arc_scans = auction.arc_scans;
        self.end_bids(answer, &auction, layout, ended)
    }

    fn resume(
        &mut self,
        auction: &mut Auction,
        layout: Layout,
        answer: &Answer<'_>,
    ) -> Result<(), AllocError> {
        self.state.take_plan(self.problem, answer.plan);
        auction.resume(
            self.problem,
            &mut self.state,
            layout,
            self.record,
            answer.row_numbers,
            answer.column_numbers,
        )
    }

    // Where the arc scans end that begin here.
    fn limit_from(&self, done: u64) -> u64 {
        if self.budget == 0 {
            u64::MAX
        } else {
            done.saturating_add(self.budget)
        }
    }

    fn end_bids(
        &mut self,
        answer: &mut Answer<'_>,
        auction: &Auction,
        layout: Layout,
        ended: Ended,
    ) -> Result<Bids, AllocError> {
        if matches!(ended, Ended::Spent) {
            self.keep_auction(answer, auction);
            return Ok(Bids::Stopped);
        }
        self.record.stage = REPAIR;
        if matches!(ended, Ended::Best) {
            return Ok(Bids::Done);
        }
        auction.cut_prices(self.alloc, &mut self.state, layout)?;
        if matches!(ended, Ended::Settled) {
            return Ok(Bids::Done);
        }
        let lack = find_shortage(self.alloc, self.problem, &mut self.state, &mut self.marks)?;
        match lack {
            Some(lack) => Ok(Bids::Lack(lack)),
            None => Ok(Bids::Done),
        }
    }

    // Writes where an auction stands.
    fn keep_auction(&mut self, answer: &mut Answer<'_>, auction: &Auction) {
        let terms = auction.terms;
        self.record.stage = AUCTION;
        self.record.slackness = unsigned(terms.slackness);
        self.record.outside = unsigned(self.state.price(self.state.outside()));
        self.record.bids = terms.budget.saturating_sub(auction.bids);
        self.record.limit = unsigned(terms.limit);
        copy_bytes(answer.plan, self.state.plan.as_slice());
        copy_numbers(answer.column_numbers, self.state.prices.as_slice());
        for (entry, out) in answer.row_numbers.iter_mut().zip(&auction.out) {
            *entry = i64::from(*out);
        }
    }

    // Writes where a repair stands.
    fn keep_repair(&self, answer: &mut Answer<'_>) {
        copy_bytes(answer.plan, self.state.plan.as_slice());
        let outside = self.state.price(self.state.outside());
        for (entry, price) in answer.column_numbers.iter_mut().zip(&self.state.prices) {
            *entry = outside.wrapping_sub(*price);
        }
    }

    // Answers and shortest paths. None if a repair from a plan takes too long.
    fn repair(&mut self, answer: &mut Answer<'_>) -> Result<Option<Found>, AllocError> {
        answer_all(
            self.alloc,
            self.problem,
            &mut self.state,
            &mut self.arc_scans,
        )?;
        self.arc_scans.limit = self.limit_from(self.arc_scans.done);
        let mut repair = Repair::new(self.alloc, self.problem, &self.state, self.arc_scans)?;
        let found = self.augment_all(answer, &mut repair)?;
        self.arc_scans = repair.arc_scans;
        Ok(found)
    }

    fn augment_all(
        &mut self,
        answer: &mut Answer<'_>,
        repair: &mut Repair,
    ) -> Result<Option<Found>, AllocError> {
        for _path in 0..u64::MAX {
            match repair.augment(self.problem, &mut self.state)? {
                PathEnd::Assigned => self.record.paths = self.record.paths.wrapping_add(1),
                PathEnd::Balanced => return Ok(Some(Found::Plan)),
                PathEnd::Blocked => return Ok(Some(found_of(self.mark_blocked(repair)))),
            }
            if self.record.stage == WARM && repair.arc_scans.done >= self.record.until {
                return Ok(None);
            }
            if repair.arc_scans.is_spent() {
                self.keep_repair(answer);
                return Ok(Some(Found::Stopped));
            }
        }
        Ok(Some(Found::Nothing))
    }

    // What was reached, or what wasn't, is a shortage.
    fn mark_blocked(&mut self, repair: &Repair) -> Lack {
        let is_outside = repair.is_passed(self.state.outside());
        let lack = if is_outside {
            Lack::Columns
        } else {
            Lack::Rows
        };
        for column in 0..self.problem.column_count() {
            let most = count_at(self.problem.column_most, column);
            let is_whole = count_at(self.state.column_most.as_slice(), column) == most;
            let is_passed = repair.is_passed(column);
            let is_marked = if is_outside {
                !is_passed
            } else {
                is_passed && is_whole
            };
            set_byte(
                self.marks.columns.as_mut_slice(),
                column,
                u8::from(is_marked),
            );
        }
        let _ = self.marks.mark_rows(self.problem, &mut self.state, lack);
        lack
    }

    // The arc scans of a repair from a plan.
    fn most_warm_arc_scans(&self) -> u64 {
        let pairs = self.problem.columns.len() as u64;
        let mut most = pairs.saturating_mul(WARM_ARC_SCANS);
        for row in 0..place_at(self.problem.row_count()) {
            let listed = self.problem.row(row).columns.len() as u64;
            let hands = u64::from(self.state.most_of(row));
            let arc_scans = listed.saturating_mul(hands);
            most = most.saturating_add(arc_scans.saturating_mul(WARM_ARC_SCANS_OF_A_HAND));
        }
        most
    }

    // From numbers and a plan, or from where a repair stood. None if that takes too long.
    fn go_on(&mut self, answer: &mut Answer<'_>) -> Result<Option<Found>, AllocError> {
        let is_first = self.record.stage == WARM && self.record.until == 0;
        let most = if is_first {
            MOST_FIRST_NUMBER
        } else {
            MOST_NUMBER
        };
        self.state.take_numbers(answer.column_numbers, most);
        self.state.take_plan(self.problem, answer.plan);
        if is_first {
            let most = self.most_warm_arc_scans();
            self.record.until = self.arc_scans.done.saturating_add(most);
        }
        let found = self.repair(answer)?;
        if found.is_none() {
            self.state.clear_prices();
            self.record.stage = COLD;
        }
        Ok(found)
    }

    pub fn run(&mut self, answer: &mut Answer<'_>) -> Result<Found, AllocError> {
        if self.record.stage == WARM || self.record.stage == REPAIR {
            if let Some(found) = self.go_on(answer)? {
                return Ok(found);
            }
        }
        match self.bid(answer)? {
            Bids::Stopped => return Ok(Found::Stopped),
            Bids::Lack(lack) => return Ok(found_of(lack)),
            Bids::Done => {}
        }
        self.record.stage = REPAIR;
        let found = self.repair(answer)?;
        Ok(found.unwrap_or(Found::Nothing))
    }

    // Writes what was found.
    pub fn write(&mut self, answer: &mut Answer<'_>, found: Found) -> Result<(), AllocError> {
        match found {
            Found::Plan => {
                let numbers = Numbers::of(self.alloc, self.problem, &mut self.state)?;
                answer.write_plan(&self.state, &numbers);
            }
            Found::RowsLack | Found::ColumnsLack => answer.write_marks(&self.marks),
            Found::Stopped | Found::Nothing => {}
        }
        Ok(())
    }
}
