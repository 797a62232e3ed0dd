// How a search begins: first bids, somebody's prices, tight pairs.
use super::super::bids::{bid_all, set_first_prices};
use super::super::problem::Scaled;
use super::super::record::Stage;
use super::super::tight::{count_slack, match_tight, settle};
use super::super::unowned::lower_unowned;
use super::{Run, RunEnd};
use std::alloc::AllocError;

// The numbers come from measurements; no answer depends on them.
// Bids without slackness, for each person.
const FIRST_BIDS: u64 = 2;

// From so many pairs on a Hall set of all persons does: 100,000 persons of three pairs each took 25 times as
// long to show one of fewer. People read those of smaller problems, and few names help them more.
const MANY_PAIRS: usize = 1 << 18;

// With more objects than persons by this part, and prices below this part of the costs' spread, a
// search without first prices is short.
const WIDE: usize = 8;

const CHEAP: i64 = 3;

const SAMPLE: usize = 4;

// Prices are left if more persons than this part find no object by them.
const MOST_LEFT: usize = 32;

// So many unowned objects come down one by one.
const FEW_DEAR: usize = 4;

impl<'a> Run<'a> {
    // In a square in which nobody lists some object all persons together list too few. Where there are few
    // pairs a matching finds fewer persons who do.
    fn refuse(&mut self) -> Result<Option<RunEnd>, AllocError> {
        if self.problem.pairs.len() >= MANY_PAIRS {
            return Ok(Some(RunEnd::Hall(self.market.unassigned(self.alloc)?)));
        }
        self.record = self.record.with_stage(Stage::Matching);
        Ok(None)
    }

    pub fn begin_cold(&mut self) -> Result<Option<RunEnd>, AllocError> {
        self.market.release_all();
        self.market.clear_prices();
        if self.problem.is_square() {
            self.arc_scans.add(self.problem.pairs.len());
            let are_listed = set_first_prices(self.problem, &mut self.market);
            if !are_listed {
                return self.refuse();
            }
        }
        self.record.shift = 0;
        self.record.slackness = 0;
        self.record = self.record.with_stage(Stage::Bids);
        self.record.bids = self.most_first_bids();
        Ok(None)
    }

    fn most_first_bids(&self) -> u64 {
        let bids = FIRST_BIDS.saturating_mul(self.persons());
        if self.problem.is_square() {
            bids
        } else {
            bids.saturating_mul(2)
        }
    }

    pub fn first_bids(&mut self) {
        let (scaled, first) = (self.scaled(), self.record.place);
        let most = self.record.bids.min(self.most_first_bids());
        let (ended, left) = bid_all(scaled, &mut self.market, first, most, &mut self.arc_scans);
        self.record.place = ended;
        self.record.bids = left;
        if (ended as usize) >= self.problem.persons() {
            self.record = self.record.with_stage(self.after_bids());
        }
    }

    // With a limit an assignment is known to exist after an auction that was left.
    fn after_bids(&self) -> Stage {
        if self.record.has_assignment && self.arc_scans.limit < u64::MAX && !self.is_second {
            Stage::LastTight
        } else {
            Stage::FirstTight
        }
    }

    // From somebody's prices and objects: an auction would begin with the mean slack.
    pub fn begin_warm(&mut self) -> Result<(), AllocError> {
        self.record.shift = 0;
        let scaled = self.scaled();
        let is_easy = self.is_easy();
        let is_far = is_easy && count_slack(scaled, &self.market, SAMPLE, &mut self.arc_scans) > 0;
        if is_far || (self.settle_first(scaled) > 0 && is_easy) {
            self.record = self.record.with_stage(Stage::Cold);
            return Ok(());
        }
        self.lower_overpriced(scaled)?;
        self.record = self.record.with_stage(Stage::WarmTight);
        self.record.place = 1;
        Ok(())
    }

    // Keeps tight pairs alone, and notes the mean slack, or 0 if prices fit too few persons. Returns how
    // many persons have no object.
    fn settle_first(&mut self, scaled: Scaled<'_>) -> usize {
        let spread = self.spread();
        let sum = settle(scaled, &mut self.market, spread / 25, &mut self.arc_scans);
        let persons = (self.persons() & 0xffff_ffff) as i64;
        let mean = sum.checked_div(persons).unwrap_or(0);
        self.record.slackness = if mean < spread / 50 { mean.max(1) } else { 0 };
        self.market.count_unassigned()
    }

    // Whether there are far more objects than persons, and they are cheap. A search without first prices
    // takes a few passes over all pairs then.
    fn is_easy(&mut self) -> bool {
        let persons = self.problem.persons();
        self.problem.objects > persons.saturating_add(persons / WIDE)
            && self.market.mean_price() < self.spread() / CHEAP
    }

    // Tight pairs at somebody's prices. Prices that fit few persons are left.
    pub fn match_warm(&mut self) -> Result<(), AllocError> {
        self.match_tight(Stage::FirstPaths)?;
        let is_over = matches!(self.record.stage, Stage::FirstPaths);
        let most = self.problem.persons() / MOST_LEFT;
        if is_over && self.record.slackness == 0 && self.market.count_unassigned() > most {
            self.record = self.record.with_stage(Stage::Cold);
        }
        Ok(())
    }

    // Lowers the prices of unowned objects, unless searches for each are sooner done.
    pub fn lower_overpriced(&mut self, scaled: Scaled<'_>) -> Result<(), AllocError> {
        if self.market.count_overpriced() > FEW_DEAR {
            lower_unowned(self.alloc, scaled, &mut self.market, &mut self.arc_scans)?;
        }
        Ok(())
    }

    // Keeps tight pairs alone, and assigns persons by them. Then this stage comes.
    pub fn match_tight(&mut self, next: Stage) -> Result<(), AllocError> {
        let scaled = self.scaled();
        let place = self.record.place;
        if place == 0 {
            let _ = settle(scaled, &mut self.market, 0, &mut self.arc_scans);
            self.record.place = 1;
            return Ok(());
        }
        let first = place.saturating_sub(1);
        let ended = match_tight(
            self.alloc,
            scaled,
            &mut self.market,
            first,
            &mut self.arc_scans,
        )?;
        self.record.place = ended.saturating_add(1);
        if (ended as usize) >= self.problem.persons() {
            self.record = self.record.with_stage(next);
            self.record.bids = self.arc_scans.done;
            self.record.dummy_bids = 0;
            self.record.usual = 0;
        }
        Ok(())
    }
}
