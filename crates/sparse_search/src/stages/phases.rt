// The auction in phases, and what helps where its bids don't end.
use super::super::auction::{Queue, Terms, bid_for_dummies, bid_from_queue};
use super::super::components::find_components;
use super::super::forecast::SECOND;
use super::super::matching::{Known, Matching};
use super::super::problem::SparseProblem;
use super::super::record::Stage;
use super::searches::{Assigned, end_if_blocked};
use super::{Run, RunEnd};
use std::alloc::AllocError;

// The bids of a phase for each person, after which a matching without costs is asked for.
const BIDS_BEFORE_MATCHING: u64 = 12;

// The bids of a phase for each person, after which searches help.
const BIDS_BEFORE_SEARCHES: u64 = 24;

// If more persons than this part still wait before a matching, the first searches have a second turn.
const MANY_WAIT: usize = 256;

// The arc scans of these searches for each pair.
const SEARCH_ARC_SCANS: u64 = 32;

// The phases' slackness falls by this factor.
const FALL: i64 = 5;

// The most bids of dummies in a phase.
const DUMMY_BIDS: u32 = 4;

// Costs count at most 2 to this power times.
pub const MOST_SHIFT: u32 = 9;

// The power of 2 by which costs are multiplied, as far as sums stay in range.
fn shift_for(problem: SparseProblem<'_>, spread: i64) -> u32 {
    let steps = (problem.objects as u64).max(1);
    let wide = spread.unsigned_abs().saturating_add(1);
    let mut room = ((1u64 << 61) / steps).checked_div(wide).unwrap_or(0);
    let mut shift = 0u32;
    for _doubling in 0..MOST_SHIFT {
        if room >= 2 {
            room /= 2;
            shift = shift.wrapping_add(1);
        }
    }
    shift
}

impl<'a> Run<'a> {
    pub fn begin_auction(&mut self) {
        self.is_second = false;
        let spread = self.spread();
        let shift = shift_for(self.problem, spread);
        if self.record.slackness > 0 {
            self.market.scale_prices(shift);
            self.record.slackness = self.record.slackness.wrapping_shl(shift);
        } else {
            self.market.clear_prices();
            self.record.slackness = spread.wrapping_shl(shift) / FALL;
        }
        self.record.slackness = self.record.slackness.max(1);
        self.record.shift = shift;
        self.begin_phase();
        self.record = self.record.with_stage(Stage::Auction);
    }

    fn begin_phase(&mut self) {
        self.market.release_all();
        self.record.bids = 0;
        self.record.dummy_bids = 0;
    }

    fn terms(&mut self) -> Terms {
        let scaled_spread = self.spread().wrapping_shl(self.scaled().shift);
        Terms {
            slackness: self.record.slackness.max(1),
            lone_raise: scaled_spread.wrapping_mul(2).wrapping_add(1),
        }
    }

    // The bids of a phase, and searches or a matching where bids don't end.
    pub fn auction(&mut self) -> Result<Option<RunEnd>, AllocError> {
        let (scaled, terms) = (self.scaled(), self.terms());
        let mut queue = Queue::of(self.alloc, &self.market)?;
        let most = if self.record.has_assignment {
            BIDS_BEFORE_SEARCHES
        } else {
            BIDS_BEFORE_MATCHING
        };
        let most = most
            .saturating_mul(self.persons())
            .saturating_sub(self.record.bids);
        let made = bid_from_queue(
            scaled,
            &mut self.market,
            &mut queue,
            terms,
            most,
            &mut self.arc_scans,
            &mut self.ahead,
        );
        self.record.bids = self.record.bids.saturating_add(made);
        if queue.is_empty() && made <= most {
            self.end_phase()?;
            return Ok(None);
        }
        if self.arc_scans.is_spent() {
            return Ok(None);
        }
        if self.record.has_assignment {
            self.begin_help();
            Ok(None)
        } else {
            self.find_matching(false)
        }
    }

    fn begin_help(&mut self) {
        let most = SEARCH_ARC_SCANS
            .saturating_mul(self.pairs())
            .max(self.arc_scans.done / 2);
        self.record = self.record.with_stage(Stage::Help);
        self.record.bids = self.arc_scans.done.saturating_add(most);
    }

    // Searches for those who still wait, at the slackness of the phase.
    pub fn help(&mut self) -> Result<Option<RunEnd>, AllocError> {
        let waiting = self.market.unassigned(self.alloc)?;
        let most = self.record.bids.saturating_sub(self.arc_scans.done);
        let assigned = self.augment_all(
            waiting.as_slice(),
            self.arc_scans.within(most),
            &mut None,
        )?;
        if self.arc_scans.is_spent() && self.arc_scans.done < self.record.bids {
            return Ok(end_if_blocked(assigned));
        }
        self.record = self.record.with_stage(Stage::Auction);
        self.record.bids = 0;
        match assigned {
            Assigned::All => self.end_phase()?,
            Assigned::Hall(persons) => return Ok(Some(RunEnd::Hall(persons))),
            Assigned::Spent | Assigned::Slow => {}
        }
        Ok(None)
    }

    fn end_phase(&mut self) -> Result<(), AllocError> {
        if !self.problem.is_square() && self.record.dummy_bids < DUMMY_BIDS {
            self.record.dummy_bids = self.record.dummy_bids.wrapping_add(1);
            self.arc_scans.add(self.problem.objects);
            if bid_for_dummies(self.alloc, &mut self.market, self.record.slackness)? {
                return Ok(());
            }
        }
        if self.record.slackness <= 1 {
            self.record = self.record.with_stage(Stage::LastTight);
        } else {
            self.record.slackness = (self.record.slackness / FALL).max(1);
            self.begin_phase();
        }
        Ok(())
    }

    // A matching that was stopped: the phase begins again after it.
    pub fn go_on_matching(&mut self) -> Result<Option<RunEnd>, AllocError> {
        self.record = self.record.with_stage(Stage::Auction);
        self.find_matching(true)
    }

    // Whether an assignment exists, and whether some pairs are in none.
    fn find_matching(&mut self, begins_anew: bool) -> Result<Option<RunEnd>, AllocError> {
        let begun = self.arc_scans.done;
        let objects = self.market.objects.as_slice();
        let mut matching = Matching::begin(self.alloc, self.problem, objects, &mut self.arc_scans)?;
        let is_fresh = begun == self.record.arc_scans;
        let known = matching.grow(self.problem, is_fresh, &mut self.arc_scans)?;
        let is_known = is_fresh && self.arc_scans.done == begun;
        match known {
            Known::Full if is_known || self.has_room() => {
                self.record.has_assignment = true;
                if begins_anew {
                    self.begin_phase();
                }
                let Matching { owners, .. } = matching;
                self.look_for_components(owners)
            }
            Known::Blocked(person) => {
                matching.blocked_persons(self.problem, person)?;
                let persons = Vec::from_slice(self.alloc, matching.persons())?;
                Ok(Some(RunEnd::Hall(persons)))
            }
            Known::Full | Known::Open => {
                self.market.take_plan(matching.objects.as_slice());
                self.record = self.record.with_stage(Stage::Matching);
                Ok(Some(RunEnd::Stopped))
            }
        }
    }

    // Whether arc scans for the passes are left that find and drop pairs.
    fn has_room(&self) -> bool {
        let passes = self.pairs().saturating_mul(3);
        self.arc_scans.done.saturating_add(passes) <= self.arc_scans.limit
    }

    // The first searches once more, where many still wait after so many bids. They end within a call.
    fn begin_second(&mut self) -> Result<Option<RunEnd>, AllocError> {
        let most = SECOND.saturating_mul(2).saturating_mul(self.pairs());
        let do_many_wait = self.market.count_unassigned() > self.problem.persons() / MANY_WAIT;
        if !self.problem.is_square() || !do_many_wait || self.arc_scans.left() < most {
            return Ok(None);
        }
        self.is_second = true;
        self.begin_cold()
    }

    // Drops pairs if at least a twentieth is in no assignment. A search with a limit would have to find
    // them in each call: it drops pairs if a single plan is left, and else leaves the auction.
    fn look_for_components(&mut self, owners: Vec<u32>) -> Result<Option<RunEnd>, AllocError> {
        let components = find_components(self.alloc, self.problem, owners, &mut self.arc_scans)?;
        let kept = components.count_kept(self.problem);
        let pairs = self.problem.pairs.len();
        if kept >= pairs.saturating_sub(pairs / 20) {
            return self.begin_second();
        }
        if self.arc_scans.limit == u64::MAX || kept == self.problem.persons() {
            return Ok(Some(RunEnd::Drops(components)));
        }
        self.begin_cold()
    }
}
