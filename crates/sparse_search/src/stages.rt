// The search by stages, each of which goes on from what the last one left.
mod beginning;
mod ending;
mod phases;
mod searches;

use super::auction::Ahead;
use super::components::Components;
use super::market::Market;
use super::matching::Matching;
use super::path::PathSearch;
use super::problem::{Scaled, SparseProblem};
use super::record::{Record, Stage};
use phases::MOST_SHIFT;
use search_base::{ArcScans, place_at};
use std::alloc::{AllocError, Global};

// No slackness is greater: costs lie at most 2 * 10^12 apart.
const MOST_SLACKNESS: i64 = 1 << 51;

/// A search on its way.
#[derive(Drop)]
pub struct Run<'a> {
    alloc: Global,
    problem: SparseProblem<'a>,
    pub market: Market,
    search: PathSearch,
    pub record: Record,
    arc_scans: ArcScans,
    ahead: Ahead,
    // Once a stage asked for it.
    spread: Option<i64>,
    // Whether it goes on from a record, which may hold anything.
    is_resumed: bool,
    // Whether the first searches have their second turn, after an auction that didn't end.
    is_second: bool,
}

/// How it ended.
#[derive(Drop)]
pub enum RunEnd {
    Best,
    /// Persons who together list fewer objects than they are.
    Hall(Vec<u32>),
    Stopped,
    /// Pairs in no assignment should be dropped first.
    Drops(Components),
    Lost,
}

impl<'a> Run<'a> {
    /// Begins or goes on from these prices, objects and the record.
    pub fn begin(
        alloc: Global,
        problem: SparseProblem<'a>,
        prices: &[i64],
        objects: &[u32],
        record: Record,
        limit: u64,
    ) -> Result<Run<'a>, AllocError> {
        let mut market = Market::new(alloc, problem.persons(), problem.objects)?;
        market.set_prices(prices);
        market.take_plan(objects);
        let slackness = record.slackness.max(0).min(MOST_SLACKNESS);
        Ok(Run {
            alloc,
            problem,
            market,
            search: PathSearch::new(alloc, problem.objects)?,
            record: Record {
                slackness,
                ..record
            },
            arc_scans: ArcScans {
                done: record.arc_scans,
                limit,
            },
            ahead: Ahead { objects: 0 },
            spread: None,
            is_resumed: !matches!(record.stage, Stage::Cold | Stage::Warm),
            is_second: false,
        })
    }

    // The greatest cost less the least one.
    fn spread(&mut self) -> i64 {
        match self.spread {
            Some(spread) => spread,
            None => {
                let spread = self.problem.spread();
                self.spread = Some(spread);
                spread
            }
        }
    }

    fn scaled(&self) -> Scaled<'a> {
        Scaled {
            problem: self.problem,
            shift: self.record.shift.min(MOST_SHIFT),
        }
    }

    fn persons(&self) -> u64 {
        self.problem.persons() as u64
    }

    fn pairs(&self) -> u64 {
        self.problem.pairs.len() as u64
    }

    /// All stages up to the end, or until the arc scans are spent.
    pub fn run(&mut self) -> Result<RunEnd, AllocError> {
        for _stage in 0..u32::MAX {
            let end = match self.step()? {
                None if self.arc_scans.is_spent() => Some(RunEnd::Stopped),
                end => end,
            };
            if let Some(end) = end {
                self.record.arc_scans = self.arc_scans.done;
                return Ok(end);
            }
        }
        Ok(RunEnd::Lost)
    }

    fn step(&mut self) -> Result<Option<RunEnd>, AllocError> {
        match self.record.stage {
            Stage::Cold => return self.begin_cold(),
            Stage::Warm => self.begin_warm()?,
            Stage::Bids => self.first_bids(),
            Stage::WarmTight => self.match_warm()?,
            Stage::FirstTight => self.match_tight(Stage::FirstPaths)?,
            Stage::FirstPaths => return self.first_paths(),
            Stage::Auction => return self.auction(),
            Stage::Help => return self.help(),
            Stage::Matching => return self.go_on_matching(),
            Stage::LastTight => self.match_tight(Stage::LastPaths)?,
            Stage::LastPaths => return self.last_paths(),
            Stage::Unowned => return self.bring_down_unowned(),
        }
        Ok(None)
    }
}

/// The first person who lists nothing.
pub fn first_without_pairs(problem: SparseProblem<'_>) -> Option<u32> {
    for person in 0..place_at(problem.persons()) {
        if problem.row(person).is_empty() {
            return Some(person);
        }
    }
    None
}
