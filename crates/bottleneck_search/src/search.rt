// The search: a matching at the bound, matchings up to some thresholds, thresholds by halves, and one
// matching that grows where few persons are left.
ghost use Rattle.std.specs.Prelude.{◌≡◌, length};

use super::bounds::Bound;
use super::found::{Found, made_of, places_of, short_of, write_objects};
use super::growth::{Grown, Growth};
use super::lists::{Listed, by_rising_rows, fuller, matched, up_to, worst_of};
use super::rows::Rows;
use super::steps::{ALL, SearchState, Stage, Table};
use super::thresholds::{costs_between, count_below, sample_above};
use assign_core::Cost;
use cost_lists::{CostLists, Object, Source};
use list_solver::{Grouped, Record};
use search_base::{ArcScans, NOBODY};
use sparse_search::{Known, Matching, SparseProblem};
use std::alloc::{AllocError, Global};

// A path of a matching that grows takes about as long as a threshold over this part of all pairs.
const PATHS: usize = 64;

// A search: what it reads, where it stands, and a matching from which it goes on.
#[derive(Drop)]
struct Search<'a> {
    alloc: Global,
    table: Table<'a>,
    n: usize,
    bound: Bound,
    state: SearchState,
    kept: Vec<u32>,
    is_fresh: bool,
    // Whether a matching may still grow, and how many pairs were tried last.
    may_grow: bool,
    tried: usize,
    arc_scans: ArcScans,
}

// All pairs up to a threshold, and a plan of them.
#[derive(Drop)]
struct Held {
    listed: Listed,
    plan: Vec<u32>,
}

// The end of a step: pairs and a plan with which the search goes on, or its end.
#[derive(Drop)]
enum Step {
    On(Held),
    End(Found),
}

impl<'a> Search<'a> {
    // The arc scans of a matching without which the search can't go on.
    fn unlimited(&self) -> ArcScans {
        ArcScans {
            done: self.arc_scans.done,
            limit: u64::MAX,
        }
    }

    // A greatest matching of these pairs from the fullest one at hand, within the budget. The first one of
    // a call serves at least one person more, if it isn't the greatest.
    fn match_on(
        &mut self,
        problem: SparseProblem<'_>,
        plan: &[u32],
    ) -> Result<(Matching, Known), AllocError> {
        let rising = by_rising_rows(self.alloc, problem)?;
        let first = fuller(problem, self.kept.as_slice(), plan);
        let first = fuller(problem, first, rising.as_slice());
        let mut arc_scans = self.arc_scans;
        let ended = matched(self.alloc, problem, first, self.is_fresh, &mut arc_scans)?;
        self.arc_scans = arc_scans;
        self.is_fresh = false;
        self.tried = problem.pairs.len();
        Ok(ended)
    }

    fn stop(&mut self, stage: Stage, matching: Matching) -> Found {
        self.state.stage = stage;
        self.kept = matching.objects;
        Found::Stopped
    }

    // Whether few persons are without an object, next to the pairs of a threshold.
    fn is_nearly_full(&self, table: Table<'_>) -> bool {
        let free = self.kept.iter().filter(|object| **object == NOBODY).count();
        let pairs = table.pairs(self.n);
        self.kept.len() == self.n && free.saturating_mul(pairs) <= self.tried.saturating_mul(PATHS)
    }

    // Lets the matching that is kept grow from the low threshold on, by all pairs or by all up to a
    // threshold of a plan. If the record was wrong, the thresholds are tried from the bound on.
    fn grow(&mut self, table: Table<'_>) -> Result<Option<Found>, AllocError> {
        let mut growth = Growth::begin(self.alloc, table, self.kept.as_slice(), self.state.low)?;
        match growth.grow(table, &mut self.arc_scans)? {
            Grown::Full if growth.is_shown(table) => Ok(Some(growth.found())),
            Grown::Stopped => {
                self.state.stage = Stage::Growth;
                self.state.low = growth.threshold.saturating_sub(1);
                self.kept = growth.objects;
                Ok(Some(Found::Stopped))
            }
            _ => {
                self.may_grow = false;
                self.state.stage = Stage::Low;
                self.state.low = self.bound.cost.saturating_sub(1);
                Ok(None)
            }
        }
    }

    // The same, if the matching is nearly full.
    fn grow_if_nearly_full(&mut self, table: Table<'_>) -> Result<Option<Found>, AllocError> {
        if self.may_grow && self.is_nearly_full(table) {
            self.grow(table)
        } else {
            Ok(None)
        }
    }

    // A plan at the bound, if there is one among the pairs that are tried.
    fn try_bound(&mut self) -> Result<Option<Found>, AllocError> {
        let listed = self.table.at_bound(self.alloc, self.n, self.bound.cost)?;
        let (matching, known) = self.match_on(listed.problem(), &[])?;
        match known {
            Known::Full => {
                let short = self
                    .bound
                    .shown_by(self.alloc, self.n, self.table.objects())?;
                Ok(Some(made_of(matching.objects, short)))
            }
            Known::Blocked(_) => {
                self.kept = matching.objects;
                self.state = SearchState {
                    stage: Stage::Low,
                    low: self.bound.cost.saturating_sub(1),
                    high: ALL,
                };
                Ok(None)
            }
            Known::Open => Ok(Some(self.stop(Stage::Bound, matching))),
        }
    }

    // Tries pairs up to a threshold.
    fn try_up_to(&mut self, most: Cost) -> Result<Option<Step>, AllocError> {
        let listed = self.table.up_to(self.alloc, self.n, most)?;
        let (matching, known) = self.match_on(listed.problem(), &[])?;
        match known {
            Known::Full => {
                self.state.stage = Stage::High;
                self.state.high = worst_of(listed.problem(), matching.objects.as_slice());
                let plan = matching.objects;
                Ok(Some(Step::On(Held { listed, plan })))
            }
            Known::Blocked(person) => {
                if most == ALL {
                    let set = short_of(self.alloc, listed.problem(), matching, person)?;
                    return Ok(Some(Step::End(Found::Short(set))));
                }
                self.state.low = self.state.low.max(most);
                self.kept = matching.objects;
                Ok(None)
            }
            Known::Open => Ok(Some(Step::End(self.stop(Stage::Low, matching)))),
        }
    }

    // Tries thresholds of a sample, each twice as far above the low one, and then all pairs.
    fn begin(&mut self) -> Result<Step, AllocError> {
        let sample = self.table.sample(self.alloc)?;
        let whole = self.table.objects();
        let mut share = sample
            .len()
            .saturating_mul(10)
            .checked_div(whole)
            .unwrap_or(0);
        for _ in 0..sample.len() {
            if let Some(found) = self.grow_if_nearly_full(self.table)? {
                return Ok(Step::End(found));
            }
            let Some(most) = sample_above(sample.as_slice(), share, self.state.low) else {
                break;
            };
            if let Some(step) = self.try_up_to(most)? {
                return Ok(step);
            }
            share = share.saturating_mul(2).saturating_add(1);
        }
        match self.try_up_to(ALL)? {
            Some(step) => Ok(step),
            None => Ok(Step::End(Found::Lost)),
        }
    }

    // The plan up to the threshold that a record names.
    fn return_to_high(&mut self) -> Result<Option<Held>, AllocError> {
        let listed = self.table.up_to(self.alloc, self.n, self.state.high)?;
        let mut arc_scans = self.unlimited();
        let kept = self.kept.as_slice();
        let (matching, known) = matched(self.alloc, listed.problem(), kept, false, &mut arc_scans)?;
        match known {
            Known::Full => {
                self.state.high = worst_of(listed.problem(), matching.objects.as_slice());
                let plan = matching.objects;
                Ok(Some(Held { listed, plan }))
            }
            _ => {
                self.state.stage = Stage::Low;
                Ok(None)
            }
        }
    }

    // Looks for the least threshold up to which there is a plan, by halves.
    fn halve(&mut self, held: Held) -> Result<Step, AllocError> {
        let mut held = held;
        let (low, high) = (self.state.low, self.state.high);
        let found = costs_between(self.alloc, held.listed.pairs.as_slice(), low, high)?;
        let costs = found.as_slice();
        let (mut first, mut last) = (0usize, costs.len().saturating_sub(1));
        for _ in 0..costs.len() {
            if first >= last {
                break;
            }
            let table = Table::Pairs(held.listed.problem());
            if let Some(found) = self.grow_if_nearly_full(table)? {
                return Ok(Step::End(found));
            }
            let middle = first.wrapping_add(last.wrapping_sub(first) / 2);
            let most = costs.get(middle).copied().unwrap_or(high);
            let part = up_to(self.alloc, held.listed.problem(), most)?;
            let (matching, known) = self.match_on(part.problem(), held.plan.as_slice())?;
            match known {
                Known::Full => {
                    self.state.high = worst_of(part.problem(), matching.objects.as_slice());
                    last = count_below(costs, self.state.high).min(middle);
                    held = Held {
                        listed: part,
                        plan: matching.objects,
                    };
                }
                Known::Blocked(_) => {
                    self.state.low = most;
                    first = middle.wrapping_add(1);
                    self.kept = matching.objects;
                }
                Known::Open => return Ok(Step::End(self.stop(Stage::High, matching))),
            }
        }
        Ok(Step::On(held))
    }

    // Who shows that no plan has a better worst pair; or a plan that has one, which is only found where
    // the record was wrong.
    fn prove(&mut self, held: Held) -> Result<Step, AllocError> {
        let Held { listed, plan } = held;
        if self.state.high <= self.bound.cost {
            let short = self
                .bound
                .shown_by(self.alloc, self.n, self.table.objects())?;
            return Ok(Step::End(made_of(plan, short)));
        }
        let better = up_to(
            self.alloc,
            listed.problem(),
            self.state.high.saturating_sub(1),
        )?;
        self.arc_scans = self.unlimited();
        let (matching, known) = self.match_on(better.problem(), plan.as_slice())?;
        if let Known::Blocked(person) = known {
            let short = short_of(self.alloc, better.problem(), matching, person)?;
            return Ok(Step::End(made_of(plan, short)));
        }
        self.state.low = Cost::MIN;
        self.state.high = worst_of(better.problem(), matching.objects.as_slice());
        Ok(Step::On(Held {
            listed: better,
            plan: matching.objects,
        }))
    }

    // From pairs and a plan to the end. If the record was wrong, the second turn is from nothing.
    fn finish(&mut self, held: Held) -> Result<Found, AllocError> {
        let mut held = held;
        for _ in 0..3 {
            match self.halve(held)? {
                Step::End(found) => return Ok(found),
                Step::On(halved) => match self.prove(halved)? {
                    Step::End(found) => return Ok(found),
                    Step::On(better) => held = better,
                },
            }
        }
        Ok(Found::Lost)
    }

    fn run(&mut self) -> Result<Found, AllocError> {
        if self.state.stage == Stage::Growth {
            if let Some(found) = self.grow(self.table)? {
                return Ok(found);
            }
        }
        if self.state.stage == Stage::High {
            if let Some(held) = self.return_to_high()? {
                return self.finish(held);
            }
        }
        if self.state.stage != Stage::Low {
            if let Some(found) = self.try_bound()? {
                return Ok(found);
            }
        }
        match self.begin()? {
            Step::End(found) => Ok(found),
            Step::On(held) => self.finish(held),
        }
    }
}

// Searches from where the objects and the record stand.
fn search_in(
    alloc: Global,
    table: Table<'_>,
    objects: &mut [Object],
    record: &mut Record,
    budget: u64,
) -> Result<Found, AllocError>
    ensures { length objects.new ≡ length objects.old }
{
    let limit = if budget == 0 {
        u64::MAX
    } else {
        record.arc_scans.saturating_add(budget)
    };
    let n = objects.len();
    let state = SearchState::of(*record);
    let mut kept = Vec::from_slice(alloc, objects)?;
    places_of(kept.as_mut_slice());
    if state.stage == Stage::Begin {
        kept.clear();
    }
    let mut search = Search {
        alloc,
        table,
        n,
        bound: table.bound(alloc, n)?,
        state,
        kept,
        is_fresh: true,
        may_grow: true,
        tried: 0,
        arc_scans: ArcScans {
            done: record.arc_scans,
            limit,
        },
    };
    let found = search.run()?;
    if let Found::Stopped = found {
        write_objects(objects, search.kept.as_slice());
        *record = search.state.record(search.arc_scans.done);
    }
    Ok(found)
}

/// Searches for a plan whose worst pair is as good as possible, or for a Hall set, and stops after about
/// `budget` arc scans (0: it doesn't). The objects and the record say where an earlier call stopped;
/// objects are read only where the record's stage isn't 0, and written only at `Stopped`.
///
/// # Errors
/// `AllocError` if memory is refused.
pub fn find_bottleneck(
    alloc: Global,
    lists: &CostLists<'_>,
    objects: &mut [Object],
    record: &mut Record,
    budget: u64,
) -> Result<Found, AllocError>
    ensures { length objects.new ≡ length objects.old }
{
    let (n, m) = (lists.persons(), lists.objects());
    match lists.source() {
        Source::Dense(costs) => {
            let rows = Rows::new(lists.sense(), costs, m as usize);
            search_in(alloc, Table::Rows(rows), objects, record, budget)
        }
        Source::Listed(pairs) => {
            let grouped = Grouped::of(alloc, lists.sense(), n, m, pairs)?;
            search_in(
                alloc,
                Table::Pairs(grouped.problem()),
                objects,
                record,
                budget,
            )
        }
    }
}
