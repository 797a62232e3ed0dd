// Progress of a run. No contract mentions it, and nothing about it is proved: it doesn't change
// what a run reads, answers or writes.
ghost use Rattle.std.specs.Prelude.{◌≡◌};

use assign_core::{Person, Prices};
use async_workers::{Gate, Note, Standing};
use bidder::{Ask, Offer};
use candidates::CandidateLists;
use exact_paths::Observer;
use rounds::{LEAST_PAIRS, Offering, make_offers};
use scaled_values::{Scaled, next_eps};
use std::alloc::AllocError;
use std::io;
use std::io::Read;
use std::sync::atomic::{AtomicU64, Ordering};
use std::thread::Threads;

/// How far an auction is.
#[derive(Clone, Copy, PartialEq, Eq)]
pub struct Progress {
    /// The phase, from 1.
    pub phase: u16,
    /// The number of phases, 1 to 23.
    pub phases: u16,
    /// The slackness of the phase, at least 1, in the unit of benefits: costs times n + 1.
    pub slackness: i64,
    /// The number of persons who have an object.
    pub assigned: u16,
    /// The number of persons.
    pub persons: u16,
}

/// News on the progress of a run.
#[derive(Clone, Copy, PartialEq, Eq)]
pub enum News {
    /// Called with the number of bytes of the problem read so far.
    Bytes(u64),
    /// A round begins. Shown at the first round of each phase, and then after some hundred offers.
    Round(Progress),
    /// The numbers of past sessions and of accepted bids of all workers. Shown after every 64
    /// sessions of a worker.
    Sessions(u64, u128, Progress),
    /// Shortest paths: the number of persons who have an object, and the number of all persons.
    /// Shown when a search begins, and then after each of its pieces, which take some hundredths of
    /// a second. The first number may fall, as where an auction begins a phase.
    Paths(u16, u16),
    /// A round begins after shortest paths that found no proof, which is not known to happen. Shown
    /// as `Round`.
    RoundAfterPaths(Progress),
}

/// Callbacks for the progress of a run. A method may be called often, and by several threads at
/// once, so it should cost little; it can't stop the run.
pub trait Watch {
    /// Called when a run begins, with whether the words request its progress and whether they name
    /// a file for the problem. A run of `verify` counts as one without this request.
    fn begin(&self, asked: bool, named: bool);

    /// Called with news.
    fn show(&self, news: News);

    /// Called last, when the run is about to write its report or has failed. May be called twice.
    fn over(&self);
}

/// A watch that does nothing.
pub struct Unwatched;

impl Watch for Unwatched {
    fn begin(&self, _asked: bool, _named: bool) {}

    fn show(&self, _news: News) {}

    fn over(&self) {}
}

/// A reader that counts its bytes.
#[derive(Drop)]
pub struct CountedReader<'a, R, V> {
    reader: R,
    bytes: u64,
    watch: &'a V,
}

impl<'a, R: Read, V: Watch> CountedReader<'a, R, V> {
    pub fn new(reader: R, watch: &'a V) -> CountedReader<'a, R, V>
        ensures { result.reader ≡ reader }
    {
        CountedReader {
            reader,
            bytes: 0,
            watch,
        }
    }
}

impl<R: Read, V: Watch> Read for CountedReader<'_, R, V> {
    ghost remaining = { λ c. R.remaining c.reader };

    fn read(&mut self, buf: &mut [u8]) -> io::Result<usize> {
        let count = self.reader.read(buf)?;
        self.bytes = self.bytes.saturating_add(count as u64);
        self.watch.show(News::Bytes(self.bytes));
        Ok(count)
    }
}

// The most phases that a run can have.
const MOST_PHASES: u16 = 23;

// The number of phases of a run.
fn phases_of(scaled: &Scaled) -> u16 {
    let mut eps = scaled.first_eps();
    for phase in 1..MOST_PHASES {
        match next_eps(eps) {
            Some(next) => eps = next,
            None => return phase,
        }
    }
    MOST_PHASES
}

/// A watch on an auction.
#[derive(Drop)]
pub struct WatchedSearch<'a, V> {
    watch: &'a V,
    phases: u16,
    persons: u16,
}

impl<'a, V: Watch> WatchedSearch<'a, V> {
    pub fn new(scaled: &Scaled, watch: &'a V) -> WatchedSearch<'a, V> {
        WatchedSearch {
            watch,
            phases: phases_of(scaled),
            persons: scaled.n(),
        }
    }

    // The progress of an auction in this phase.
    fn progress(&self, phase: u16, slackness: i64, assigned: u16) -> Progress {
        Progress {
            phase,
            phases: self.phases,
            slackness,
            assigned,
            persons: self.persons,
        }
    }
}

/// A watch on shortest paths: it shows the number of persons who have an object.
#[derive(Drop)]
pub struct WatchedPaths<'a, V> {
    watch: &'a V,
    persons: u16,
}

impl<'a, V: Watch> WatchedPaths<'a, V> {
    pub fn new(persons: u16, watch: &'a V) -> WatchedPaths<'a, V> {
        WatchedPaths { watch, persons }
    }
}

// The least number of arc scans between two that are shown, and how often each pair is looked
// at.
const LOOKS: u64 = 1 << 24;

const LOOKS_A_PAIR: u64 = 8;

impl<V: Watch> Observer for WatchedPaths<'_, V> {
    fn assigned(&self, persons: u16) {
        self.watch.show(News::Paths(persons, self.persons));
    }

    fn arc_scans(&self, pairs: usize) -> u64 {
        (pairs as u64).saturating_mul(LOOKS_A_PAIR).max(LOOKS)
    }
}

// The number of offers after which the watch is shown the next round.
const OFFERS_A_LOOK: u64 = 256;

/// Makes the offers of rounds as `InPieces` does, and shows them to a watch.
#[derive(Drop)]
pub struct WatchedOffers<'a, R, V> {
    rt: &'a R,
    watch: &'a V,
    // Whether shortest paths found no proof before.
    after_paths: bool,
    // The number of persons who wait in this round, and whether it shall be shown.
    waiting: usize,
    is_due: bool,
    // The phase last shown, and the offers since.
    phase: u16,
    offers: u64,
}

impl<'a, R, V: Watch> WatchedOffers<'a, R, V> {
    pub fn new(rt: &'a R, watch: &'a V, after_paths: bool) -> WatchedOffers<'a, R, V> {
        WatchedOffers {
            rt,
            watch,
            after_paths,
            waiting: 0,
            is_due: false,
            phase: 0,
            offers: 0,
        }
    }

    // Shows the round.
    fn show(&mut self, scaled: &Scaled, ask: Ask) {
        self.is_due = false;
        self.phase = ask.phase;
        self.offers = 0;
        let search = WatchedSearch::new(scaled, self.watch);
        let assigned = (search.persons as usize).saturating_sub(self.waiting) as u16;
        let progress = search.progress(ask.phase, ask.eps, assigned);
        self.watch.show(if self.after_paths {
            News::RoundAfterPaths(progress)
        } else {
            News::Round(progress)
        });
    }
}

impl<R: Threads + Sync, V: Watch> Offering for WatchedOffers<'_, R, V> {
    ghost use Rattle.std.specs.Thread.{IsSync};

    ghost ready = { IsSync R.row };

    fn begin(&mut self, ask: Ask, waiting: usize) {
        self.offers = self.offers.wrapping_add(waiting as u64);
        self.waiting = waiting;
        self.is_due = self.phase != ask.phase || self.offers >= OFFERS_A_LOOK;
    }

    fn make(
        &mut self,
        scaled: &Scaled,
        prices: &Prices,
        ask: Ask,
        persons: &[Person],
        lists: &mut CandidateLists,
        offers: &mut Vec<Offer>,
    ) -> Result<(), AllocError> {
        if self.is_due {
            self.show(scaled, ask);
        }
        make_offers(
            self.rt,
            LEAST_PAIRS,
            scaled,
            prices,
            ask,
            persons,
            lists,
            offers,
        )
    }
}

// The number of sessions of a worker after which the watch is shown the progress of all workers.
const SESSIONS_A_LOOK: u64 = 64;

/// A gate that also shows the progress of the workers to a watch.
#[derive(Drop)]
pub struct WatchedGate<'a, G, V> {
    gate: &'a G,
    search: WatchedSearch<'a, V>,
    // The sessions of all workers shown so far.
    sessions: AtomicU64,
}

impl<'a, G: Gate, V: Watch> WatchedGate<'a, G, V> {
    pub fn new(gate: &'a G, scaled: &Scaled, watch: &'a V) -> WatchedGate<'a, G, V> {
        WatchedGate {
            gate,
            search: WatchedSearch::new(scaled, watch),
            sessions: AtomicU64::new(0),
        }
    }
}

impl<G: Gate, V: Watch> Gate for WatchedGate<'_, G, V> {
    fn before_offer(&self, worker: u16) {
        self.gate.before_offer(worker);
    }

    fn before_submit(&self, worker: u16, turns: u64) {
        self.gate.before_submit(worker, turns);
    }

    fn after_session(&self, worker: u16, note: Note) {
        self.gate.after_session(worker, note);
    }

    fn after_standing(&self, worker: u16, sessions: u64, standing: Standing) {
        self.gate.after_standing(worker, sessions, standing);
        if sessions % SESSIONS_A_LOOK == 0 {
            let search = &self.search;
            let progress = search.progress(standing.phase, standing.eps, standing.assigned);
            let before = self.sessions.fetch_add(SESSIONS_A_LOOK, Ordering::SeqCst);
            let sessions = before.wrapping_add(SESSIONS_A_LOOK);
            search
                .watch
                .show(News::Sessions(sessions, standing.accepted, progress));
        }
    }
}
