// What a watch sees of a run, and the progress lines.
use assign_core::Sense;
use async_workers::OpenGate;
use auction_command::{
    Console, Context, Ended, News, Progress, ProgressLines, Solver, Watch, run_solve_by,
};
use command_line::{Method, Mode, SolveOpts};
use std::alloc::Global;
use std::cell::RefCell;
use std::sync::Wait;
use std::sync::atomic::{AtomicBool, AtomicU64, Ordering};
use std::test::Fail;
use std::thread::Threads;
use test_helpers::{ample_writer, whole_text};

// Follows a run: its last reports, how often they came, and whether one was impossible.
#[derive(Drop)]
struct Follower {
    bytes: AtomicU64,
    rounds: AtomicU64,
    sessions: AtomicU64,
    phase: AtomicU64,
    phases: AtomicU64,
    slackness: AtomicU64,
    paths: AtomicU64,
    overs: AtomicU64,
    wrong: AtomicBool,
}

fn new_follower() -> Follower {
    Follower {
        bytes: AtomicU64::new(0),
        rounds: AtomicU64::new(0),
        sessions: AtomicU64::new(0),
        phase: AtomicU64::new(0),
        phases: AtomicU64::new(0),
        slackness: AtomicU64::new(0),
        paths: AtomicU64::new(0),
        overs: AtomicU64::new(0),
        wrong: AtomicBool::new(false),
    }
}

// The value of a counter.
fn seen(number: &AtomicU64) -> u64 {
    number.load(Ordering::SeqCst)
}

impl Follower {
    fn follow(&self, progress: Progress) {
        let slackness = u64::try_from(progress.slackness).unwrap_or(0);
        self.phase
            .store(u64::from(progress.phase), Ordering::SeqCst);
        self.phases
            .store(u64::from(progress.phases), Ordering::SeqCst);
        self.slackness.store(slackness, Ordering::SeqCst);
        if progress.phase > progress.phases
            || progress.assigned > progress.persons
            || slackness == 0
            || seen(&self.overs) > 0
        {
            self.wrong.store(true, Ordering::SeqCst);
        }
    }

    fn read(&self, bytes: u64) {
        if self.bytes.swap(bytes, Ordering::SeqCst) > bytes {
            self.wrong.store(true, Ordering::SeqCst);
        }
    }

    fn round(&self, progress: Progress) {
        if seen(&self.phase) > u64::from(progress.phase) {
            self.wrong.store(true, Ordering::SeqCst);
        }
        self.rounds.fetch_add(1, Ordering::SeqCst);
        self.follow(progress);
    }

    fn paths(&self, assigned: u16, persons: u16) {
        self.paths.fetch_add(1, Ordering::SeqCst);
        if assigned > persons || seen(&self.overs) > 0 {
            self.wrong.store(true, Ordering::SeqCst);
        }
    }
}

impl Watch for Follower {
    fn begin(&self, _asked: bool, _named: bool) {}

    fn show(&self, news: News) {
        match news {
            News::Bytes(bytes) => self.read(bytes),
            News::Round(progress) => self.round(progress),
            News::Sessions(sessions, _, progress) => {
                self.sessions.fetch_max(sessions, Ordering::SeqCst);
                self.follow(progress);
            }
            News::Paths(assigned, persons) => self.paths(assigned, persons),
            // Paths find a proof.
            News::RoundAfterPaths(_) => self.wrong.store(true, Ordering::SeqCst),
        }
    }

    fn over(&self) {
        self.overs.fetch_add(1, Ordering::SeqCst);
    }
}

// Two unowned objects are bid up to the third one's price, by 1 or 2 a bid.
const WAR: &[u8] = b"3 1 1 1 1 1 1 1 1 1";

const FAR: &[u8] =
    b"sense min\ncost 3\nassign 1 1 1\nassign 2 2 1\nassign 3 3 1\nprice 1 0\nprice 2 0\nprice 3 5000\n";

// Whether a followed run writes a report on an optimal assignment and ends well, without an
// impossible report.
fn follows(
    rt: &(impl Threads + Wait + Sync),
    alloc: Global,
    text: &[u8],
    start: Option<&[u8]>,
    mode: Mode,
    method: Method,
    follower: &Follower,
) -> bool {
    let options = SolveOpts {
        sparse: false,
        mode,
        workers: 2,
        refresh: 1,
        prices: false,
        sense: Sense::Min,
    };
    let mut writer = ample_writer(alloc);
    let mut text_left = whole_text(text, 7);
    let context = Context {
        rt,
        alloc,
        gate: &OpenGate,
        watch: follower,
    };
    let solver = Solver { options, method };
    let end = run_solve_by(&context, &mut text_left, start, &mut writer, solver);
    matches!(end, Ok(Ended::Optimal))
        && writer.taken.as_slice().starts_with(b"sense min\ncost ")
        && seen(&follower.bytes) == text.len() as u64
        && seen(&follower.overs) == 1
        && !follower.wrong.load(Ordering::SeqCst)
}

// How often a run reported rounds, sessions and paths; and the last phase, the number of phases and
// the last slackness; if it passes `follows`.
fn shown_of(
    rt: &(impl Threads + Wait + Sync),
    alloc: Global,
    text: &[u8],
    start: Option<&[u8]>,
    mode: Mode,
    method: Method,
) -> Option<([u64; 3], [u64; 3])> {
    let shown = new_follower();
    if !follows(rt, alloc, text, start, mode, method, &shown) {
        return None;
    }
    let counts = [&shown.rounds, &shown.sessions, &shown.paths].map(seen);
    Some((
        counts,
        [&shown.phase, &shown.phases, &shown.slackness].map(seen),
    ))
}

// The spread is 12, three times that of the costs, so the phases have slackness 2 and 1; each is
// reported once.
#[test]
fn each_phase_is_shown(rt: HostRuntime) -> Result<(), Fail> {
    let (mode, method) = (Mode::Rounds, Method::Auction);
    let shown = shown_of(&rt, rt.alloc(), b"2 1 2 3 5", None, mode, method);
    assert_eq!(rt; shown, Some(([2, 0, 0], [2, 2, 1])));
    Ok(())
}

// Whether each count is 0 where the least is 0, and at least the least elsewhere.
fn is_shown(counts: [u64; 3], least: [u64; 3]) -> bool {
    counts.iter().zip(&least).all(|(count, least)| (*count == 0) == (*least == 0) && count >= least)
}

// Rounds are reported now and then, each session of the workers counts, and paths are reported in
// place of both.
#[test]
fn long_runs_are_shown(rt: HostRuntime) -> Result<(), Fail> {
    let table: [(Option<&[u8]>, Mode, Method, [u64; 3]); 3] = [
        (Some(FAR), Mode::Rounds, Method::Auction, [11, 0, 0]),
        (Some(FAR), Mode::Workers, Method::Auction, [0, 1001, 0]),
        (None, Mode::Rounds, Method::Paths, [0, 0, 2]),
    ];
    for (start, mode, method, least) in table {
        let shown = shown_of(&rt, rt.alloc(), WAR, start, mode, method);
        assert!(rt;
            shown.is_some_and(|(counts, _)| is_shown(counts, least)),
            "{least:?}"
        );
    }
    Ok(())
}

// A clock that moves on by a step each time it is read, and a screen that takes `most` texts and
// then fails.
#[derive(Drop)]
struct Screen<'a> {
    time: AtomicU64,
    step: u64,
    writes: AtomicU64,
    most: u64,
    written: &'a RefCell<Vec<u8>>,
}

impl Console for Screen<'_> {
    fn now(&self) -> Option<u64> {
        Some(self.time.fetch_add(self.step, Ordering::SeqCst))
    }

    fn write(&self, text: &[u8]) -> bool {
        if self.writes.fetch_add(1, Ordering::SeqCst) >= self.most {
            return false;
        }
        match self.written.try_borrow_mut() {
            Ok(mut written) => written.extend_from_slice(text).is_ok(),
            Err(_) => false,
        }
    }
}

// A screen whose clock moves on by `step` milliseconds at each look, and which takes `most` texts.
fn new_screen(written: &RefCell<Vec<u8>>, step: u64, most: u64) -> Screen<'_> {
    Screen {
        time: AtomicU64::new(7),
        step,
        writes: AtomicU64::new(0),
        most,
        written,
    }
}

// What some reports of each kind leave on a screen.
fn shown(alloc: Global, step: u64, most: u64, in_place: bool, asked: bool, ends: bool) -> Vec<u8> {
    let written = RefCell::new(Vec::new(alloc));
    let lines = ProgressLines::new(new_screen(&written, step, most), in_place, false);
    let progress = Progress {
        phase: 3,
        phases: 8,
        slackness: 125,
        assigned: 812,
        persons: 1000,
    };
    lines.begin(asked, false);
    lines.show(News::Bytes(12_345_678));
    lines.show(News::Round(progress));
    lines.show(News::Sessions(64, 50, progress));
    lines.show(News::Sessions(128, 99, progress));
    lines.show(News::Paths(731, 1000));
    if ends {
        lines.over();
        lines.show(News::Round(progress));
    }
    drop(lines);
    written.into_inner()
}

const ALL: &str = "progress: 12.3 MB read, 0.6 s
progress: phase 3 of 8, slackness 125, 812 of 1000 persons, 1.2 s
progress: phase 3 of 8, 812 of 1000 persons, 64 sessions, 50 bids, 1.8 s
progress: phase 3 of 8, 812 of 1000 persons, 128 sessions, 99 bids, 2.4 s
progress: shortest paths, 731 of 1000 persons, 3.0 s
";

// The third and the fifth report: two lines are at least half a second apart.
const SOME: &str = "progress: phase 3 of 8, slackness 125, 812 of 1000 persons, 0.6 s
progress: phase 3 of 8, 812 of 1000 persons, 128 sessions, 99 bids, 1.2 s
";

// Ten seconds after the first report of an auction its lines say what may be faster.
const SLOW: &str = "progress: 12.3 MB read, 6.0 s
progress: phase 3 of 8, slackness 125, 812 of 1000 persons, 12.0 s
progress: phase 3 of 8, 812 of 1000 persons, 64 sessions, 50 bids, 18.0 s
progress: phase 3 of 8, 812 of 1000 persons, 128 sessions, 99 bids, 24.0 s; --method paths may be faster
progress: shortest paths, 731 of 1000 persons, 30.0 s
";

// The shorter line covers the rest of the longer one.
const LEFT: &str = "\rphase 3 of 8, 812 of 1000 persons, 128 sessions, 99 bids, 2.4 s\
    \rshortest paths, 731 of 1000 persons, 3.0 s                     ";

// The end erases the last line.
const ERASED: &str = "\rphase 3 of 8, 812 of 1000 persons, 128 sessions, 99 bids, 2.4 s\
    \rshortest paths, 731 of 1000 persons, 3.0 s                     \
    \r                                          \r";

// On a terminal the first line comes after two seconds, and no progress need be requested.
#[test]
fn lines_on_a_screen(rt: HostRuntime) -> Result<(), Fail> {
    for (step, most, in_place, asked, ends, wanted) in [
        (600, 9, false, true, true, ALL),
        (300, 9, false, true, true, SOME),
        (600, 9, false, false, true, ""),
        (600, 0, false, true, true, ""),
        (6000, 9, false, true, true, SLOW),
        (600, 9, true, false, false, LEFT),
        (600, 9, true, false, true, ERASED),
    ] {
        let lines = shown(rt.alloc(), step, most, in_place, asked, ends);
        assert_eq!(rt; lines.as_slice(), wanted.as_bytes());
    }
    Ok(())
}

// What a long auction leaves on a screen whose clock moves on by ten seconds at each look.
fn long_auction(alloc: Global, in_place: bool) -> Vec<u8> {
    let written = RefCell::new(Vec::new(alloc));
    let lines = ProgressLines::new(new_screen(&written, 10_000, 9), in_place, false);
    let progress = Progress {
        phase: 3,
        phases: 8,
        slackness: 125,
        assigned: 812,
        persons: 1000,
    };
    lines.begin(!in_place, false);
    lines.show(News::Round(progress));
    lines.show(News::Round(progress));
    lines.over();
    drop(lines);
    written.into_inner()
}

const LONG: &str = "progress: phase 3 of 8, slackness 125, 812 of 1000 persons, 10.0 s
progress: phase 3 of 8, slackness 125, 812 of 1000 persons, 20.0 s; --method paths may be faster
";

// A terminal has no room for all figures.
const LONG_IN_PLACE: &str = "\rphase 3 of 8, slackness 125, 812 of 1000 persons, 10.0 s\
    \rphase 3 of 8, 812 of 1000 persons, 20.0 s; --method paths may be faster\
    \r                                                                       \r";

#[test]
fn a_long_auction_says_what_is_faster(rt: HostRuntime) -> Result<(), Fail> {
    for (in_place, wanted) in [(false, LONG), (true, LONG_IN_PLACE)] {
        let lines = long_auction(rt.alloc(), in_place);
        assert_eq!(rt; lines.as_slice(), wanted.as_bytes());
    }
    Ok(())
}

// Rounds after shortest paths aren't advised to be paths.
#[test]
fn rounds_after_paths_say_so(rt: HostRuntime) -> Result<(), Fail> {
    let written = RefCell::new(Vec::new(rt.alloc()));
    let lines = ProgressLines::new(new_screen(&written, 10_000, 9), false, false);
    let progress = Progress {
        phase: 3,
        phases: 8,
        slackness: 125,
        assigned: 812,
        persons: 1000,
    };
    lines.begin(true, false);
    lines.show(News::RoundAfterPaths(progress));
    lines.show(News::RoundAfterPaths(progress));
    drop(lines);
    let wanted = "progress: rounds after shortest paths, phase 3 of 8, 812 of 1000 persons, 10.0 s
progress: rounds after shortest paths, phase 3 of 8, 812 of 1000 persons, 20.0 s
";
    assert_eq!(rt; written.into_inner().as_slice(), wanted.as_bytes());
    Ok(())
}

const WAITING: &str =
    "waiting for a problem on standard input; Ctrl-D ends it, --input names a file\n";

// A run that waits for a typed problem says so where a person can see it.
#[test]
fn a_typed_problem_is_waited_for(rt: HostRuntime) -> Result<(), Fail> {
    for (in_place, typed, named, wanted) in [
        (true, true, false, WAITING),
        (true, true, true, ""),
        (true, false, false, ""),
        (false, true, false, ""),
    ] {
        let written = RefCell::new(Vec::new(rt.alloc()));
        let lines = ProgressLines::new(new_screen(&written, 600, 9), in_place, typed);
        lines.begin(false, named);
        lines.show(News::Bytes(12_345_678));
        drop(lines);
        assert_eq!(rt; written.into_inner().as_slice(), wanted.as_bytes());
    }
    Ok(())
}
