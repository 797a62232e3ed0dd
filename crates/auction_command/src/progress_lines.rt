// Progress lines for standard error: now and then a line, or on a terminal one line that is
// overwritten.
use crate::progress::{News, Progress, Watch};
use arrayvec::ArrayString;
use std::fmt;
use std::fmt::Write;
use std::sync::atomic::{AtomicBool, AtomicU64, AtomicUsize, Ordering};

/// The clock and standard error.
pub trait Console {
    /// Milliseconds since some fixed time; `None` if no clock answers.
    fn now(&self) -> Option<u64>;

    /// Writes to standard error. Returns whether it took all.
    fn write(&self, text: &[u8]) -> bool;
}

// The least number of milliseconds between two lines, and before the first line on a terminal, by
// default.
const BETWEEN: u64 = 500;

const UNASKED: u64 = 2000;

// After this many milliseconds of an auction its lines say what may be faster.
const SLOW: u64 = 10_000;

const FASTER: &str = "; --method paths may be faster";

// The line for a run whose problem must be typed.
const WAITING: &str =
    "waiting for a problem on standard input; Ctrl-D ends it, --input names a file\n";

// No time: no line comes any more, or not yet.
const NEVER: u64 = u64::MAX;

// The most columns that a line takes on a terminal.
const MOST_COLUMNS: usize = 79;

// The progress of an auction, if the news are of one.
fn auction_in(news: News) -> Option<Progress> {
    match news {
        News::Round(it) | News::Sessions(_, _, it) => Some(it),
        News::Bytes(_) | News::Paths(_, _) | News::RoundAfterPaths(_) => None,
    }
}

// The phase, as `phase 3 of 8`.
fn write_phase<W: fmt::Write>(f: &mut fmt::Formatter<W>, it: &Progress) -> fmt::Result {
    write!(f, "phase {} of {}, ", it.phase, it.phases)
}

// The number of persons who have an object.
fn write_persons<W: fmt::Write>(
    f: &mut fmt::Formatter<W>,
    assigned: u16,
    persons: u16,
) -> fmt::Result {
    write!(f, "{assigned} of {persons} persons")
}

fn write_bytes<W: fmt::Write>(f: &mut fmt::Formatter<W>, bytes: u64) -> fmt::Result {
    let tenths = bytes / 100_000;
    write!(f, "{}.{} MB read", tenths / 10, tenths % 10)
}

fn write_round<W: fmt::Write>(f: &mut fmt::Formatter<W>, it: &Progress) -> fmt::Result {
    write_phase(f, it)?;
    write!(f, "slackness {}, ", it.slackness)?;
    write_persons(f, it.assigned, it.persons)
}

fn write_sessions<W: fmt::Write>(
    f: &mut fmt::Formatter<W>,
    sessions: u64,
    accepted: u128,
    it: &Progress,
) -> fmt::Result {
    write_phase(f, it)?;
    write_persons(f, it.assigned, it.persons)?;
    write!(f, ", {sessions} sessions, {accepted} bids")
}

fn write_paths<W: fmt::Write>(
    f: &mut fmt::Formatter<W>,
    assigned: u16,
    persons: u16,
) -> fmt::Result {
    f.write_str("shortest paths, ")?;
    write_persons(f, assigned, persons)
}

fn write_round_after_paths<W: fmt::Write>(f: &mut fmt::Formatter<W>, it: &Progress) -> fmt::Result {
    f.write_str("rounds after shortest paths, ")?;
    write_phase(f, it)?;
    write_persons(f, it.assigned, it.persons)
}

// The figures of a line, fewer of an auction if there is no room for all.
#[derive(Clone, Copy)]
struct Figures {
    news: News,
    few: bool,
}

impl fmt::Display for Figures {
    fn fmt<W: fmt::Write>(&self, f: &mut fmt::Formatter<W>) -> fmt::Result {
        if self.few
            && let Some(it) = auction_in(self.news)
        {
            write_phase(f, &it)?;
            return write_persons(f, it.assigned, it.persons);
        }
        match self.news {
            News::Bytes(bytes) => write_bytes(f, bytes),
            News::Round(it) => write_round(f, &it),
            News::Sessions(sessions, accepted, it) => write_sessions(f, sessions, accepted, &it),
            News::Paths(assigned, persons) => write_paths(f, assigned, persons),
            News::RoundAfterPaths(it) => write_round_after_paths(f, &it),
        }
    }
}

// Room for a line and the characters around it.
type Line = ArrayString<256>;

// A line after `passed` milliseconds, between these words. It takes no memory, and is cut if it is
// too long.
fn line_of(word: &str, figures: Figures, passed: u64, end: &str) -> Line {
    let mut line = Line::new();
    let tenths = passed / 100;
    let _ = write!(
        line,
        "{word}{figures}, {}.{} s{end}",
        tenths / 10,
        tenths % 10
    );
    line
}

// Adds blanks after a text.
fn pad(text: &mut Line, blanks: usize) {
    for _ in 0..blanks {
        let _ = text.try_push(' ');
    }
}

/// Writes progress lines to a console. It takes no memory, and stops silently if the clock or
/// standard error fails.
#[derive(Drop)]
pub struct ProgressLines<C> {
    console: C,
    // Standard error is a terminal.
    in_place: bool,
    // Standard input is a terminal.
    typed: bool,
    // The problem is in a file.
    named: AtomicBool,
    began: Option<u64>,
    // The time of the first news of an auction.
    auction: AtomicU64,
    // No line comes before this time.
    next: AtomicU64,
    busy: AtomicBool,
    // The number of columns in use on the terminal.
    columns: AtomicUsize,
}

impl<C: Console> ProgressLines<C> {
    /// Begins to count the time. On a terminal one line is overwritten, and typing isn't disturbed:
    /// if the problem must be typed, a line says so once.
    pub fn new(console: C, in_place: bool, typed: bool) -> ProgressLines<C> {
        let began = console.now();
        ProgressLines {
            console,
            in_place,
            typed,
            named: AtomicBool::new(false),
            began,
            auction: AtomicU64::new(NEVER),
            next: AtomicU64::new(NEVER),
            busy: AtomicBool::new(false),
            columns: AtomicUsize::new(0),
        }
    }

    // The time, if there may be news. The time of the first news of an auction is kept.
    fn looked_at(&self, news: News) -> Option<u64> {
        let now = self.console.now()?;
        if auction_in(news).is_some() && self.auction.load(Ordering::SeqCst) == NEVER {
            self.auction.store(now, Ordering::SeqCst);
        }
        Some(now)
    }

    // The time, if a line is due. Only one of several threads gets it.
    fn due(&self, news: News) -> Option<u64> {
        let next = self.next.load(Ordering::SeqCst);
        if next == NEVER {
            return None;
        }
        let now = self.looked_at(news)?;
        if now < next {
            return None;
        }
        let later = now.saturating_add(BETWEEN);
        let first = self
            .next
            .compare_exchange(next, later, Ordering::SeqCst, Ordering::SeqCst);
        match first {
            Ok(_) => Some(now),
            Err(_) => None,
        }
    }

    // Whether the news are of an auction that has already lasted long.
    fn is_slow(&self, news: News, now: u64) -> bool {
        let lasted = now.saturating_sub(self.auction.load(Ordering::SeqCst));
        lasted >= SLOW && auction_in(news).is_some()
    }

    // Writes a text. If this fails, nothing more is written.
    fn put(&self, text: &str) {
        if !self.console.write(text.as_bytes()) {
            self.next.store(NEVER, Ordering::SeqCst);
        }
    }

    // Writes a line over the text on the terminal.
    fn put_in_place(&self, line: &str) {
        let line = line.get(..MOST_COLUMNS).unwrap_or(line);
        let before = self.columns.swap(line.len(), Ordering::SeqCst);
        let mut text = Line::new();
        let _ = write!(text, "\r{line}");
        pad(&mut text, before.saturating_sub(line.len()));
        self.put(text.as_str());
    }

    // Writes the line of some news, unless another thread is writing.
    fn write_line(&self, news: News, now: u64) {
        if self.busy.swap(true, Ordering::SeqCst) {
            return;
        }
        let passed = now.saturating_sub(self.began.unwrap_or(now));
        let slow = self.is_slow(news, now);
        let end = if slow { FASTER } else { "" };
        let figures = Figures {
            news,
            few: slow && self.in_place,
        };
        if self.in_place {
            self.put_in_place(line_of("", figures, passed, end).as_str());
        } else {
            let mut line = line_of("progress: ", figures, passed, end);
            let _ = line.try_push('\n');
            self.put(line.as_str());
        }
        self.busy.store(false, Ordering::SeqCst);
    }

    // Whether the news are of a problem that is being typed, which no line may disturb.
    fn is_typed(&self, news: News) -> bool {
        matches!(news, News::Bytes(_)) && self.typed && !self.named.load(Ordering::SeqCst)
    }
}

impl<C: Console> Watch for ProgressLines<C> {
    fn begin(&self, asked: bool, named: bool) {
        self.named.store(named, Ordering::SeqCst);
        if let Some(began) = self.began
            && (asked || self.in_place)
        {
            let wait = if asked { BETWEEN } else { UNASKED };
            self.next
                .store(began.saturating_add(wait), Ordering::SeqCst);
        }
        if self.typed && self.in_place && !named {
            self.put(WAITING);
        }
    }

    fn show(&self, news: News) {
        if !self.is_typed(news)
            && let Some(now) = self.due(news)
        {
            self.write_line(news, now);
        }
    }

    fn over(&self) {
        self.next.store(NEVER, Ordering::SeqCst);
        let columns = self.columns.swap(0, Ordering::SeqCst);
        if columns > 0 {
            let mut text = Line::new();
            let _ = text.try_push('\r');
            pad(&mut text, columns);
            let _ = text.try_push('\r');
            self.put(text.as_str());
        }
    }
}
