// Whether the first searches are worth going on with: how long they have been so far says how many
// arc scans all will take.
use super::record::Record;
use search_base::ArcScans;

// The numbers come from measurements; no answer depends on them. They are arc scans for each pair.
// The most arc scans in all where searches grow longer, as in random problems.
const GROWING: u64 = 5;
// The most arc scans in all where they don't, but begin from prices.
const WARM: u64 = 16;
// The most arc scans in all where neither is so, as among neighbours, where a few long ones come first.
const STEADY: u64 = 40;
// The most arc scans in all of the second turn.
pub const SECOND: u64 = 64;
// The arc scans before which steady searches go on with a forecast up to this one.
const GRACE: u64 = 4;

const GRACE_FORECAST: u64 = 64;
// A part of the searches ends after so many arc scans for each pair, and with a call.
const PART: u64 = 2;
// A search counts at most a pass over all pairs divided by this.
const SHORT: u64 = 16;

// How many searches ended, and their arc scans.
#[derive(Clone, Copy)]
struct Tally {
    searches: u64,
    arc_scans: u64,
}

impl Tally {
    fn none() -> Tally {
        Tally {
            searches: 0,
            arc_scans: 0,
        }
    }

    fn with(self, arc_scans: u64) -> Tally {
        Tally {
            searches: self.searches.saturating_add(1),
            arc_scans: self.arc_scans.saturating_add(arc_scans),
        }
    }

    // The arc scans of so many searches like these.
    fn arc_scans_of(self, searches: u64) -> u64 {
        self.arc_scans
            .saturating_mul(searches)
            .checked_div(self.searches)
            .unwrap_or(0)
    }
}

/// The forecast of a run of searches.
#[derive(Clone, Copy)]
pub struct Forecast {
    pairs: u64,
    // The arc scans when the searches began, and after the last one.
    begun: u64,
    before: u64,
    // The searches of a part.
    width: u64,
    all: Tally,
    part: Tally,
    // Four times the arc scans of a search of the first part, once it ended.
    usual: u64,
    // Whether an auction from the same prices would be short.
    is_warm: bool,
    // Whether an auction from the same prices didn't end.
    is_second: bool,
}

impl Forecast {
    /// Goes on from a record of the first searches, with so many left.
    pub fn of(record: &Record, left: usize, pairs: usize, is_second: bool) -> Forecast {
        let ended = u64::from(record.dummy_bids);
        Forecast {
            pairs: pairs as u64,
            begun: record.bids,
            before: record.arc_scans,
            width: (ended.saturating_add(left as u64) / 16).max(16),
            all: Tally {
                searches: ended,
                arc_scans: u64::from(record.place),
            },
            part: Tally::none(),
            usual: u64::from(record.usual),
            is_warm: record.slackness > 0,
            is_second,
        }
    }

    /// Writes what the next call goes on from.
    pub fn write(&self, record: &mut Record) {
        record.dummy_bids = cut(self.all.searches);
        record.place = cut(self.all.arc_scans);
        record.usual = cut(self.usual);
    }

    fn count(&mut self, arc_scans: ArcScans) {
        let taken = arc_scans.since(self.before);
        self.before = arc_scans.done;
        self.all = self.all.with(taken.min(self.pairs / SHORT));
        self.part = self.part.with(taken);
        if self.all.searches == self.width {
            self.usual = self.all.arc_scans_of(4);
        }
    }

    // Whether searches are longer than those of the first part were.
    fn grow(&self) -> bool {
        let usual = self.usual.saturating_mul(self.all.searches) / 4;
        self.usual > 0 && self.all.arc_scans > usual.saturating_add(usual / 2)
    }

    // Whether all can be expected to end within the most arc scans: by the pace of the last part, or early on by
    // that of all.
    fn fits(&self, left: u64) -> bool {
        let spent = self.before.saturating_sub(self.begun);
        let is_early = spent <= GRACE.saturating_mul(self.pairs);
        let (pace, most) = match (self.is_second, self.grow(), self.is_warm) {
            (true, _, _) => (self.part, SECOND),
            (false, true, _) => (self.part, GROWING),
            (false, false, true) => (self.all, WARM),
            (false, false, false) if is_early => (self.all, GRACE_FORECAST),
            (false, false, false) => (self.part, STEADY),
        };
        spent.saturating_add(pace.arc_scans_of(left)) <= most.saturating_mul(self.pairs)
    }

    /// After one more search, with so many left: whether they should go on.
    pub fn goes_on(&mut self, arc_scans: ArcScans, left: usize) -> bool {
        self.count(arc_scans);
        let part = PART.saturating_mul(self.pairs);
        let is_last = arc_scans.is_spent() && arc_scans.since(self.begun) >= part;
        if self.part.searches < self.width && self.part.arc_scans < part && !is_last {
            return true;
        }
        let fits = self.fits(left as u64);
        self.part = Tally::none();
        fits
    }
}

fn cut(count: u64) -> u32 {
    u32::try_from(count).unwrap_or(u32::MAX)
}
