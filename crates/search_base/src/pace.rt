// Whether searches are worth going on with: their pace so far says how many arc scans all will take.
use super::arc_scans::ArcScans;

// A part has at least so many searches, since a few long ones say little of the others.
const FEWEST: u64 = 32;

/// The pace of a run of searches.
#[derive(Clone, Copy)]
pub struct Pace {
    first: u64,
    // When the last part of the searches began, how many they are, and how many ended.
    part: u64,
    width: u64,
    ended: u64,
    // The most arc scans in all.
    most: u64,
}

impl Pace {
    pub fn begin(searches: usize, arc_scans: ArcScans, most: u64) -> Pace {
        Pace {
            first: arc_scans.done,
            part: arc_scans.done,
            width: (searches as u64 / 16).max(FEWEST),
            ended: 0,
            most,
        }
    }

    /// After one more search, with so many left: whether all can be expected within the most arc scans.
    pub fn goes_on(&mut self, arc_scans: ArcScans, left: usize) -> bool {
        self.ended = self.ended.wrapping_add(1);
        if self.ended < self.width {
            return true;
        }
        let spent = arc_scans.since(self.first);
        let rest = arc_scans.since(self.part) / self.width.max(1);
        self.part = arc_scans.done;
        self.ended = 0;
        spent.saturating_add(rest.saturating_mul(left as u64)) <= self.most
    }
}
