// Where a search stands between two calls, and how a call ends.

/// What a search does next.
#[derive(Clone, Copy)]
pub enum Stage {
    /// It begins; prices and objects aren't read.
    Cold,
    /// It begins from prices and objects that somebody has.
    Warm,
    /// Searches for the persons who are left over by bids.
    Paths,
    /// The cheapest pairs of each person as a sparse problem.
    Core,
    /// Searches on from the prices of the core.
    Retry,
    /// The auction over all pairs.
    Auction,
    /// Searches to the end.
    Finish,
    /// Searches over a copy of the costs in 32 bits.
    CopyPaths,
    /// The auction over a copy.
    CopyAuction,
    /// Searches over a copy to the end.
    CopyFinish,
}

impl Stage {
    // Whether it works over a copy of the costs.
    pub fn is_copied(self) -> bool {
        matches!(
            self,
            Stage::CopyPaths | Stage::CopyAuction | Stage::CopyFinish
        )
    }
}

// In the auction costs count 2 to this power times.
pub const SHIFT: u32 = 9;

// No slackness is greater: costs lie at most 2 * 10^12 apart.
const MOST_SLACKNESS: i64 = 1 << 51;

/// What the next call needs to go on, with prices and objects. Whatever it holds, an answer is
/// judged by a checker alone.
#[derive(Clone, Copy)]
pub struct Record {
    pub stage: Stage,
    /// Costs count two to this power, and prices are in this unit.
    pub shift: u32,
    pub slackness: i64,
    /// The bids of this phase of the auction; before an auction over a copy, the searches of earlier
    /// calls.
    pub bids: u64,
    /// How often a core was solved; of searches, the passes over all pairs that they took so far, or the
    /// calls of the last ones.
    pub passes: u64,
    /// How often an end didn't hold or didn't come, so that searches went on from there.
    pub restarts: u32,
    /// The arc scans of all calls.
    pub arc_scans: u64,
}

impl Record {
    /// A search that begins without first prices.
    pub fn cold() -> Record {
        Record {
            stage: Stage::Cold,
            shift: 0,
            slackness: 0,
            bids: 0,
            passes: 0,
            restarts: 0,
            arc_scans: 0,
        }
    }

    /// A search that begins from prices, in the unit of the costs, and objects (or `NOBODY`).
    pub fn warm() -> Record {
        Record {
            stage: Stage::Warm,
            ..Record::cold()
        }
    }

    // What is left of so many arc scans of searches, which count in all calls of a stage.
    pub fn left_of(&self, most: u64, pairs: usize) -> u64 {
        most.saturating_sub(self.passes.saturating_mul(pairs as u64))
    }

    // Counts the passes over all pairs that these arc scans of searches were, if the next call goes on with
    // them.
    pub fn count_passes(&mut self, ended: Ended, arc_scans: u64, pairs: usize) {
        let passes = arc_scans / (pairs as u64).max(1);
        self.passes = match ended {
            Ended::Stopped => self.passes.saturating_add(passes.saturating_add(1)),
            _ => 0,
        };
    }

    // Whether another call left it.
    pub fn is_begun(&self) -> bool {
        !matches!(self.stage, Stage::Cold | Stage::Warm)
    }

    // The record, with a unit that its stage may have, and a slackness that costs may have.
    pub fn sound(&self) -> Record {
        let shift = match self.stage {
            Stage::Auction | Stage::Finish => self.shift.min(SHIFT),
            _ => 0,
        };
        Record {
            shift,
            slackness: self.slackness.max(0).min(MOST_SLACKNESS),
            ..*self
        }
    }
}

/// The end of a call.
#[derive(Clone, Copy)]
pub enum Outcome {
    /// Each person has an object, at exact prices.
    Best,
    /// The budget of arc scans is spent, and the record says where to go on.
    Stopped,
    /// The lists don't fit one another, or sums left the range: nothing was found.
    Lost,
}

// How a stage ends.
#[derive(Clone, Copy)]
pub enum Ended {
    // Each person has an object.
    Assigned,
    // It takes too long; another stage is to go on.
    Long,
    // Some persons have a better object than their own: searches assign them.
    Near,
    // The budget of arc scans is spent.
    Stopped,
    // A person reached no object: sums left the range.
    Blocked,
}
