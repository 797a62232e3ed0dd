// Where a search stands between two calls.

/// What a search does next.
#[derive(Clone, Copy)]
pub enum Stage {
    /// It begins; prices and objects aren't read.
    Cold,
    /// It begins from prices, in the unit of the costs, and objects that somebody has.
    Warm,
    /// Tight pairs at these prices.
    WarmTight,
    /// Bids without slackness.
    Bids,
    /// Tight pairs, before the first searches.
    FirstTight,
    /// Searches for the persons who are left over by bids without slackness.
    FirstPaths,
    /// The auction.
    Auction,
    /// Searches for the persons who wait in the auction.
    Help,
    /// The matching without costs, whose objects are in the place of the auction's.
    Matching,
    /// Tight pairs at the auction's prices, before the last searches.
    LastTight,
    /// Searches from the auction's prices.
    LastPaths,
    /// Everybody is assigned, and the prices of overpriced unowned objects come down.
    Unowned,
}

/// What the next call needs to go on, with prices and objects. Whatever it holds, an answer is
/// judged by a checker alone.
#[derive(Clone, Copy)]
pub struct Record {
    pub stage: Stage,
    /// The costs count 2 to this power times, and prices are in this unit.
    pub shift: u32,
    /// The slackness of the auction; before it, the one to begin with from these prices, or 0 to begin
    /// at prices of 0.
    pub slackness: i64,
    /// The bids of this phase of the auction since searches last helped it. Of bids without
    /// slackness how many are left; in the first searches the arc scans when they began, in those that help
    /// the arc scans when they end.
    pub bids: u64,
    /// How often dummies bid in this phase. In the first searches how many ended.
    pub dummy_bids: u32,
    /// Whether an assignment is known to exist.
    pub has_assignment: bool,
    /// Where a stage goes on, 0 at its beginning. In the first searches the arc scans of those that ended,
    /// of which a long one counts as a shorter one.
    pub place: u32,
    /// Four times the arc scans of one of the first searches, once it is known.
    pub usual: u32,
    /// The arc scans of all calls.
    pub arc_scans: u64,
}

impl Record {
    /// A search that begins without first prices.
    pub fn cold() -> Record {
        Record {
            stage: Stage::Cold,
            shift: 0,
            slackness: 0,
            bids: 0,
            dummy_bids: 0,
            has_assignment: false,
            place: 0,
            usual: 0,
            arc_scans: 0,
        }
    }

    /// A search that begins from prices, in the unit of the costs, and objects (or `NOBODY`).
    pub fn warm() -> Record {
        Record {
            stage: Stage::Warm,
            ..Record::cold()
        }
    }

    /// At the beginning of a stage.
    pub fn with_stage(self, stage: Stage) -> Record {
        Record {
            stage,
            place: 0,
            ..self
        }
    }
}
