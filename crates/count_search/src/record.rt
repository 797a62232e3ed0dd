// Where a search stands between two calls.

/// What the next call needs to go on, with the lists of the answer; all 0 begins. Whatever it holds, an
/// answer is judged by a checker alone.
#[repr(C)]
#[derive(Clone, Copy)]
pub struct Record {
    /// What comes next: 0 begins, 1 begins from numbers and a plan, 2 goes on with the auction, whose
    /// prices stand in the columns' numbers, and how many hands stay out in the rows' ones, 3 goes on
    /// with the repair.
    pub stage: u64,
    /// The slackness of the auction's phase.
    pub slackness: u64,
    /// The price of staying out.
    pub outside: u64,
    /// The bids that are left to the phase.
    pub bids: u64,
    /// The highest price of the phase.
    pub limit: u64,
    /// The arc scans of all calls.
    pub arc_scans: u64,
    /// The arc scans up to which a repair from a plan goes.
    pub until: u64,
    /// How many shortest paths were taken.
    pub paths: u64,
}

pub const COLD: u64 = 0;

pub const WARM: u64 = 1;

pub const AUCTION: u64 = 2;

pub const REPAIR: u64 = 3;

impl Record {
    /// A search that begins without numbers or a plan.
    pub fn cold() -> Record {
        Record {
            stage: COLD,
            slackness: 0,
            outside: 0,
            bids: 0,
            limit: 0,
            arc_scans: 0,
            until: 0,
            paths: 0,
        }
    }

    /// A search that begins from the columns' numbers and the plan that the answer's lists hold.
    pub fn warm() -> Record {
        Record {
            stage: WARM,
            ..Record::cold()
        }
    }
}
