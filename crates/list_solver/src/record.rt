// Where a search stands between two calls, as numbers.
use dense_search::{Record as DenseRecord, Stage as DenseStage};
use sparse_search::{Record as SparseRecord, Stage as SparseStage};

// The numbers of the stages of both searches. Any other number stands for the beginning.
const COLD: u32 = 1;

const WARM: u32 = 2;

const PATHS: u32 = 3;

const CORE: u32 = 4;

const RETRY: u32 = 5;

const AUCTION: u32 = 6;

const FINISH: u32 = 7;

const MATCHING: u32 = 8;

const FIRST_TIGHT: u32 = 9;

const LAST_TIGHT: u32 = 10;

const HELP: u32 = 11;

const UNOWNED: u32 = 12;

const BIDS: u32 = 13;

const WARM_TIGHT: u32 = 14;

const COPY_PATHS: u32 = 15;

const COPY_AUCTION: u32 = 16;

const COPY_FINISH: u32 = 17;

// The bit of the flags.
const HAS_ASSIGNMENT: u32 = 1;

/// Where a search stands between two calls. Whatever it holds, the checker alone decides about the
/// next answer.
#[repr(C)]
#[derive(Clone, Copy)]
pub struct Record {
    /// What the search does next; 0: it begins.
    pub stage: u32,
    /// Costs count two to this power, and prices are in this unit.
    pub shift: u32,
    /// The slackness of the auction.
    pub slackness: i64,
    /// The bids of this phase of the auction.
    pub bids: u64,
    /// The passes over all pairs that found pairs better than a core's. For listed pairs two numbers of
    /// 32 bits: where the stage goes on, and how long a search usually was.
    pub passes: u64,
    /// How often dummies bid in this phase. For rows, how often an end didn't hold
    /// or didn't come.
    pub dummy_bids: u32,
    /// 1: an assignment is known to exist.
    pub flags: u32,
    /// The arc scans of all calls.
    pub arc_scans: u64,
}

fn dense_stage(number: u32) -> Option<DenseStage> {
    match number {
        COLD => Some(DenseStage::Cold),
        WARM => Some(DenseStage::Warm),
        PATHS => Some(DenseStage::Paths),
        CORE => Some(DenseStage::Core),
        RETRY => Some(DenseStage::Retry),
        AUCTION => Some(DenseStage::Auction),
        FINISH => Some(DenseStage::Finish),
        COPY_PATHS => Some(DenseStage::CopyPaths),
        COPY_AUCTION => Some(DenseStage::CopyAuction),
        COPY_FINISH => Some(DenseStage::CopyFinish),
        _ => None,
    }
}

fn number_of_dense(stage: DenseStage) -> u32 {
    match stage {
        DenseStage::Cold => COLD,
        DenseStage::Warm => WARM,
        DenseStage::Paths => PATHS,
        DenseStage::Core => CORE,
        DenseStage::Retry => RETRY,
        DenseStage::Auction => AUCTION,
        DenseStage::Finish => FINISH,
        DenseStage::CopyPaths => COPY_PATHS,
        DenseStage::CopyAuction => COPY_AUCTION,
        DenseStage::CopyFinish => COPY_FINISH,
    }
}

fn sparse_stage(number: u32) -> Option<SparseStage> {
    match number {
        COLD => Some(SparseStage::Cold),
        WARM => Some(SparseStage::Warm),
        WARM_TIGHT => Some(SparseStage::WarmTight),
        BIDS => Some(SparseStage::Bids),
        FIRST_TIGHT => Some(SparseStage::FirstTight),
        PATHS => Some(SparseStage::FirstPaths),
        AUCTION => Some(SparseStage::Auction),
        HELP => Some(SparseStage::Help),
        MATCHING => Some(SparseStage::Matching),
        LAST_TIGHT => Some(SparseStage::LastTight),
        FINISH => Some(SparseStage::LastPaths),
        UNOWNED => Some(SparseStage::Unowned),
        _ => None,
    }
}

fn number_of_sparse(stage: SparseStage) -> u32 {
    match stage {
        SparseStage::Cold => COLD,
        SparseStage::Warm => WARM,
        SparseStage::WarmTight => WARM_TIGHT,
        SparseStage::Bids => BIDS,
        SparseStage::FirstTight => FIRST_TIGHT,
        SparseStage::FirstPaths => PATHS,
        SparseStage::Auction => AUCTION,
        SparseStage::Help => HELP,
        SparseStage::Matching => MATCHING,
        SparseStage::LastTight => LAST_TIGHT,
        SparseStage::LastPaths => FINISH,
        SparseStage::Unowned => UNOWNED,
    }
}

fn flag(is_set: bool, bit: u32) -> u32 {
    if is_set { bit } else { 0 }
}

// More arc scans than any search takes.
const MOST_ARC_SCANS: u64 = 1 << 62;

impl Record {
    /// A search that begins.
    pub fn cold() -> Record {
        Record {
            stage: 0,
            shift: 0,
            slackness: 0,
            bids: 0,
            passes: 0,
            dummy_bids: 0,
            flags: 0,
            arc_scans: 0,
        }
    }

    // The arc scans so far, with room for more.
    fn arc_scans_so_far(&self) -> u64 {
        self.arc_scans.min(MOST_ARC_SCANS)
    }

    // For the search over rows. A search begins with nothing, or with what somebody has.
    pub fn to_dense(&self, has_nothing: bool) -> DenseRecord {
        let begun = if has_nothing {
            DenseRecord::cold()
        } else {
            DenseRecord::warm()
        };
        match dense_stage(self.stage) {
            None => DenseRecord {
                arc_scans: self.arc_scans_so_far(),
                ..begun
            },
            Some(stage) => DenseRecord {
                stage,
                shift: self.shift,
                slackness: self.slackness,
                bids: self.bids,
                passes: self.passes,
                restarts: self.dummy_bids,
                arc_scans: self.arc_scans_so_far(),
            },
        }
    }

    // For the search over listed pairs. A search begins with nothing, or with what somebody has.
    pub fn to_sparse(&self, has_nothing: bool) -> SparseRecord {
        let begun = if has_nothing {
            SparseRecord::cold()
        } else {
            SparseRecord::warm()
        };
        match sparse_stage(self.stage) {
            None => SparseRecord {
                arc_scans: self.arc_scans_so_far(),
                ..begun
            },
            Some(stage) => SparseRecord {
                stage,
                shift: self.shift,
                slackness: self.slackness,
                bids: self.bids,
                dummy_bids: self.dummy_bids,
                has_assignment: self.flags & HAS_ASSIGNMENT != 0,
                place: (self.passes & 0xffff_ffff) as u32,
                usual: (self.passes >> 32) as u32,
                arc_scans: self.arc_scans_so_far(),
            },
        }
    }

    // Whether the search over listed pairs begins with this record, so that prices are in the unit
    // of the costs.
    pub fn begins_sparse(&self) -> bool {
        match sparse_stage(self.stage) {
            None | Some(SparseStage::Cold | SparseStage::Warm) => true,
            Some(_) => false,
        }
    }

    pub fn of_dense(record: &DenseRecord) -> Record {
        Record {
            stage: number_of_dense(record.stage),
            shift: record.shift,
            slackness: record.slackness,
            bids: record.bids,
            passes: record.passes,
            dummy_bids: record.restarts,
            flags: 0,
            arc_scans: record.arc_scans,
        }
    }

    pub fn of_sparse(record: &SparseRecord) -> Record {
        Record {
            stage: number_of_sparse(record.stage),
            shift: record.shift,
            slackness: record.slackness,
            bids: record.bids,
            passes: u64::from(record.usual) << 32 | u64::from(record.place),
            dummy_bids: record.dummy_bids,
            flags: flag(record.has_assignment, HAS_ASSIGNMENT),
            arc_scans: record.arc_scans,
        }
    }
}
