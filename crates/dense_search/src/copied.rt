// Bids and searches over a copy of the costs, for problems of middle size, or over the costs of small
// ones.
use super::bids::{bid_within, give_least};
use super::firsts::first_values;
use super::market::Market;
use super::matrix::Matrix;
use super::number::Number;
use super::paths::augment_by_rows;
use super::prices::begin;
use super::reading::Reading;
use super::record::{Ended, Record, Stage};
use search_base::ArcScans;
use std::alloc::{AllocError, Global};

// The bids of each person before the searches, without slackness.
pub const BIDS: usize = 4;

// The first ones are this part of the persons. If at most one in so many assigns a person, bids begin
// again, after each object went to a person with its least cost.
const TRIAL: usize = 4;

const POOR: usize = 8;

// The passes over all pairs that searches may be expected to take; else an auction comes before them. With more
// objects than persons it gains less.
const PASSES: u64 = 100;

const PASSES_OF_RECTANGLES: u64 = 128;

// First prices, and bids without slackness.
fn begin_paths<K: Number, R: Reading<K>>(
    alloc: Global,
    matrix: &Matrix<'_, K, R>,
    market: &mut Market<'_, K>,
    record: &mut Record,
    arc_scans: &mut ArcScans,
) -> Result<(), AllocError> {
    let firsts = first_values(alloc, matrix)?;
    market.release_all();
    arc_scans.add(begin(matrix, firsts.as_slice(), market.prices));
    let made = bid_within(matrix, market, matrix.persons / TRIAL, arc_scans).made;
    let assigned = matrix.persons.saturating_sub(market.unassigned());
    if matrix.persons == matrix.objects && assigned < made / POOR {
        market.release_all();
        arc_scans.add(begin(matrix, firsts.as_slice(), market.prices));
        arc_scans.add(give_least(matrix, market, firsts.as_slice()));
    }
    let most = matrix.persons.saturating_mul(BIDS);
    let _ = bid_within(matrix, market, most, arc_scans);
    record.passes = 0;
    record.bids = 0;
    record.stage = Stage::CopyPaths;
    Ok(())
}

// Whether all searches take more than these arc scans at the pace of earlier calls, whose searches the
// record counts as bids.
fn were_slow(record: &Record, left: usize, most: u64, pairs: usize) -> bool {
    let spent = record.passes.saturating_mul(pairs as u64);
    let rest = spent.checked_div(record.bids).unwrap_or(0);
    spent.saturating_add(rest.saturating_mul(left as u64)) > most
}

// Bids and searches, as long as an auction isn't expected to be faster. They go on where the record says, if
// its stage is one of theirs.
pub fn search_market<K: Number, R: Reading<K>>(
    alloc: Global,
    matrix: &Matrix<'_, K, R>,
    market: &mut Market<'_, K>,
    record: &mut Record,
    arc_scans: &mut ArcScans,
) -> Result<Ended, AllocError> {
    if !record.stage.is_copied() {
        begin_paths(alloc, matrix, market, record, arc_scans)?;
    }
    let (before, left, pairs) = (arc_scans.done, market.unassigned(), matrix.pairs());
    let passes = if matrix.persons < matrix.objects {
        PASSES_OF_RECTANGLES
    } else {
        PASSES
    };
    let most = (pairs as u64).saturating_mul(passes);
    if were_slow(record, left, most, pairs) {
        return Ok(Ended::Long);
    }
    let most = record.left_of(most, pairs);
    let ended = augment_by_rows(alloc, matrix, market, most, arc_scans)?;
    record.count_passes(ended, arc_scans.since(before), pairs);
    let assigned = left.saturating_sub(market.unassigned()) as u64;
    record.bids = record.bids.saturating_add(assigned);
    Ok(ended)
}
