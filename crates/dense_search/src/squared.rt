// The auction over a copy of the costs, and searches after it. Dummy persons, to which all objects cost the
// same, make a square of it: unowned objects come down to the least price then.
use super::auction::auction;
use super::bids::bid_within;
use super::copied::{BIDS, search_market};
use super::firsts::first_values;
use super::market::Market;
use super::matrix::Matrix;
use super::number::{Number, greater, lesser};
use super::paths::augment_by_rows;
use super::prices::begin;
use super::reading::AsCosts;
use super::record::{Ended, Record, Stage};
use search_base::{ArcScans, NOBODY};
use std::alloc::{AllocError, Global};

// The first slackness is this part of the spread of the costs.
const FIRST_DIVISOR: i64 = 5;

type Copied<'a> = Matrix<'a, i32, AsCosts>;

// The greatest cost less the least one.
fn spread_of(costs: &[i32]) -> i64 {
    let (mut least, mut greatest) = (i32::MAX, i32::MIN);
    for cost in costs {
        least = lesser(least, *cost);
        greatest = greater(greatest, *cost);
    }
    greatest.wide().saturating_sub(least.wide())
}

fn begin_auction(
    alloc: Global,
    matrix: &Copied<'_>,
    market: &mut Market<'_, i32>,
    record: &mut Record,
    arc_scans: &mut ArcScans,
) -> Result<(), AllocError> {
    let firsts = first_values(alloc, matrix)?;
    arc_scans.add(begin(matrix, firsts.as_slice(), market.prices));
    record.slackness = spread_of(matrix.costs) / FIRST_DIVISOR;
    record.bids = 0;
    record.stage = Stage::CopyAuction;
    Ok(())
}

// The auction, and searches from its prices, from the stage of the record on.
fn search_square(
    alloc: Global,
    matrix: &Copied<'_>,
    market: &mut Market<'_, i32>,
    record: &mut Record,
    arc_scans: &mut ArcScans,
) -> Result<Ended, AllocError> {
    if let Stage::CopyPaths = record.stage {
        begin_auction(alloc, matrix, market, record, arc_scans)?;
    }
    if let Stage::CopyAuction = record.stage {
        if !auction(alloc, matrix, market, record, arc_scans)? {
            return Ok(Ended::Stopped);
        }
        market.release_all();
        let most = matrix.persons.saturating_mul(BIDS);
        let _ = bid_within(matrix, market, most, arc_scans);
        record.stage = Stage::CopyFinish;
    }
    augment_by_rows(alloc, matrix, market, u64::MAX, arc_scans)
}

// Writes the objects of the first persons. Returns whether each of them has one.
fn take_first(all: &[u32], objects: &mut [u32]) -> bool {
    let mut have_all = true;
    for (from, to) in all.iter().zip(objects.iter_mut()) {
        have_all = have_all && *from != NOBODY;
        *to = *from;
    }
    have_all
}

// The same with dummies. What a call that is stopped leaves of these, searches from unowned objects do.
fn search_with_dummies(
    alloc: Global,
    costs: Vec<i32>,
    prices: &mut [i32],
    objects: &mut [u32],
    record: &mut Record,
    arc_scans: &mut ArcScans,
) -> Result<Ended, AllocError> {
    let (mut costs, count) = (costs, prices.len());
    costs.resize(count.wrapping_mul(count), 0)?;
    let mut all = objects.to_vec(alloc)?;
    all.resize(count, NOBODY)?;
    let matrix = Matrix {
        persons: count,
        objects: count,
        costs: costs.as_slice(),
        reading: AsCosts,
    };
    let mut market = Market::new(alloc, prices, all.as_mut_slice())?;
    let ended = search_square(alloc, &matrix, &mut market, record, arc_scans)?;
    let have_all = take_first(market.objects, objects);
    Ok(match ended {
        Ended::Stopped if have_all => Ended::Assigned,
        ended => ended,
    })
}

// Bids and searches over a copy of the costs, and an auction where these take too long.
pub fn search_copy(
    alloc: Global,
    costs: Vec<i32>,
    prices: &mut [i32],
    objects: &mut [u32],
    record: &mut Record,
    arc_scans: &mut ArcScans,
) -> Result<Ended, AllocError> {
    if !matches!(record.stage, Stage::CopyAuction | Stage::CopyFinish) {
        let matrix = Matrix {
            persons: objects.len(),
            objects: prices.len(),
            costs: costs.as_slice(),
            reading: AsCosts,
        };
        let mut market = Market::new(alloc, &mut *prices, &mut *objects)?;
        let ended = search_market(alloc, &matrix, &mut market, record, arc_scans)?;
        let Ended::Long = ended else {
            return Ok(ended);
        };
    }
    search_with_dummies(alloc, costs, prices, objects, record, arc_scans)
}
