// Costs of every spread, dense and sparse: what a search finds at once, in short pieces, and from
// prices of its own and of no sense.
use super::*;
use std::test::Fail;

// Stops after so many looks at pairs.
#[derive(Drop)]
struct Stops {
    arc_scans: u64,
}

impl Observer for Stops {
    fn assigned(&self, _persons: u16) {}

    fn arc_scans(&self, _pairs: usize) -> u64 {
        self.arc_scans
    }
}

// What a search in pieces finds, and its prices.
fn found_in_pieces(
    alloc: Global,
    problem: &Problem,
    sense: Sense,
    arc_scans: u64,
    first: Option<&[Price]>,
) -> Result<(Finding, Vec<Price>), AllocError> {
    match try_paths(alloc, problem, sense, first, &Stops { arc_scans })? {
        Some(outcome) => {
            let prices = match &outcome {
                Outcome::Best(best) => best.prices.as_slice().to_vec(alloc)?,
                Outcome::Hall(_) => Vec::new(alloc),
            };
            Ok((found_in(problem, &outcome), prices))
        }
        None => Ok((Finding::Nothing, Vec::new(alloc))),
    }
}

// A number from 0 to `most`.
fn drawn(seed: &mut u64, most: u64) -> Cost {
    let number = next_number(seed).wrapping_shl(20) ^ next_number(seed);
    Cost::try_from(number.checked_rem(most.saturating_add(1)).unwrap_or(0)).unwrap_or(0)
}

// The least possible cost, one that is `spread` above it, and then drawn ones between them. Of
// sparse problems some ten more pairs for each person than an assignment's.
fn pairs_of(alloc: Global, n: u16, spread: u64, is_dense: bool) -> Result<Vec<Pair>, AllocError> {
    let mut seed = spread;
    let mut pairs = Vec::new(alloc);
    for i in 0..n {
        for j in 0..n {
            let above = match (i, j) {
                (0, 0) => 0,
                (1, 1) => Cost::try_from(spread).unwrap_or(0),
                _ => drawn(&mut seed, spread),
            };
            if is_dense || i == j || next_number(&mut seed) % u64::from(n) < 10 {
                pairs.push((i + 1, j + 1, above.wrapping_sub(GREATEST_COST)))?;
            }
        }
    }
    Ok(pairs)
}

// First prices that fit no problem.
fn far_prices(alloc: Global, n: u16) -> Result<Vec<Price>, AllocError> {
    let mut prices = Vec::new(alloc);
    for j in 0..n {
        let part = GREATEST_FIRST_PRICE / 7;
        prices.push(Price::from(u64::from(j) % 7).wrapping_mul(part))?;
    }
    Ok(prices)
}

// Whether all searches find the same, which is an assignment at exact prices.
fn agree(alloc: Global, pairs: &[Pair], n: u16, sense: Sense) -> Result<bool, AllocError> {
    let problem = problem_of(alloc, size(n), pairs)?;
    let (whole, prices) = found_in_pieces(alloc, &problem, sense, 0, None)?;
    let far = far_prices(alloc, n)?;
    let mut same = matches!(whole, Finding::Best(_));
    for arc_scans in [0, 1, 1000] {
        for first in [None, Some(prices.as_slice()), Some(far.as_slice())] {
            let (found, _) = found_in_pieces(alloc, &problem, sense, arc_scans, first)?;
            same = same && found == whole;
        }
    }
    Ok(same)
}

// The first spread at which they differ.
fn differing(alloc: Global, n: u16, spreads: &[u64]) -> Result<Option<(u64, bool)>, AllocError> {
    for spread in spreads {
        for is_dense in [true, false] {
            let pairs = pairs_of(alloc, n, *spread, is_dense)?;
            for sense in [Sense::Min, Sense::Max] {
                if !agree(alloc, pairs.as_slice(), n, sense)? {
                    return Ok(Some((*spread, is_dense)));
                }
            }
        }
    }
    Ok(None)
}

#[test]
fn spreads_at_once_and_in_pieces(rt: HostRuntime) -> Result<(), Fail> {
    let spreads = [0, 9, 1000, 1_000_000, 33_554_432, 2_000_000_000_000];
    assert_eq!(rt; differing(rt.alloc(), 60, &spreads)?, None);
    Ok(())
}

// A hundred persons list fifty objects, at costs near and far.
#[test]
fn too_few_objects(rt: HostRuntime) -> Result<(), Fail> {
    let alloc = rt.alloc();
    for spread in [1000, 2_000_000_000_000] {
        let mut pairs = Vec::new(alloc);
        for pair in pairs_of(alloc, 100, spread, true)?.as_slice() {
            if pair.1 <= 50 {
                pairs.push(*pair)?;
            }
        }
        let problem = problem_of(alloc, size(100), pairs.as_slice())?;
        for arc_scans in [0, 1000] {
            let (found, _) = found_in_pieces(alloc, &problem, Sense::Max, arc_scans, None)?;
            assert_eq!(rt; found, Finding::Hall);
        }
    }
    Ok(())
}
