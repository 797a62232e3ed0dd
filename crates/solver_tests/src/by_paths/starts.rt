// First prices that save work, as an observer of short pieces sees.
use super::*;
use std::sync::atomic::{AtomicU64, Ordering};
use std::test::Fail;

// The number of pieces, each of as many arc scans as there are pairs.
#[derive(Drop)]
struct Pieces {
    count: AtomicU64,
}

impl Observer for Pieces {
    fn assigned(&self, _persons: u16) {
        self.count.fetch_add(1, Ordering::SeqCst);
    }

    fn arc_scans(&self, pairs: usize) -> u64 {
        pairs as u64
    }
}

// An outcome, and the number of its pieces.
fn counted(
    alloc: Global,
    problem: &Problem,
    first: Option<&[Price]>,
) -> Result<(Outcome, u64), AllocError> {
    let pieces = Pieces {
        count: AtomicU64::new(0),
    };
    let outcome = solved_by(alloc, problem, first, &pieces)?;
    Ok((outcome, pieces.count.load(Ordering::SeqCst)))
}

// Drawn costs of all pairs, or of a fifth of them and an assignment's.
fn drawn_pairs(alloc: Global, n: u16, is_dense: bool) -> Result<Vec<Pair>, AllocError> {
    let mut seed = u64::from(n);
    let mut pairs = Vec::new(alloc);
    for i in 0..n {
        for j in 0..n {
            let drawn = next_number(&mut seed);
            if is_dense || i == j || drawn % 5 == 0 {
                pairs.push((i + 1, j + 1, (drawn / 8 % 1_000_000) as Cost))?;
            }
        }
    }
    Ok(pairs)
}

// How many pieces a search takes without first prices, and from the prices that it found.
fn pieces_before_and_after(alloc: Global, is_dense: bool) -> Result<(u64, u64), AllocError> {
    let pairs = drawn_pairs(alloc, 150, is_dense)?;
    let problem = problem_of(alloc, size(150), pairs.as_slice())?;
    let (outcome, before) = counted(alloc, &problem, None)?;
    let after = match &outcome {
        Outcome::Best(best) => counted(alloc, &problem, Some(best.prices.as_slice()))?.1,
        Outcome::Hall(_) => before,
    };
    Ok((before, after))
}

#[test]
fn first_prices_save_pieces(rt: HostRuntime) -> Result<(), Fail> {
    for is_dense in [true, false] {
        let (before, after) = pieces_before_and_after(rt.alloc(), is_dense)?;
        assert!(rt; after < before, "{after} of {before}");
    }
    Ok(())
}
