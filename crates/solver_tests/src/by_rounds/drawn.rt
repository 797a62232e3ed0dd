// Drawn problems, compared with a search of all assignments and with the plain transcription.
use super::beside::agrees;
use super::*;
use std::test::Fail;

// Pairs of at most six persons: all of them or some, with few costs or many.
fn drawn(alloc: Global, seed: &mut u64) -> Result<(u16, Vec<Pair>), AllocError> {
    let n = draw(seed, 6) + 1;
    let range = if draw(seed, 2) == 0 { 4 } else { 1000 };
    let share = draw(seed, 4) + 1;
    let mut pairs = Vec::new(alloc);
    for i in 0..n {
        for j in 0..n {
            let cost = Cost::from(draw(seed, range)) - 2;
            if draw(seed, 4) < share {
                pairs.push((i + 1, j + 1, cost))?;
            }
        }
    }
    Ok((n, pairs))
}

// The number of problems, of these drawn from a seed, that agree.
fn agreeing(
    rt: &(impl Threads + Sync),
    alloc: Global,
    least: usize,
    turns: usize,
    seed: u64,
) -> Result<usize, AllocError> {
    let mut seed = seed;
    let mut count: usize = 0;
    for turn in 0..turns {
        let sense = sense_of(turn);
        let (n, pairs) = drawn(alloc, &mut seed)?;
        let pieces = InPieces { rt, least };
        if agrees(pieces, alloc, n, pairs.as_slice(), sense, true)? {
            count = count.wrapping_add(1);
        }
    }
    Ok(count)
}

#[test]
fn drawn_problems(rt: HostRuntime) -> Result<(), Fail> {
    for (least, turns, seed) in [
        (LEAST_PAIRS, 700, 2026),
        (LEAST_PAIRS, 700, 11),
        (LEAST_PAIRS, 700, 22),
        (1, 30, 1),
    ] {
        let count = agreeing(&rt, rt.alloc(), least, turns, seed)?;
        assert_eq!(rt; count, turns, "seed {seed}");
    }
    Ok(())
}
