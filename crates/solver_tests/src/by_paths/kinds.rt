// Problems of each kind, and drawn ones.
use super::*;
use rounds::solve_rounds_alone;
use std::test::Fail;

// The number of kinds.
const KINDS: u8 = 19;

// The cost of object j for person i, numbered from 0 among n, with a drawn number.
fn cost(kind: u8, n: u16, i: u16, j: u16, drawn: Cost) -> Option<Cost> {
    let (row, column) = (Cost::from(i), Cost::from(j));
    let half = n / 2;
    match kind {
        0 => Some(drawn % 10),
        1 => Some(drawn % 1000),
        2 => Some(drawn % 1_000_000),
        // Equal rows, equal columns, and all alike.
        3 => Some(column * 7919 % 1000),
        4 => Some(row * 7919 % 1000),
        5 => Some(7),
        // Similar rows.
        6 => Some(row * 7919 % 4000 + column * 104_729 % 4000 + drawn % 50),
        7 => Some(row * column),
        8 => Some(if j == 0 { 1_000_000 } else { 1 }),
        // Three objects of each person at a low cost.
        9 => Some(if i ^ j < 3 { 1 } else { 1000 }),
        // High costs in place of forbidden pairs.
        10 => Some(if drawn % 5 == 0 {
            drawn % 1000
        } else {
            1_000_000
        }),
        // Dummies by rows and by columns.
        11 => Some(if i % 4 == 0 { 0 } else { drawn % 1000 }),
        12 => Some(if j % 4 == 0 { 0 } else { drawn % 1000 }),
        13 => Some(if i % 10 == 0 { drawn % 1000 } else { 0 }),
        14 => (drawn % 4 == 0).then_some(drawn % 100),
        // One more person than the objects that they list.
        15 => (i > half || j < half).then_some(drawn % 100),
        // Few pairs: an assignment and drawn ones, or ten persons for nine objects.
        16 => (i == j || drawn % 16 == 0).then_some(drawn % 100),
        17 => (i < 10 && j < 9 || i >= 10 && i == j).then_some(drawn % 100),
        // Persons and objects in a line, ten places apart: the person at its end moves all others
        // on.
        _ => {
            let apart = row + 10 - column;
            Some(apart.wrapping_mul(apart))
        }
    }
}

// The pairs of a problem of some kind.
fn pairs_of(alloc: Global, kind: u8, n: u16, seed: u64) -> Result<Vec<Pair>, AllocError> {
    let mut seed = seed;
    let mut pairs = Vec::new(alloc);
    for i in 0..n {
        for j in 0..n {
            let drawn = (next_number(&mut seed) % 1_000_000_000) as Cost;
            if let Some(cost) = cost(kind, n, i, j, drawn) {
                pairs.push((i + 1, j + 1, cost))?;
            }
        }
    }
    Ok(pairs)
}

// What a search of all assignments finds.
fn plainly_found(
    alloc: Global,
    n: u16,
    pairs: &[Pair],
    sense: Sense,
) -> Result<Finding, AllocError> {
    Ok(match best_cost(alloc, n, pairs, sense)? {
        Some(cost) => Finding::Best(cost),
        None => Finding::Hall,
    })
}

// The first of `turns` small problems of all kinds, drawn from a seed, for which paths and the slow
// search differ.
fn found_otherwise(alloc: Global, turns: u64) -> Result<Option<(u64, Finding)>, AllocError> {
    for turn in 0..turns {
        let sense = if turn / 6 % 2 == 0 {
            Sense::Min
        } else {
            Sense::Max
        };
        let n = (turn % 6) as u16 + 1;
        let kind = (turn % u64::from(KINDS)) as u8;
        let pairs = pairs_of(alloc, kind, n, turn)?;
        let first = [5, 0, 77, GREATEST_FIRST_PRICE, 1_000_000];
        let first = (turn / 6 % 3 == 0).then_some(first.as_slice());
        let seen = found(alloc, n, pairs.as_slice(), sense, first)?;
        if seen != plainly_found(alloc, n, pairs.as_slice(), sense)? {
            return Ok(Some((turn, seen)));
        }
    }
    Ok(None)
}

#[test]
fn drawn_problems(rt: HostRuntime) -> Result<(), Fail> {
    assert_eq!(rt; found_otherwise(rt.alloc(), 3000)?, None);
    Ok(())
}

// The cost that rounds find.
fn found_by_rounds(alloc: Global, n: u16, pairs: &[Pair]) -> Result<Option<Cost>, AllocError> {
    let scaled = scaled_of(alloc, size(n), pairs, Sense::Min)?;
    let again = scaled.clone()?;
    match solve_rounds_alone(alloc, scaled) {
        Ok(outcome) => Ok(cost_of(found_in(again.problem(), &outcome))),
        Err(_) => Err(AllocError),
    }
}

fn cost_of(found: Finding) -> Option<Cost> {
    match found {
        Finding::Best(cost) => Some(cost),
        Finding::Inexact(cost) => Some(cost),
        _ => None,
    }
}

// What paths find in a problem of some kind, if rounds find another cost or the prices aren't
// exact.
fn other_than_rounds(alloc: Global, kind: u8, n: u16) -> Result<Option<Finding>, AllocError> {
    let pairs = pairs_of(alloc, kind, n, u64::from(kind))?;
    let seen = found(alloc, n, pairs.as_slice(), Sense::Min, None)?;
    let wanted = match found_by_rounds(alloc, n, pairs.as_slice())? {
        Some(cost) => Finding::Best(cost),
        None => Finding::Hall,
    };
    Ok((seen != wanted).then_some(seen))
}

// What paths find from first prices of 0.
fn found_from_zeros(alloc: Global, kind: u8, n: u16) -> Result<Finding, AllocError> {
    let pairs = pairs_of(alloc, kind, n, 7)?;
    found(alloc, n, pairs.as_slice(), Sense::Min, Some(&[]))
}

// First prices that the solver leaves for its usual ones: with kind 7 few persons are matched with
// best objects; with the other kind all but ten are, each of which needs a search through all
// others.
#[test]
fn starts_that_are_given_up(rt: HostRuntime) -> Result<(), Fail> {
    // The greatest row number with the least column number: the sum of i * (199 - i).
    assert_eq!(rt;
        found_from_zeros(rt.alloc(), 7, 200)?,
        Finding::Best(1_313_400)
    );
    // All are ten places away.
    assert_eq!(rt;
        found_from_zeros(rt.alloc(), 18, 640)?,
        Finding::Best(640 * 100)
    );
    Ok(())
}

#[test]
fn kinds_beside_rounds(rt: HostRuntime) -> Result<(), Fail> {
    for kind in 0..KINDS {
        // For these an auction does a large part of the work, or few persons are left to search
        // for.
        let n = if kind == 7 || kind >= 16 { 200 } else { 48 };
        assert_eq!(rt;
            other_than_rounds(rt.alloc(), kind, n)?,
            None,
            "kind {kind}"
        );
    }
    Ok(())
}
