// Problems with known outcomes, solved in pieces of several lengths, and the public calls.
use super::*;
use rounds::{solve_rounds, solve_rounds_alone, solve_rounds_alone_from, solve_rounds_from};
use std::test::Fail;

// The result of the public calls: from zeros, or from these first prices.
fn publicly_solved(
    rt: &(impl Threads + Sync),
    alloc: Global,
    n: u16,
    pairs: &[Pair],
    first: Option<&[Price]>,
) -> Result<Seen, AllocError> {
    let n = size(n);
    let scaled = scaled_of(alloc, n, pairs, Sense::Min)?;
    let outcome = match first {
        Some(first) => solve_rounds_from(rt, alloc, scaled, first_prices(alloc, n, first)?),
        None => solve_rounds(rt, alloc, scaled),
    };
    settled(alloc, outcome)
}

// The result of the calls that need no handle.
fn solved_alone(
    alloc: Global,
    n: u16,
    pairs: &[Pair],
    first: Option<&[Price]>,
) -> Result<Seen, AllocError> {
    let n = size(n);
    let scaled = scaled_of(alloc, n, pairs, Sense::Min)?;
    let outcome = match first {
        Some(first) => solve_rounds_alone_from(alloc, scaled, first_prices(alloc, n, first)?),
        None => solve_rounds_alone(alloc, scaled),
    };
    settled(alloc, outcome)
}

fn best(alloc: Global, objects: &[u16], prices: &[Price]) -> Result<Seen, AllocError> {
    Ok(Seen::Best(objects.to_vec(alloc)?, prices.to_vec(alloc)?))
}

fn hall(alloc: Global, persons: &[u16], objects: &[u16]) -> Result<Seen, AllocError> {
    Ok(Seen::Hall(persons.to_vec(alloc)?, objects.to_vec(alloc)?))
}

// Whether rounds in pieces of several lengths all have this result.
fn are_outcome(
    rt: &(impl Threads + Sync),
    alloc: Global,
    n: u16,
    pairs: &[Pair],
    sense: Sense,
    first: &[Price],
    wanted: &Seen,
) -> Result<bool, AllocError> {
    let mut all = true;
    for least in [1, 2, LEAST_PAIRS] {
        all &= solved(rt, alloc, least, n, pairs, sense, first)? == *wanted;
    }
    Ok(all)
}

// Whether rounds on a dense problem find an optimal assignment with these objects and prices.
fn are_dense(
    rt: &(impl Threads + Sync),
    alloc: Global,
    n: u16,
    costs: &[Cost],
    sense: Sense,
    first: &[Price],
    wanted: (&[u16], &[Price]),
) -> Result<bool, AllocError> {
    let pairs = dense(alloc, n, costs)?;
    let wanted = best(alloc, wanted.0, wanted.1)?;
    are_outcome(rt, alloc, n, pairs.as_slice(), sense, first, &wanted)
}

// The number of persons, all costs, the sense, the first prices if they aren't 0, and the final
// objects and prices.
type Dense<'a> = (u16, &'a [Cost], Sense, &'a [Price], &'a [u16], &'a [Price]);

#[test]
fn worked_dense_problems(rt: HostRuntime) -> Result<(), Fail> {
    let wide = GREATEST_COST / 1_000_000;
    let table: [Dense; 8] = [
        (1, &[7], Sense::Min, &[], &[1], &[1]),
        (2, &[1, 2, 3, 5], Sense::Min, &[], &[2, 1], &[14, 12]),
        (2, &[1, 2, 3, 5], Sense::Max, &[], &[1, 2], &[12, 14]),
        (2, &[1, 2, 3, 5], Sense::Min, &[14, 12], &[2, 1], &[26, 24]),
        (
            3,
            &[2, 2, 2, 2, 2, 2, 2, 2, 2],
            Sense::Min,
            &[],
            &[1, 2, 3],
            &[1, 1, 2],
        ),
        (
            2,
            &[wide, -wide, -wide, wide],
            Sense::Min,
            &[],
            &[2, 1],
            &[61499999, 61499999],
        ),
        (
            2,
            &[GREATEST_COST, -GREATEST_COST, -GREATEST_COST, GREATEST_COST],
            Sense::Min,
            &[],
            &[2, 1],
            &[109499999999997, 109499999999997],
        ),
        (
            1,
            &[7],
            Sense::Min,
            &[GREATEST_FIRST_PRICE],
            &[1],
            &[GREATEST_FIRST_PRICE + 1],
        ),
    ];
    for (at, (n, costs, sense, first, objects, prices)) in table.into_iter().enumerate() {
        let wanted = (objects, prices);
        let same = are_dense(&rt, rt.alloc(), n, costs, sense, first, wanted)?;
        assert!(rt; same, "at {at}");
    }
    Ok(())
}

// Whether all public calls end at these prices from the first ones.
fn publicly_agreed(
    rt: &(impl Threads + Sync),
    alloc: Global,
    first: Option<&[Price]>,
    prices: &[Price],
) -> Result<bool, AllocError> {
    let wanted = best(alloc, &[2, 1], prices)?;
    Ok(
        publicly_solved(rt, alloc, 2, &TWO_PERSONS, first)? == wanted
            && solved_alone(alloc, 2, &TWO_PERSONS, first)? == wanted,
    )
}

#[test]
fn public_calls(rt: HostRuntime) -> Result<(), Fail> {
    let table: [(Option<&[Price]>, [Price; 2]); 3] = [
        (None, [14, 12]),
        (Some(&[]), [14, 12]),
        (Some(&[14, 12]), [26, 24]),
    ];
    for (first, prices) in table {
        assert!(rt; publicly_agreed(&rt, rt.alloc(), first, &prices)?);
    }
    Ok(())
}

// Whether rounds find these persons, who list only these objects.
fn is_hall(
    rt: &(impl Threads + Sync),
    alloc: Global,
    n: u16,
    pairs: &[Pair],
    persons: &[u16],
    objects: &[u16],
) -> Result<bool, AllocError> {
    let wanted = hall(alloc, persons, objects)?;
    Ok(solved(rt, alloc, 1, n, pairs, Sense::Min, &[])? == wanted)
}

#[test]
fn worked_sparse_problems(rt: HostRuntime) -> Result<(), Fail> {
    let table: [(u16, &[Pair], &[u16], &[u16]); 4] = [
        (3, &CONTESTED, &[1, 2], &[1]),
        (2, &[(1, 1, 5), (1, 2, 6)], &[2], &[]),
        (3, &[], &[1], &[]),
        (1, &[], &[1], &[]),
    ];
    for (n, pairs, persons, objects) in table {
        assert!(rt; is_hall(&rt, rt.alloc(), n, pairs, persons, objects)?);
    }
    Ok(())
}

// Costs with only one least assignment: the cost of person i for object j is u_i + v_j if j is its
// object there, and more otherwise.
const EIGHT: [Cost; 64] = [
    14, 20, 22, 28, 34, 40, 46, 48, 8, 14, 21, 24, 31, 34, 41, 44, 18, 22, 26, 29, 38, 42, 46, 50,
    10, 15, 20, 25, 30, 35, 40, 44, 15, 18, 27, 29, 35, 41, 47, 49, 10, 13, 20, 23, 30, 33, 37, 43,
    15, 19, 23, 27, 31, 39, 43, 47, 11, 16, 21, 26, 31, 35, 41, 46,
];

// One pair is listed twice.
const LISTED_TWICE: [Pair; 5] = [(1, 1, 9), (1, 1, 3), (1, 2, 4), (2, 1, 5), (2, 2, 8)];

// Whether rounds in pieces of at least this many pairs find an optimal assignment of these objects.
fn are_best(
    rt: &(impl Threads + Sync),
    alloc: Global,
    least: usize,
    n: u16,
    pairs: &[Pair],
    wanted: &[u16],
) -> Result<bool, AllocError> {
    match solved(rt, alloc, least, n, pairs, Sense::Min, &[])? {
        Seen::Best(objects, _) => Ok(objects.as_slice() == wanted),
        _ => Ok(false),
    }
}

#[test]
fn one_least_assignment(rt: HostRuntime) -> Result<(), Fail> {
    let eight = dense(rt.alloc(), 8, &EIGHT)?;
    for least in [1, 16, 32, LEAST_PAIRS] {
        assert!(rt; are_best(&rt, rt.alloc(), least, 2, &LISTED_TWICE, &[2, 1])?);
        let wanted = [3, 1, 4, 8, 2, 7, 5, 6];
        assert!(rt; are_best(&rt, rt.alloc(), least, 8, eight.as_slice(), &wanted)?);
    }
    Ok(())
}
