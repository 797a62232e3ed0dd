// Problems with known outcomes, and the public calls.
use super::*;
use std::sync::atomic::{AtomicBool, AtomicU64, Ordering};
use std::test::Fail;

#[test]
fn small_problems(rt: HostRuntime) -> Result<(), Fail> {
    let most = GREATEST_COST;
    for (n, pairs, sense, wanted) in [
        (1, [(1, 1, 7)].as_slice(), Sense::Min, Finding::Best(7)),
        (1, &[], Sense::Min, Finding::Hall),
        (
            2,
            &[(1, 1, 1), (1, 2, 2), (2, 1, 3), (2, 2, 5)],
            Sense::Min,
            Finding::Best(5),
        ),
        (
            2,
            &[(1, 1, most), (1, 2, -most), (2, 1, -most), (2, 2, most)],
            Sense::Max,
            Finding::Best(2 * most),
        ),
        (
            3,
            &[(1, 1, 4), (2, 1, 6), (3, 2, 1), (3, 3, 2)],
            Sense::Min,
            Finding::Hall,
        ),
        (
            3,
            &[(1, 1, 0), (2, 1, 0), (2, 2, 7), (3, 2, 0), (3, 3, 9)],
            Sense::Min,
            Finding::Best(16),
        ),
    ] {
        assert_eq!(rt; found(rt.alloc(), n, pairs, sense, None)?, wanted);
    }
    Ok(())
}

// A price war for an auction, which is one search here; and prices between multiples of n + 1.
#[test]
fn first_prices_of_any_size(rt: HostRuntime) -> Result<(), Fail> {
    let mut pairs = [(1, 1, 2); 9];
    for (k, pair) in pairs.iter_mut().enumerate() {
        *pair = (k as u16 / 3 + 1, k as u16 % 3 + 1, 2);
    }
    for first in [[0, 0, GREATEST_FIRST_PRICE], [1, 5, 7]] {
        let seen = found(rt.alloc(), 3, &pairs, Sense::Min, Some(&first))?;
        assert_eq!(rt; seen, Finding::Best(6));
    }
    Ok(())
}

// Each person lists the object of its own number at one cost and the one before at another.
pub fn chain(alloc: Global, n: u16, own: Cost, other: Cost) -> Result<Vec<Pair>, AllocError> {
    let mut pairs = Vec::new(alloc);
    for i in 0..n {
        pairs.push((i + 1, i + 1, own))?;
        if i > 0 {
            pairs.push((i + 1, i, other))?;
        }
    }
    Ok(pairs)
}

#[test]
fn as_many_persons_as_there_may_be(rt: HostRuntime) -> Result<(), Fail> {
    let pairs = chain(rt.alloc(), MOST_PERSONS, 3, 1)?;
    let seen = found(rt.alloc(), MOST_PERSONS, pairs.as_slice(), Sense::Min, None)?;
    assert_eq!(rt; seen, Finding::Best(3 * Cost::from(MOST_PERSONS)));
    Ok(())
}

// The cost of an outcome, or none if no assignment exists.
fn cost_in(problem: &Problem, outcome: &Outcome) -> Option<Cost> {
    match outcome {
        Outcome::Best(best) => Some(cost_by(problem, best.assignment.objects())),
        Outcome::Hall(_) => None,
    }
}

// The result of the public call, from first prices if they are given.
fn solved(
    alloc: Global,
    n: u16,
    pairs: &[Pair],
    first: Option<&[Price]>,
) -> Result<Option<Cost>, AllocError> {
    let problem = problem_of(alloc, size(n), pairs)?;
    let outcome = solved_by(alloc, &problem, first, &Unobserved)?;
    Ok(cost_in(&problem, &outcome))
}

#[test]
fn public_calls(rt: HostRuntime) -> Result<(), Fail> {
    let pairs = [(1, 1, 1), (1, 2, 2), (2, 1, 3), (2, 2, 5)];
    for first in [None, Some([14, 12].as_slice())] {
        assert_eq!(rt; solved(rt.alloc(), 2, &pairs, first)?, Some(5));
    }
    Ok(())
}

// What rounds give in place of paths.
fn solved_by_rounds(
    alloc: Global,
    n: u16,
    pairs: &[Pair],
    sense: Sense,
) -> Result<Option<Cost>, AllocError> {
    let problem = problem_of(alloc, size(n), pairs)?;
    let outcome = solve_by_rounds(alloc, &problem, sense, &mut Alone)?;
    Ok(cost_in(&problem, &outcome))
}

#[test]
fn rounds_in_place_of_paths(rt: HostRuntime) -> Result<(), Fail> {
    let pairs = [(1, 1, 1), (1, 2, 2), (2, 1, 3), (2, 2, 5)];
    for (listed, sense, cost) in [
        (4, Sense::Min, Some(5)),
        (4, Sense::Max, Some(6)),
        (2, Sense::Min, None),
    ] {
        let seen = solved_by_rounds(rt.alloc(), 2, &pairs[..listed], sense)?;
        assert_eq!(rt; seen, cost);
    }
    Ok(())
}

// Follows a search in short pieces: how often it reported a number, the last number, and whether it
// reported an impossible number.
#[derive(Drop)]
struct Follower {
    persons: u16,
    told: AtomicU64,
    last: AtomicU64,
    wrong: AtomicBool,
}

fn new_follower(persons: u16) -> Follower {
    Follower {
        persons,
        told: AtomicU64::new(0),
        last: AtomicU64::new(0),
        wrong: AtomicBool::new(false),
    }
}

impl Observer for Follower {
    fn assigned(&self, persons: u16) {
        self.told.fetch_add(1, Ordering::SeqCst);
        self.last.store(u64::from(persons), Ordering::SeqCst);
        if persons > self.persons {
            self.wrong.store(true, Ordering::SeqCst);
        }
    }

    fn arc_scans(&self, pairs: usize) -> u64 {
        pairs as u64
    }
}

// The cost that is found while this follower observes.
fn followed(
    alloc: Global,
    pairs: &[Pair],
    first: Option<&[Price]>,
    follower: &Follower,
) -> Result<Option<Cost>, AllocError> {
    let problem = problem_of(alloc, size(follower.persons), pairs)?;
    let outcome = solved_by(alloc, &problem, first, follower)?;
    Ok(cost_in(&problem, &outcome))
}

// The cost of a pair is the product of its two numbers, which takes long searches.
fn products(alloc: Global, n: u16) -> Result<Vec<Pair>, AllocError> {
    let mut pairs = Vec::new(alloc);
    for place in 0..u32::from(n) * u32::from(n) {
        let person = (place / u32::from(n) + 1) as u16;
        let object = (place % u32::from(n) + 1) as u16;
        pairs.push((person, object, Cost::from(person) * Cost::from(object)))?;
    }
    Ok(pairs)
}

// The cost for the products of 120 persons from these first prices, how often a number was
// reported, the last number, and whether one was impossible.
fn products_followed(
    alloc: Global,
    first: Option<&[Price]>,
) -> Result<(Option<Cost>, [u64; 2], bool), AllocError> {
    let pairs = products(alloc, 120)?;
    let follower = new_follower(120);
    let seen = followed(alloc, pairs.as_slice(), first, &follower)?;
    let told = [&follower.told, &follower.last].map(|count| count.load(Ordering::SeqCst));
    Ok((seen, told, follower.wrong.load(Ordering::SeqCst)))
}

// The first persons get the last objects: the sum of i * (n + 1 - i) is n (n + 1) (n + 2) / 6.
#[test]
fn numbers_of_assigned_persons(rt: HostRuntime) -> Result<(), Fail> {
    let mut prices: [Price; 120] = [0; 120];
    prices[0] = 5;
    for first in [None, Some(prices.as_slice())] {
        let (cost, [told, last], wrong) = products_followed(rt.alloc(), first)?;
        assert_eq!(rt; cost, Some(295_240));
        assert!(rt; told > 2 && last == 120 && !wrong);
    }
    Ok(())
}

// Both persons prefer object 1, so that the price of the other object falls below 0.
#[test]
fn a_start_whose_prices_fall(rt: HostRuntime) -> Result<(), Fail> {
    let pairs = [(1, 1, 1), (1, 2, 5), (2, 1, 3), (2, 2, 4)];
    assert_eq!(rt; solved(rt.alloc(), 2, &pairs, Some(&[5, 5]))?, Some(5));
    Ok(())
}

// A list of another length counts as no first prices.
#[test]
fn first_prices_of_another_number(rt: HostRuntime) -> Result<(), Fail> {
    let pairs = [(1, 1, 1), (1, 2, 2), (2, 1, 3), (2, 2, 5)];
    for first in [[].as_slice(), &[7], &[7, 0, 9]] {
        assert_eq!(rt; solved(rt.alloc(), 2, &pairs, Some(first))?, Some(5));
    }
    Ok(())
}
