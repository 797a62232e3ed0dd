// Problems worked by hand, and lists that don't fit.
use assign_core::Sense;
use dense_search::{DenseProblem, Outcome, Record, search};
use search_base::NOBODY;
use std::alloc::{AllocError, Global};
use std::test::Fail;

// How a search from nothing ends.
fn search_cold(
    alloc: Global,
    problem: DenseProblem<'_>,
    prices: &mut [i64],
    objects: &mut [u32],
) -> Result<Outcome, AllocError> {
    search(alloc, problem, prices, objects, &mut Record::cold(), 0)
}

// Both persons like object 0 best. Person 0 pays 4 more elsewhere and person 1 pays 7 more, so
// person 0 gives way: 5 + 2. Object 2 is nobody's.
#[test]
fn two_persons_and_three_objects(rt: HostRuntime) -> Result<(), Fail> {
    let problem = DenseProblem {
        sense: Sense::Min,
        persons: 2,
        objects: 3,
        costs: &[1, 5, 6, 2, 9, 20],
    };
    let (mut prices, mut objects) = ([0i64; 3], [NOBODY; 2]);
    let outcome = search_cold(rt.alloc(), problem, &mut prices, &mut objects)?;
    assert!(rt; matches!(outcome, Outcome::Best));
    assert_eq!(rt; objects, [1, 0]);
    assert_eq!(rt; prices[2], 0);
    Ok(())
}

// Under `Max` the diagonal 4 + 6 is less than 7 + 5.
#[test]
fn the_greatest_total(rt: HostRuntime) -> Result<(), Fail> {
    let problem = DenseProblem {
        sense: Sense::Max,
        persons: 2,
        objects: 2,
        costs: &[4, 7, 5, 6],
    };
    let (mut prices, mut objects) = ([0i64; 2], [NOBODY; 2]);
    let outcome = search_cold(rt.alloc(), problem, &mut prices, &mut objects)?;
    assert!(rt; matches!(outcome, Outcome::Best));
    assert_eq!(rt; objects, [1, 0]);
    Ok(())
}

// A list with a cost too few, and a price too many.
#[test]
fn lists_that_do_not_fit(rt: HostRuntime) -> Result<(), Fail> {
    let problem = DenseProblem {
        sense: Sense::Min,
        persons: 2,
        objects: 2,
        costs: &[4, 7, 5],
    };
    let (mut prices, mut objects) = ([0i64; 2], [NOBODY; 2]);
    let outcome = search_cold(rt.alloc(), problem, &mut prices, &mut objects)?;
    assert!(rt; matches!(outcome, Outcome::Lost));
    let whole = DenseProblem {
        costs: &[4, 7, 5, 6],
        ..problem
    };
    let mut more = [0i64; 3];
    let outcome = search_cold(rt.alloc(), whole, &mut more, &mut objects)?;
    assert!(rt; matches!(outcome, Outcome::Lost));
    Ok(())
}
