// Problems worked by hand, and lists that don't fit.
use super::judged::{judge, search_cold};
use search_base::NOBODY;
use sparse_search::{HallSet, Outcome, Pair, SparseProblem};
use std::alloc::{AllocError, Global};
use std::test::Fail;

fn pair(object: u32, cost: i64) -> Pair {
    Pair { object, cost }
}

// The Hall set that it ends with.
fn hall_set(
    alloc: Global,
    problem: SparseProblem<'_>,
    prices: &mut [i64],
    objects: &mut [u32],
) -> Result<Option<HallSet>, AllocError> {
    match search_cold(alloc, problem, prices, objects)? {
        Outcome::Hall(set) => Ok(Some(set)),
        Outcome::Best | Outcome::Stopped | Outcome::Lost => Ok(None),
    }
}

// Two persons want object 0 (costs 1 and 2; the others 5 and 9): the first gives way, 5 + 2.
#[test]
fn two_persons_and_three_objects(rt: HostRuntime) -> Result<(), Fail> {
    let pairs = [pair(0, 1), pair(1, 5), pair(0, 2), pair(2, 9)];
    let problem = SparseProblem {
        starts: &[0, 2, 4],
        pairs: &pairs,
        objects: 3,
    };
    let mut prices = [0i64; 3];
    let mut objects = [NOBODY; 2];
    let outcome = search_cold(rt.alloc(), problem, &mut prices, &mut objects)?;
    assert!(rt; matches!(outcome, Outcome::Best));
    assert_eq!(rt; objects, [1, 0]);
    assert_eq!(rt; judge(rt.alloc(), problem, &prices, &objects)?, Some(7));
    Ok(())
}

// Persons 0, 1 and 3 list objects 1 and 2 alone.
#[test]
fn three_persons_for_two_objects(rt: HostRuntime) -> Result<(), Fail> {
    let pairs = [
        pair(1, 3),
        pair(2, 4),
        pair(1, 1),
        pair(0, 1),
        pair(3, 1),
        pair(2, 0),
        pair(1, 0),
    ];
    let problem = SparseProblem {
        starts: &[0, 2, 3, 5, 7],
        pairs: &pairs,
        objects: 4,
    };
    let mut prices = [0i64; 4];
    let mut objects = [NOBODY; 4];
    let Some(set) = hall_set(rt.alloc(), problem, &mut prices, &mut objects)? else {
        return Err("no Hall set".into());
    };
    assert_eq!(rt; set.persons.as_slice(), [0, 1, 3].as_slice());
    assert_eq!(rt; set.objects.as_slice(), [1, 2].as_slice());
    Ok(())
}

#[test]
fn a_person_without_pairs_is_a_hall_set(rt: HostRuntime) -> Result<(), Fail> {
    let pairs = [pair(0, 3)];
    let problem = SparseProblem {
        starts: &[0, 1, 1],
        pairs: &pairs,
        objects: 2,
    };
    let mut prices = [0i64; 2];
    let mut objects = [NOBODY; 2];
    let Some(set) = hall_set(rt.alloc(), problem, &mut prices, &mut objects)? else {
        return Err("no Hall set".into());
    };
    assert_eq!(rt; set.persons.as_slice(), [1].as_slice());
    assert!(rt; set.objects.is_empty());
    Ok(())
}

// Lists of other lengths, starts beyond the pairs and an object beyond the last: nothing is found.
#[test]
fn lists_that_do_not_fit(rt: HostRuntime) -> Result<(), Fail> {
    let pairs = [pair(0, 1), pair(7, 1)];
    let problem = SparseProblem {
        starts: &[0, 1, 2],
        pairs: &pairs,
        objects: 2,
    };
    let mut prices = [0i64; 2];
    let mut objects = [NOBODY; 2];
    let short = search_cold(rt.alloc(), problem, &mut prices, &mut objects[..1])?;
    assert!(rt; matches!(short, Outcome::Lost));
    let beyond = search_cold(rt.alloc(), problem, &mut prices, &mut objects)?;
    assert!(rt; !matches!(beyond, Outcome::Best));
    let torn = SparseProblem {
        starts: &[0, 9, 1],
        ..problem
    };
    let torn = search_cold(rt.alloc(), torn, &mut prices, &mut objects)?;
    assert!(rt; !matches!(torn, Outcome::Best));
    Ok(())
}
