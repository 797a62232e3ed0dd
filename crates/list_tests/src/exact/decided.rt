// The Hungarian method on drawn problems of every shape, compared with the slow search, and on larger ones.
// The checkers decide on what it answers.
use super::confirmed::{confirmed, is_hall};
use super::drawn::drawn_problem;
use super::given::costs_of;
use super::larger::{dense_problem, sparse_problem};
use super::problem::{Problem, table_of};
use super::slow::best_of;
use cost_lists::CostLists;
use hungarian::{Outcome, solve};
use std::alloc::{AllocError, Global};
use std::process::Abort;
use std::test::Fail;

// The cost of the assignment or the Hall set that the method finds, if it is confirmed.
fn decided(alloc: Global, lists: &CostLists<'_>) -> Result<Option<Option<i64>>, AllocError> {
    match solve(alloc, lists)? {
        Outcome::Best(best) => {
            let (objects, prices) = (best.objects.as_slice(), best.prices.as_slice());
            Ok(confirmed(alloc, lists, objects, prices)?.map(Some))
        }
        Outcome::Hall(set) => {
            let (persons, objects) = (set.persons.as_slice(), set.objects.as_slice());
            let is_hall = is_hall(alloc, lists, persons, objects)?;
            Ok(if is_hall { Some(None) } else { None })
        }
    }
}

// The method finds the cost of the slow search, or a Hall set where that finds nothing.
fn check_slow(rt: &(impl Abort + AllocGlobal), problem: &Problem) -> Result<(), Fail> {
    let alloc = rt.alloc();
    let lists = costs_of(problem)?;
    let table = table_of(alloc, problem)?;
    let cost = best_of(alloc, problem, table.as_slice())?.map(|best| best.1);
    assert_eq!(rt; decided(alloc, &lists)?, Some(cost));
    Ok(())
}

#[test]
fn drawn_problems_are_decided(rt: HostRuntime) -> Result<(), Fail> {
    let mut seed = 1955;
    for _ in 0..2_000 {
        let problem = drawn_problem(rt.alloc(), &mut seed)?;
        check_slow(&rt, &problem)?;
    }
    Ok(())
}

#[test]
fn larger_problems_are_decided(rt: HostRuntime) -> Result<(), Fail> {
    let mut seed = 1957;
    for turn in 0..36 {
        let (n, m) = (turn % 5 * 11 + 20, turn % 7 * 9 + 20);
        let dense = dense_problem(rt.alloc(), &mut seed, turn, n, m)?;
        assert_eq!(rt; decided(rt.alloc(), &costs_of(&dense)?)?.is_some(), true);
        let sparse = sparse_problem(rt.alloc(), &mut seed, turn, n, m, turn % 4)?;
        assert_eq!(rt; decided(rt.alloc(), &costs_of(&sparse)?)?.is_some(), true);
    }
    Ok(())
}
