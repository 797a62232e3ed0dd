// Verdicts, costs and totals worked out by hand.
use super::confirmed::{confirmed, is_hall};
use super::given::costs_of;
use super::problem::{dense, sparse};
use assign_core::Sense;
use exact_checker::{HallVerdict, Verdict, check, check_hall};
use std::test::Fail;

// Two persons and three objects: person 1 pays 4, 2, 9 and person 2 pays 3, 1, 8. The best
// assignments cost 5 (objects 1 and 2 of persons 1 and 2, or 2 and 1).
#[test]
fn each_verdict_on_two_persons(rt: HostRuntime) -> Result<(), Fail> {
    let alloc = rt.alloc();
    let problem = dense(alloc, Sense::Min, 2, 3, &[4, 2, 9, 3, 1, 8])?;
    let lists = costs_of(&problem)?;
    assert_eq!(rt; confirmed(alloc, &lists, &[1, 2], &[0, 2, 0])?, Some(5));
    assert_eq!(rt; confirmed(alloc, &lists, &[2, 1], &[0, 2, 0])?, Some(5));
    assert!(rt; check(alloc, &lists, &[1], &[0, 2, 0])? == Verdict::Length);
    assert!(rt; check(alloc, &lists, &[1, 2], &[0, 2])? == Verdict::Length);
    assert!(rt; check(alloc, &lists, &[4, 0], &[0, 2, 0])? == Verdict::Unlisted(1));
    assert!(rt; check(alloc, &lists, &[2, 2], &[0, -2, 0])? == Verdict::Twice(2));
    assert!(rt; check(alloc, &lists, &[1, 2], &[0, -2, 0])? == Verdict::PriceRange(2));
    let most = 9_000_000_000_000_000_000;
    assert!(rt; check(alloc, &lists, &[1, 2], &[0, 2, most + 1])? == Verdict::PriceRange(3));
    assert!(rt; check(alloc, &lists, &[1, 2], &[0, 2, most])? == Verdict::Overpriced(3));
    assert!(rt; check(alloc, &lists, &[1, 2], &[0, 1, 0])? == Verdict::Slack(1, 2));
    assert!(rt; check(alloc, &lists, &[1, 2], &[0, 3, 0])? == Verdict::Slack(2, 1));
    assert!(rt; check(alloc, &lists, &[3, 2], &[0, 2, 0])? == Verdict::Slack(1, 1));
    Ok(())
}

// A pair that is given twice counts at the least cost under Min and at the greatest under Max.
#[test]
fn a_repeated_pair_counts_at_its_best_cost(rt: HostRuntime) -> Result<(), Fail> {
    let alloc = rt.alloc();
    let (persons, objects, costs) = ([1, 1, 1], [1, 2, 1], [5, 4, 3]);
    let problem = sparse(alloc, Sense::Min, 1, 2, &persons, &objects, &costs)?;
    let lists = costs_of(&problem)?;
    assert_eq!(rt; confirmed(alloc, &lists, &[1], &[0, 0])?, Some(3));
    assert!(rt; check(alloc, &lists, &[2], &[0, 0])? == Verdict::Slack(1, 1));
    let problem = sparse(alloc, Sense::Max, 1, 2, &persons, &objects, &costs)?;
    let lists = costs_of(&problem)?;
    assert_eq!(rt; confirmed(alloc, &lists, &[1], &[0, 0])?, Some(5));
    assert!(rt; check(alloc, &lists, &[2], &[0, 0])? == Verdict::Slack(1, 1));
    Ok(())
}

// Costs at the limit, with prices at theirs: sums stay within 64 bits.
#[test]
fn sums_at_the_limits(rt: HostRuntime) -> Result<(), Fail> {
    let alloc = rt.alloc();
    let most = 1_000_000_000_000;
    let prices = [9_000_000_000_000_000_000; 2];
    let problem = dense(alloc, Sense::Max, 2, 2, &[most, -most, -most, most])?;
    let lists = costs_of(&problem)?;
    assert_eq!(rt; confirmed(alloc, &lists, &[1, 2], &prices)?, Some(2 * most));
    let problem = dense(alloc, Sense::Min, 2, 2, &[most, -most, -most, most])?;
    let lists = costs_of(&problem)?;
    assert!(rt; check(alloc, &lists, &[1, 2], &prices)? == Verdict::Slack(1, 2));
    assert_eq!(rt;
        confirmed(alloc, &lists, &[2, 1], &prices)?,
        Some(-2 * most)
    );
    Ok(())
}

// Persons 1 and 2 list object 3 alone; person 3 lists objects 1 and 3.
#[test]
fn each_hall_verdict_on_three_persons(rt: HostRuntime) -> Result<(), Fail> {
    let alloc = rt.alloc();
    let (persons, objects) = ([3, 1, 3, 2], [3, 3, 1, 3]);
    let problem = sparse(alloc, Sense::Min, 3, 4, &persons, &objects, &[0, 0, 0, 0])?;
    let lists = costs_of(&problem)?;
    assert!(rt; is_hall(alloc, &lists, &[1, 2], &[3])?);
    assert!(rt; !is_hall(alloc, &lists, &[1], &[3])?);
    assert!(rt; check_hall(alloc, &lists, &[0, 2], &[3])? == HallVerdict::Range);
    assert!(rt; check_hall(alloc, &lists, &[1, 2], &[5])? == HallVerdict::Range);
    assert!(rt; check_hall(alloc, &lists, &[2, 1], &[3])? == HallVerdict::Order);
    assert!(rt; check_hall(alloc, &lists, &[1, 1], &[3])? == HallVerdict::Order);
    assert!(rt; check_hall(alloc, &lists, &[2, 3], &[3])? == HallVerdict::Missing(3, 1));
    assert!(rt; check_hall(alloc, &lists, &[1, 3], &[])? == HallVerdict::Missing(1, 3));
    assert!(rt; check_hall(alloc, &lists, &[1, 2], &[2, 3, 4])? == HallVerdict::Extra(2));
    assert!(rt; check_hall(alloc, &lists, &[1, 3], &[1, 3])? == HallVerdict::Count);
    assert!(rt; check_hall(alloc, &lists, &[], &[])? == HallVerdict::Count);
    Ok(())
}

// Three persons who list each of two objects: all of them with both objects are a Hall set.
#[test]
fn more_persons_than_objects(rt: HostRuntime) -> Result<(), Fail> {
    let alloc = rt.alloc();
    let problem = dense(alloc, Sense::Min, 3, 2, &[1, 2, 3, 4, 5, 6])?;
    let lists = costs_of(&problem)?;
    assert!(rt; check_hall(alloc, &lists, &[1, 2, 3], &[1, 2])? == HallVerdict::Yes);
    assert!(rt; check_hall(alloc, &lists, &[1, 2], &[1, 2])? == HallVerdict::Count);
    assert!(rt; check_hall(alloc, &lists, &[2, 3], &[1])? == HallVerdict::Missing(2, 2));
    assert!(rt; check_hall(alloc, &lists, &[], &[2])? == HallVerdict::Extra(2));
    Ok(())
}
