// Each example once, with ample memory. The answers are worked by hand: two persons whose costs are
// 1, 2 and 3, 5 pay least, 5, with objects 2 and 1, and prices 14 and 12 prove it.
use assign_core::{Cost, GREATEST_COST, Object, Outcome, Person, Problem, Sense};
use calling::{
    cost_of_dense, least_cost, problem_of_pairs, proves_best, proves_infeasible, read_confirmed,
    solve_alone, solve_by_workers, solve_costs, solve_in_threads, write_proved,
};
use orlib_reader::InputFault;
use report::ReportFault;
use std::alloc::{AllocError, Global};
use std::sync::Wait;
use std::test::Fail;
use std::thread::Threads;

// The problem of these two persons.
fn two_persons(alloc: Global) -> Result<Problem, AllocError> {
    Problem::dense(alloc, 2, &[1, 2, 3, 5])
}

// The number of the first person's object, and 0 in a Hall set.
fn first_object(outcome: &Outcome) -> u16 {
    match outcome {
        Outcome::Best(best) => match best.assignment.objects().first() {
            Some(object) => object.0,
            None => 0,
        },
        Outcome::Hall(_) => 0,
    }
}

// Whether the prices prove objects 2 and 1 best, and objects 1 and 2.
fn proved(alloc: Global) -> Result<[bool; 2], InputFault> {
    let mut text: &[u8] = b"2 1 2 3 5";
    let right = proves_best(alloc, &mut text, &[Object(2), Object(1)], &[14, 12])?;
    let mut text: &[u8] = b"2 1 2 3 5";
    let wrong = proves_best(alloc, &mut text, &[Object(1), Object(2)], &[14, 12])?;
    Ok([right, wrong])
}

// Whether two persons who list object 1 alone are a Hall set with it, and with object 2.
fn refuted(alloc: Global) -> Result<[bool; 2], InputFault> {
    let (persons, text) = ([Person(1), Person(2)], b"2 1 1 5 2 1 6");
    let mut bytes: &[u8] = text;
    let right = proves_infeasible(alloc, &mut bytes, &persons, &[Object(1)])?;
    let mut bytes: &[u8] = text;
    let wrong = proves_infeasible(alloc, &mut bytes, &persons, &[Object(2)])?;
    Ok([right, wrong])
}

#[test]
fn answers_are_checked(rt: HostRuntime) -> Result<(), Fail> {
    assert_eq!(rt; proved(rt.alloc())?, [true, false]);
    assert_eq!(rt; refuted(rt.alloc())?, [true, false]);
    Ok(())
}

// What each kind of rounds gives to the first person, and what workers give where cost is wanted.
fn by_auction<R: Threads + Wait + Sync>(rt: &R, alloc: Global) -> Result<[u16; 3], AllocError> {
    let alone = first_object(&solve_alone(alloc, two_persons(alloc)?, Sense::Min)?);
    let threads = first_object(&solve_in_threads(rt, alloc, two_persons(alloc)?, Sense::Min)?);
    let workers = solve_by_workers(rt, alloc, two_persons(alloc)?, Sense::Max, 2)?;
    Ok([alone, threads, first_object(&workers)])
}

// What paths give to the first person, at least cost and at greatest.
fn by_paths(alloc: Global) -> Result<[u16; 2], AllocError> {
    let least = first_object(&solve_costs(alloc, 2, Sense::Min, &[1, 2, 3, 5])?);
    let greatest = first_object(&solve_costs(alloc, 2, Sense::Max, &[1, 2, 3, 5])?);
    Ok([least, greatest])
}

#[test]
fn problems_are_solved(rt: HostRuntime) -> Result<(), Fail> {
    assert_eq!(rt; by_auction(&rt, rt.alloc())?, [2, 2, 1]);
    assert_eq!(rt; by_paths(rt.alloc())?, [2, 1]);
    assert_eq!(rt; cost_of_dense(rt.alloc(), 2, &[1, 2, 3, 5])?, Some(5));
    Ok(())
}

// The least cost of a problem of pairs, and of one that is out of range.
fn least_of_pairs(alloc: Global, n: u16, cost: Cost) -> Result<Option<Cost>, AllocError> {
    let pairs = [
        (Person(1), Object(1), cost),
        (Person(1), Object(2), 2),
        (Person(2), Object(1), 3),
    ];
    match problem_of_pairs(alloc, n, &pairs)? {
        Some(problem) => least_cost(alloc, problem),
        None => Ok(None),
    }
}

#[test]
fn pairs_are_tested(rt: HostRuntime) -> Result<(), Fail> {
    assert_eq!(rt; least_of_pairs(rt.alloc(), 2, 1)?, Some(5));
    assert_eq!(rt; least_of_pairs(rt.alloc(), 1, 1)?, None);
    assert_eq!(rt;
        least_of_pairs(rt.alloc(), 2, GREATEST_COST.wrapping_add(1))?,
        None
    );
    Ok(())
}

const TEXT: &[u8] = b"sense min\ncost 5\nassign 1 2 2\nassign 2 1 3\nprice 1 14\nprice 2 12\n";

// What is written again of a report, where it is confirmed.
fn written_again(alloc: Global, problem: &Problem, sense: Sense) -> Result<Vec<u8>, ReportFault> {
    let mut text = TEXT;
    let mut out = Vec::new(alloc);
    if let Some(outcome) = read_confirmed(alloc, &mut text, problem, sense)? {
        let _written = write_proved(&mut out, problem, sense, &outcome);
    }
    Ok(out)
}

#[test]
fn reports_are_confirmed(rt: HostRuntime) -> Result<(), Fail> {
    let alloc = rt.alloc();
    let problem = two_persons(alloc)?;
    let least = written_again(alloc, &problem, Sense::Min)?;
    assert_eq!(rt; least.as_slice(), TEXT);
    assert_eq!(rt; written_again(alloc, &problem, Sense::Max)?.len(), 0);
    Ok(())
}
