// Verdicts on lists of persons and objects, worked by hand.
use super::{all, by_digits, of_one_object};
use assign_core::{Object, Person, Problem};
use dual_checker::{HallVerdict, check_hall};
use std::alloc::{AllocError, Global};
use std::test::Fail;

// Persons 1 and 2 list only object 1, and person 3 lists objects 2 and 3.
pub fn three_persons(alloc: Global) -> Result<Problem, AllocError> {
    let first = vec![in alloc; (Object(1), 4)]?;
    let second = vec![in alloc; (Object(1), 6)]?;
    let third = vec![in alloc; (Object(2), 1), (Object(3), 2)]?;
    Ok(Problem::from_rows(vec![in alloc; first, second, third]?))
}

// The verdict on persons and objects from digits, in this problem.
fn verdict_of(alloc: Global, persons: &str, objects: &str) -> Result<HallVerdict, AllocError> {
    let problem = three_persons(alloc)?;
    let persons: Vec<Person> = by_digits(alloc, persons)?;
    let objects: Vec<Object> = by_digits(alloc, objects)?;
    check_hall(alloc, &problem, persons.as_slice(), objects.as_slice())
}

#[test]
fn lists_for_three_persons(rt: HostRuntime) -> Result<(), Fail> {
    for (persons, objects, verdict) in [
        ("12", "1", HallVerdict::Yes),
        ("2", "1", HallVerdict::Count),
        ("", "", HallVerdict::Count),
        ("21", "1", HallVerdict::Order),
        ("11", "1", HallVerdict::Order),
        ("1", "11", HallVerdict::Order),
        ("01", "1", HallVerdict::Range),
        ("4", "1", HallVerdict::Range),
        ("1", "0", HallVerdict::Range),
        ("1", "4", HallVerdict::Range),
        ("13", "1", HallVerdict::Missing(Person(3), Object(2))),
        ("12", "13", HallVerdict::Extra(Object(3))),
        ("13", "23", HallVerdict::Missing(Person(1), Object(1))),
        ("12", "2", HallVerdict::Missing(Person(1), Object(1))),
    ] {
        assert!(rt; verdict_of(rt.alloc(), persons, objects)? == verdict);
    }
    Ok(())
}

// The verdict on one person that lists nothing.
fn verdict_of_nothing(alloc: Global) -> Result<HallVerdict, AllocError> {
    let problem = Problem::from_rows(vec![in alloc; Vec::new(alloc)]?);
    check_hall(alloc, &problem, &[Person(1)], &[])
}

// The verdict on all persons and the one object that they list.
fn verdict_of_all(alloc: Global) -> Result<HallVerdict, AllocError> {
    let problem = of_one_object(alloc, false)?;
    let persons: Vec<Person> = all(alloc)?;
    check_hall(alloc, &problem, persons.as_slice(), &[Object(1)])
}

#[test]
fn other_lists(rt: HostRuntime) -> Result<(), Fail> {
    assert!(rt; verdict_of_nothing(rt.alloc())? == HallVerdict::Yes);
    assert!(rt; verdict_of_all(rt.alloc())? == HallVerdict::Yes);
    Ok(())
}
