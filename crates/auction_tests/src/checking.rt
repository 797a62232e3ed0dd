// Verdicts on small tables, worked by hand.
mod confirmed;
mod drawn;
mod hall;
mod plain;

use assign_core::{MOST_PERSONS, Numbered, Object, PRICE_END, Person, Price, Problem, Sense};
use dual_checker::{Verdict, check};
use std::alloc::{AllocError, Global};
use std::test::Fail;

// Persons or objects from digits.
pub fn by_digits<T: Numbered + Drop>(alloc: Global, digits: &str) -> Result<Vec<T>, AllocError> {
    let mut numbers = Vec::new(alloc);
    for digit in digits.bytes() {
        numbers.push(T::with_number(u16::from(digit.wrapping_sub(b'0'))))?;
    }
    Ok(numbers)
}

// The verdict on objects from digits.
fn verdict_of(
    alloc: Global,
    problem: &Problem,
    sense: Sense,
    objects: &str,
    prices: &[Price],
) -> Result<Verdict, AllocError> {
    let objects: Vec<Object> = by_digits(alloc, objects)?;
    check(alloc, problem, sense, objects.as_slice(), prices)
}

fn two_by_two(alloc: Global) -> Result<Problem, AllocError> {
    Problem::dense(alloc, 2, &[1, 2, 3, 5])
}

// The verdict on objects from digits, and two prices.
fn verdict_of_two(
    alloc: Global,
    sense: Sense,
    objects: &str,
    first: Price,
    second: Price,
) -> Result<Verdict, AllocError> {
    let problem = two_by_two(alloc)?;
    let prices = vec![in alloc; first, second]?;
    verdict_of(alloc, &problem, sense, objects, prices.as_slice())
}

#[test]
fn two_persons(rt: HostRuntime) -> Result<(), Fail> {
    for (sense, objects, first, second, verdict) in [
        (Sense::Min, "21", 14, 12, Verdict::Yes),
        (
            Sense::Min,
            "21",
            11,
            12,
            Verdict::Slack(Person(1), Object(1)),
        ),
        (
            Sense::Min,
            "12",
            14,
            12,
            Verdict::Slack(Person(2), Object(1)),
        ),
        (Sense::Max, "12", 12, 14, Verdict::Yes),
        (
            Sense::Min,
            "12",
            12,
            14,
            Verdict::Slack(Person(2), Object(1)),
        ),
        (Sense::Min, "01", 14, 12, Verdict::Unlisted(Person(1))),
        (Sense::Min, "23", 14, 12, Verdict::Unlisted(Person(2))),
        (Sense::Min, "11", 14, 12, Verdict::Twice(Object(1))),
        (Sense::Min, "21", -1, 12, Verdict::PriceRange(Object(1))),
        (
            Sense::Min,
            "21",
            14,
            PRICE_END,
            Verdict::PriceRange(Object(2)),
        ),
        (Sense::Min, "00", -1, -1, Verdict::Unlisted(Person(1))),
        (Sense::Min, "22", -1, -1, Verdict::Twice(Object(2))),
        (Sense::Min, "12", -1, -1, Verdict::PriceRange(Object(1))),
    ] {
        let said = verdict_of_two(rt.alloc(), sense, objects, first, second)?;
        assert!(rt; said == verdict);
    }
    Ok(())
}

// The verdict on objects from digits and some prices, where two are required.
fn verdict_of_lists(alloc: Global, objects: &str, prices: &[Price]) -> Result<Verdict, AllocError> {
    verdict_of(alloc, &two_by_two(alloc)?, Sense::Min, objects, prices)
}

// The verdict on two objects, each given to two of four persons who list each object at cost 0.
fn verdict_of_even(alloc: Global) -> Result<Verdict, AllocError> {
    let problem = Problem::dense(alloc, 4, &[0; 16])?;
    verdict_of(alloc, &problem, Sense::Min, "2211", &[0, 0, 0, 0])
}

// The verdict on each person's own object, at prices of 0, where each of three persons prefers each
// object to the one before.
fn verdict_of_falling(alloc: Global) -> Result<Verdict, AllocError> {
    let problem = Problem::dense(alloc, 3, &[5, 1, 0, 5, 1, 0, 5, 1, 0])?;
    verdict_of(alloc, &problem, Sense::Min, "123", &[0, 0, 0])
}

// The verdict on one person's object at the greatest price.
fn verdict_of_one(alloc: Global) -> Result<Verdict, AllocError> {
    let problem = Problem::dense(alloc, 1, &[7])?;
    check(alloc, &problem, Sense::Max, &[Object(1)], &[PRICE_END - 1])
}

// The persons or the objects from 1 on, as many as there may be.
pub fn all<T: Numbered + Drop>(alloc: Global) -> Result<Vec<T>, AllocError> {
    let mut numbers = Vec::with_capacity(alloc, MOST_PERSONS as usize)?;
    for i in 0..MOST_PERSONS {
        numbers.push(T::with_number(i + 1))?;
    }
    Ok(numbers)
}

// As many persons as there may be list one object each: object 1, or their own.
pub fn of_one_object(alloc: Global, is_own: bool) -> Result<Problem, AllocError> {
    let mut triples = Vec::with_capacity(alloc, MOST_PERSONS as usize)?;
    for i in 0..MOST_PERSONS {
        let object = if is_own { i + 1 } else { 1 };
        triples.push((Person(i + 1), Object(object), 0))?;
    }
    Problem::sparse(alloc, MOST_PERSONS, triples.as_slice())
}

// The verdict on each person's own object, at prices of 0.
fn verdict_of_own(alloc: Global) -> Result<Verdict, AllocError> {
    let problem = of_one_object(alloc, true)?;
    let objects: Vec<Object> = all(alloc)?;
    let prices = vec![in alloc; 0; MOST_PERSONS as usize]?;
    let (objects, prices) = (objects.as_slice(), prices.as_slice());
    check(alloc, &problem, Sense::Min, objects, prices)
}

#[test]
fn other_verdicts(rt: HostRuntime) -> Result<(), Fail> {
    let alloc = rt.alloc();
    assert!(rt; verdict_of_lists(alloc, "0", &[14, 12])? == Verdict::Length);
    assert!(rt; verdict_of_lists(alloc, "21", &[14, 12, -1])? == Verdict::Length);
    // The lowest of several.
    assert!(rt; verdict_of_even(alloc)? == Verdict::Twice(Object(1)));
    assert!(rt; verdict_of_falling(alloc)? == Verdict::Slack(Person(1), Object(2)));
    assert!(rt; verdict_of_one(alloc)? == Verdict::Yes);
    assert!(rt; verdict_of_own(alloc)? == Verdict::Yes);
    Ok(())
}
