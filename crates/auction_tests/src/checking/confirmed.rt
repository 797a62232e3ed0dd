// Lists that become outcomes, and outcomes that are proofs.
use super::hall::three_persons;
use super::{by_digits, two_by_two};
use assign_core::{Object, Person, Sense};
use dual_checker::{confirm_best, confirm_hall, confirms};
use parallel_checker::confirms_in_parts;
use std::alloc::{AllocError, Global};
use std::test::Fail;
use std::thread::Threads;

// Whether objects from digits, at prices 14 and 12, are accepted under a sense; and if they are,
// whether the outcome is a proof under Min and under Max.
fn best_taken(
    alloc: Global,
    sense: Sense,
    objects: &str,
) -> Result<Option<(bool, bool)>, AllocError> {
    let problem = two_by_two(alloc)?;
    let objects: Vec<Object> = by_digits(alloc, objects)?;
    let prices = vec![in alloc; 14, 12]?;
    let Some(outcome) = confirm_best(alloc, &problem, sense, objects, prices)? else {
        return Ok(None);
    };
    let least = confirms(alloc, &problem, Sense::Min, &outcome)?;
    Ok(Some((least, confirms(alloc, &problem, Sense::Max, &outcome)?)))
}

#[test]
fn lists_of_objects_and_prices(rt: HostRuntime) -> Result<(), Fail> {
    for (sense, objects, taken) in [
        (Sense::Min, "21", Some((true, false))),
        (Sense::Max, "21", None),
        (Sense::Min, "12", None),
        (Sense::Min, "22", None),
        (Sense::Min, "2", None),
    ] {
        assert_eq!(rt; best_taken(rt.alloc(), sense, objects)?, taken);
    }
    Ok(())
}

// Whether persons and objects from digits are accepted; and if they are, whether the outcome is a
// proof of the same problem and of another.
fn hall_taken(
    alloc: Global,
    persons: &str,
    objects: &str,
) -> Result<Option<(bool, bool)>, AllocError> {
    let problem = three_persons(alloc)?;
    let persons: Vec<Person> = by_digits(alloc, persons)?;
    let objects: Vec<Object> = by_digits(alloc, objects)?;
    let Some(outcome) = confirm_hall(alloc, &problem, persons, objects)? else {
        return Ok(None);
    };
    let other = two_by_two(alloc)?;
    let same = confirms(alloc, &problem, Sense::Min, &outcome)?;
    Ok(Some((same, confirms(alloc, &other, Sense::Min, &outcome)?)))
}

#[test]
fn lists_of_persons_and_objects(rt: HostRuntime) -> Result<(), Fail> {
    for (persons, objects, taken) in [
        ("12", "1", Some((true, false))),
        ("2", "1", None),
        ("13", "1", None),
        ("21", "1", None),
    ] {
        assert_eq!(rt; hall_taken(rt.alloc(), persons, objects)?, taken);
    }
    Ok(())
}

// Whether an assignment with prices that is best under Min is a proof under Min and under Max, by
// threads if the persons list so many pairs; `None` if it isn't best.
fn best_in_parts(
    rt: &(impl Threads + Sync),
    least: usize,
    alloc: Global,
) -> Result<Option<(bool, bool)>, AllocError> {
    let problem = two_by_two(alloc)?;
    let objects: Vec<Object> = by_digits(alloc, "21")?;
    let prices = vec![in alloc; 14, 12]?;
    let Some(outcome) = confirm_best(alloc, &problem, Sense::Min, objects, prices)? else {
        return Ok(None);
    };
    let best = confirms_in_parts(rt, least, alloc, &problem, Sense::Min, &outcome)?;
    let other = confirms_in_parts(rt, least, alloc, &problem, Sense::Max, &outcome)?;
    Ok(Some((best, other)))
}

#[test]
fn outcomes_in_parts(rt: HostRuntime) -> Result<(), Fail> {
    for least in [0, 4, 5] {
        assert_eq!(rt; best_in_parts(&rt, least, rt.alloc())?, Some((true, false)));
    }
    Ok(())
}
