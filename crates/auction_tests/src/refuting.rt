// Searches on small problems, worked by hand, and one among the most persons.
ghost use Rattle.std.specs.Prelude.{◌≡◌, ℕ, ◌<◌, ◌≤◌, Some, IfOk, length};
ghost use Rattle.assign_core.specs.Numbered.{IsNumber};
ghost use Rattle.assign_core.specs.Rows.{IsListed};
ghost use Rattle.assign_core.specs.Matching.{IsMatching, owner_of};

use assign_core::{HallSet, MOST_PERSONS, Object, Person, Problem, Sense};
use hall_refuter::{Search, refute};
use scaled_values::scale;
use std::alloc::{AllocError, Global};
use std::test::Fail;
use test_helpers::numbers_of;

// The persons and the objects of a Hall set, as a line.
fn hall_told(alloc: Global, hall: &HallSet) -> Result<String, AllocError> {
    let persons = numbers_of(alloc, hall.persons())?;
    let objects = numbers_of(alloc, hall.objects())?;
    format!(in alloc;
        "persons {:?} objects {:?}",
        persons.as_slice(),
        objects.as_slice()
    )
}

// Whether a search gives this line.
fn gives(
    alloc: Global,
    problem: Problem,
    sense: Sense,
    owners: &[Option<Person>],
    person: Person,
    line: &str,
) -> Result<bool, AllocError>
    requires matching { IsMatching problem owners.now }
    requires person { IsNumber (length problem) person }
    requires alone { (j : ℕ) → owner_of owners.now j ≡ Some person → ⊥ }
{
    let scaled = scale(alloc, problem, sense)?;
    let told = match refute(alloc, &scaled, owners, person)? {
        Search::Path(path) => format!(in alloc;
            "path {:?}",
            numbers_of(alloc, path.as_slice())?.as_slice()
        )?,
        Search::Hall(hall) => hall_told(alloc, &hall)?,
    };
    Ok(told.as_str() == line)
}

// Person 1 lists one object, which is unowned.
fn one_object(alloc: Global) -> Result<bool, AllocError> {
    let row = vec![in alloc; (Object(1), 4)]?;
    let problem = Problem::from_rows(vec![in alloc; row]?);
    gives(alloc, problem, Sense::Min, &[None], Person(1), "path [1]")
}

// Person 1 lists an object whose owner lists an unowned one.
fn two_objects(alloc: Global) -> Result<bool, AllocError> {
    let first = vec![in alloc; (Object(1), 4)]?;
    let second = vec![in alloc; (Object(1), 6), (Object(2), 1)]?;
    let problem = Problem::from_rows(vec![in alloc; first, second]?);
    let owners = [Some(Person(2)), None];
    gives(
        alloc,
        problem,
        Sense::Max,
        &owners,
        Person(1),
        "path [1, 2]",
    )
}

// Each person lists its own object and that of the person before, and the last object is unowned.
fn five_objects(alloc: Global) -> Result<bool, AllocError> {
    let a = vec![in alloc; (Object(1), 0)]?;
    let b = vec![in alloc; (Object(1), 0), (Object(2), 0)]?;
    let c = vec![in alloc; (Object(2), 0), (Object(3), 0)]?;
    let d = vec![in alloc; (Object(3), 0), (Object(4), 0)]?;
    let e = vec![in alloc; (Object(4), 0), (Object(5), 0)]?;
    let problem = Problem::from_rows(vec![in alloc; a, b, c, d, e]?);
    let owners = [
        Some(Person(2)),
        Some(Person(3)),
        Some(Person(4)),
        Some(Person(5)),
        None,
    ];
    gives(
        alloc,
        problem,
        Sense::Min,
        &owners,
        Person(1),
        "path [1, 2, 3, 4, 5]",
    )
}

// Person 1 lists nothing.
fn one_person(alloc: Global) -> Result<bool, AllocError> {
    let first = Vec::new(alloc);
    let second = vec![in alloc; (Object(1), 6), (Object(2), 1)]?;
    let problem = Problem::from_rows(vec![in alloc; first, second]?);
    let owners = [Some(Person(2)), None];
    gives(
        alloc,
        problem,
        Sense::Min,
        &owners,
        Person(1),
        "persons [1] objects []",
    )
}

// Persons 1 and 3 list only the same object.
fn two_persons(alloc: Global) -> Result<bool, AllocError> {
    let first = vec![in alloc; (Object(2), 4)]?;
    let second = vec![in alloc; (Object(1), 6), (Object(3), 1)]?;
    let third = vec![in alloc; (Object(2), 5)]?;
    let problem = Problem::from_rows(vec![in alloc; first, second, third]?);
    let owners = [None, Some(Person(1)), Some(Person(2))];
    gives(
        alloc,
        problem,
        Sense::Min,
        &owners,
        Person(3),
        "persons [1, 3] objects [2]",
    )
}

// No person lists object 2.
fn all_persons(alloc: Global) -> Result<bool, AllocError> {
    let first = vec![in alloc; (Object(1), 4), (Object(3), 4)]?;
    let second = vec![in alloc; (Object(1), 6)]?;
    let third = vec![in alloc; (Object(1), 5), (Object(3), 5)]?;
    let problem = Problem::from_rows(vec![in alloc; first, second, third]?);
    let owners = [Some(Person(2)), None, Some(Person(1))];
    gives(
        alloc,
        problem,
        Sense::Max,
        &owners,
        Person(3),
        "persons [1, 2, 3] objects [1, 3]",
    )
}

#[test]
fn paths_and_hall_sets(rt: HostRuntime) -> Result<(), Fail> {
    assert!(rt; one_object(rt.alloc())?);
    assert!(rt; two_objects(rt.alloc())?);
    assert!(rt; five_objects(rt.alloc())?);
    assert!(rt; one_person(rt.alloc())?);
    assert!(rt; two_persons(rt.alloc())?);
    assert!(rt; all_persons(rt.alloc())?);
    Ok(())
}

// Person 1 lists all objects but the first, and each other person the object of its own number.
fn star(alloc: Global) -> Result<Problem, AllocError>
    ensures long { IfOk result (λ problem. length problem ≡ MOST_PERSONS) }
    ensures listed { IfOk result (λ problem.
        (i : ℕ) → 1 < i → i ≤ length problem → IsListed problem i i) }
{
    let mut triples = Vec::new(alloc);
    for i in 2..MOST_PERSONS + 1 {
        triples.push((Person(1), Object(i), 0))?;
        triples.push((Person(i), Object(i), 0))?;
    }
    Problem::sparse(alloc, MOST_PERSONS, triples.as_slice())
}

// Each person but the first owns the object of its own number.
fn own(alloc: Global, problem: &Problem) -> Result<Vec<Option<Person>>, AllocError>
    requires { (i : ℕ) → 1 < i → i ≤ length problem.now → IsListed problem.now i i }
    ensures matching { IfOk result (λ owners. IsMatching problem.now owners.items) }
    ensures alone { IfOk result (λ owners. (j : ℕ) → owner_of owners.items j ≡ Some 1 → ⊥) }
{
    let n = problem.n();
    let mut owners = vec![in alloc; None; n as usize]?;
    for i in 2..n + 1 {
        owners[i as usize - 1] = Some(Person(i));
    }
    Ok(owners)
}

// Whether a Hall set has all persons, and all objects except for the first.
fn has_all(hall: &HallSet) -> bool {
    let (persons, objects) = (hall.persons(), hall.objects());
    persons.len() == 8192
        && persons.first().copied() == Some(Person(1))
        && persons.last().copied() == Some(Person(8192))
        && objects.len() == 8191
        && objects.first().copied() == Some(Object(2))
        && objects.last().copied() == Some(Object(8192))
}

// Whether this Hall set blocks the first person of the star.
fn blocks_star(alloc: Global) -> Result<bool, AllocError> {
    let problem = star(alloc)?;
    let owners = own(alloc, &problem)?;
    let scaled = scale(alloc, problem, Sense::Min)?;
    match refute(alloc, &scaled, owners.as_slice(), Person(1))? {
        Search::Hall(hall) => Ok(has_all(&hall)),
        Search::Path(_) => Ok(false),
    }
}

#[test]
fn as_many_persons_as_there_may_be(rt: HostRuntime) -> Result<(), Fail> {
    assert!(rt; blocks_star(rt.alloc())?);
    Ok(())
}
