// The persons that alternating walks reach, found breadth first.
ghost use Rattle.std.specs.Prelude.{◌≡◌, ℕ, ◌<◌, List, [], ◌∷◌, ◌++◌, Option, None, Some, Bool, false, true, IfOk, length, replicate};
ghost use Rattle.assign_core.specs.Numbered.{IsNumber, renumbered};
ghost use Rattle.assign_core.specs.Rows.{Listing, IsListed};
ghost use Rattle.assign_core.specs.Matching.{IsMatching};
ghost use Rattle.hall_refuter.specs.inside.Found.{beginner, owner_through, person_at, IsReach, IsMet, IsVisited, Grows};

use assign_core::{Object, Person, Problem};
use std::alloc::{AllocError, Global};

// How a person was reached: through an object that the person found at place `parent` lists.
#[derive(Clone, Copy)]
pub struct Arrival {
    pub object: Object,
    pub parent: usize,
}

// A reached person. The first has no arrival.
#[derive(Clone, Copy)]
pub struct Found {
    pub person: Person,
    pub arrival: Option<Arrival>,
}

// The reached persons in the order in which they were found, and whether each object was met on the
// way.
#[derive(Drop)]
pub struct Reach {
    pub found: Vec<Found>,
    pub met: Vec<bool>,
}

// The reach of a person before any step.
pub fn begin(alloc: Global, n: u16, person: Person) -> Result<Reach, AllocError>
    ensures found { IfOk result (λ reach. reach.found.items ≡ beginner person ∷ []) }
    ensures met { IfOk result (λ reach. reach.met.items ≡ replicate n false) }
{
    let mut found = Vec::new(alloc);
    found.push(Found {
        person,
        arrival: None,
    })?;
    let met = vec![in alloc; false; n as usize]?;
    Ok(Reach { found, met })
}

// Adds one more person, the owner of an object that is met for the first time.
fn add(reach: &mut Reach, object: Object, parent: usize, owner: Person) -> Result<(), AllocError>
    requires { IsNumber (length reach.old.met.items) object }
    ensures found { IfOk result (λ _.
        reach.new.found.items ≡ reach.old.found.items ++ owner_through owner object parent ∷ []) }
    ensures met { IfOk result (λ _.
        reach.new.met.items ≡ renumbered reach.old.met.items object true) }
{
    reach.found.push(Found {
        person: owner,
        arrival: Some(Arrival { object, parent }),
    })?;
    reach.met[object.place()] = true;
    Ok(())
}

// Meets an object that the person found at place `parent` lists. Returns whether it is unowned.
fn meet(
    reach: &mut Reach,
    owners: &[Option<Person>],
    object: Object,
    parent: usize,
) -> Result<bool, AllocError>
    requires object { IsNumber (length owners.now) object }
    requires long { length reach.old.met.items ≡ length owners.now }
    requires parent { parent < length reach.old.found.items }
    ensures reach { IfOk result (λ _. (rows : List Listing)
        → IsReach rows owners.now reach.old.found.items reach.old.met.items
        → IsListed rows (person_at reach.old.found.items parent) object
        → IsReach rows owners.now reach.new.found.items reach.new.met.items) }
    ensures grows { IfOk result (λ _. Grows reach.old.found.items reach.old.met.items
        reach.new.found.items reach.new.met.items) }
    ensures met { IfOk result (IsMet owners.now reach.new.met.items object) }
{
    let place = object.place();
    if reach.met[place] {
        return Ok(false);
    }
    match owners[place] {
        None => Ok(true),
        Some(owner) => {
            add(reach, object, parent, owner)?;
            Ok(false)
        }
    }
}

// Meets the objects that the person found at place `next` lists, up to the first unowned one.
pub fn visit(
    reach: &mut Reach,
    problem: &Problem,
    owners: &[Option<Person>],
    next: usize,
) -> Result<Option<Object>, AllocError>
    requires matching { IsMatching problem.now owners.now }
    requires reach { IsReach problem.now owners.now reach.old.found.items reach.old.met.items }
    requires next { next < length reach.old.found.items }
    requires person { IsNumber (length problem.now) (person_at reach.old.found.items next) }
    ensures reach { IfOk result (λ _.
        IsReach problem.now owners.now reach.new.found.items reach.new.met.items) }
    ensures grows { IfOk result (λ _. Grows reach.old.found.items reach.old.met.items
        reach.new.found.items reach.new.met.items) }
    ensures visited { IfOk result (λ free. IsVisited problem.now owners.now reach.new.met.items
        (person_at reach.old.found.items next) free) }
{
    let person = reach.found[next].person;
    for (object, _) in problem.row(person) {
        if meet(reach, owners, *object, next)? {
            return Ok(Some(*object));
        }
    }
    Ok(None)
}
