// The search for a Hall set or an alternating path.
ghost use Rattle.std.specs.Prelude.{◌≡◌, ℕ, ◌≤◌, ◌↔◌, Some, IfOk, length, All, Contains};
ghost use Rattle.std.specs.List.Sorted.{IsStrictlyIncreasing};
ghost use Rattle.assign_core.specs.Numbered.{IsNumber, IsMarked};
ghost use Rattle.assign_core.specs.Matching.{IsMatching, owner_of};
ghost use Rattle.assign_core.specs.Reach.{IsBlocked};
ghost use Rattle.hall_refuter.specs.inside.Found.{IsAmongFirst};
ghost use Rattle.hall_refuter.specs.Search.{IsFound, IsHall};

use super::lists::{marked, marks_of};
use super::path::path_to;
use super::reach::{Reach, begin, visit};
use assign_core::{HallSet, MOST_PERSONS, Object, Person, Problem};
use scaled_values::Scaled;
use std::alloc::{AllocError, Global};

/// The result of a search: a Hall set of all persons that a person reaches, or an alternating path
/// from this person to an unowned object.
#[derive(Drop)]
pub enum Search {
    Hall(HallSet),
    Path(Vec<Object>),
}

// The persons found and the objects met, both rising.
fn hall_set(alloc: Global, reach: &Reach) -> Result<HallSet, AllocError>
    requires few { length reach.now.met.items ≤ MOST_PERSONS }
    requires within { All (λ f. IsNumber (length reach.now.met.items) f.person)
        reach.now.found.items }
    ensures persons { IfOk result (λ hall. (x : ℕ) → Contains hall.persons x
        ↔ IsAmongFirst reach.now.found.items x (length reach.now.found.items)) }
    ensures objects { IfOk result (λ hall. (j : ℕ) → Contains hall.objects j
        ↔ IsMarked reach.now.met.items j) }
    ensures persons_rise { IfOk result (λ hall. IsStrictlyIncreasing hall.persons) }
    ensures objects_rise { IfOk result (λ hall. IsStrictlyIncreasing hall.objects) }
{
    let n = reach.met.len() as u16;
    let marks = marks_of(alloc, n, reach.found.as_slice())?;
    let persons: Vec<Person> = marked(alloc, marks.as_slice())?;
    let objects: Vec<Object> = marked(alloc, reach.met.as_slice())?;
    Ok(HallSet::new(persons, objects))
}

// `refute`, on the problem itself.
fn search_from(
    alloc: Global,
    problem: &Problem,
    owners: &[Option<Person>],
    person: Person,
) -> Result<Search, AllocError>
    requires matching { IsMatching problem.now owners.now }
    requires person { IsNumber (length problem.now) person }
    requires alone { (j : ℕ) → owner_of owners.now j ≡ Some person → ⊥ }
    ensures { IfOk result (IsFound problem.now owners.now person) }
{
    let mut reach = begin(alloc, problem.n(), person)?;
    let mut next = 0;
    while next < reach.found.len() {
        if let Some(object) = visit(&mut reach, problem, owners, next)? {
            let path = path_to(alloc, reach.found.as_slice(), next, object)?;
            return Ok(Search::Path(path));
        }
        next += 1;
    }
    Ok(Search::Hall(hall_set(alloc, &reach)?))
}

/// For a person without an object, under a matching along listed pairs: a Hall set or an
/// alternating path to an unowned object. The Hall set has all persons that alternating walks
/// reach, and all objects that they list. The answer is the Hall set exactly where each object that
/// a reached person lists is owned, and then no assignment exists.
///
/// Breadth-first search for an augmenting path over the listed pairs, in time linear in the pairs
/// of the reached persons and in `n` (Burkard, Dell'Amico and Martello, Assignment Problems, 2009,
/// section 3.2).
///
/// # Errors
/// `AllocError` if memory is refused.
pub fn refute(
    alloc: Global,
    scaled: &Scaled,
    owners: &[Option<Person>],
    person: Person,
) -> Result<Search, AllocError>
    requires matching { IsMatching scaled.now.problem owners.now }
    requires person { IsNumber (length scaled.now.problem) person }
    requires alone { (j : ℕ) → owner_of owners.now j ≡ Some person → ⊥ }
    ensures found { IfOk result (IsFound scaled.now.problem owners.now person) }
    ensures which { IfOk result (λ search.
        IsHall search ↔ IsBlocked scaled.now.problem owners.now person) }
{
    search_from(alloc, scaled.problem(), owners, person)
}
