// The checker of Hall sets: the first fault of the verdicts' order.
ghost use Rattle.std.specs.Prelude.{◌≡◌, ◌↔◌, ℕ, List, false, length, replicate, Contains, IfOk, MatchOption};
ghost use Rattle.assign_core.specs.Numbered.{IsMarked};
ghost use Rattle.assign_core.specs.Assignment.{IsAssignment};
ghost use Rattle.assign_core.specs.Hall.{IsHallSet, IsNeighbour};
ghost use Rattle.dual_checker.specs.Faults.{IsFirst};
ghost use Rattle.dual_checker.specs.HallMarks.{AddsMarks};
ghost use Rattle.dual_checker.specs.HallVerdicts.{HasNeighbours, Lacks, ListsUnnamed};
ghost use Rattle.exact_checker.specs.HallVerdicts.{AreRisingNumbers, IsHallVerdict};
ghost use Rattle.exact_checker.specs.inside.Marked.{AreRisingPersons, MarksJust};

use super::hall_full::{first_of_full, mark_of_full};
use super::hall_lists::{are_in_range, are_rising};
use super::hall_marks::{first_missing, mark_listed};
use super::hall_verdict::HallVerdict;
use cost_lists::{CostLists, Object, Person, Source};
use dual_checker::{first_unmarked, mark_numbers};
use std::alloc::{AllocError, Global};

// The lowest of these persons that lists an object without a mark, and the lowest object of this
// kind.
fn first_lacking(
    lists: &CostLists<'_>,
    persons: &[Person],
    chosen: &[bool],
    named: &[bool],
) -> Option<(Person, Object)>
    requires lists { AreRisingPersons lists.now persons.now }
    requires chosen { MarksJust chosen.now (length lists.now.rows) persons.now }
    requires named { length named.now ≡ lists.now.m }
    ensures { let rows = lists.now.rows in
        MatchOption result (HasNeighbours rows persons.now (IsMarked named.now))
        (λ p. IsFirst (Lacks rows persons.now (IsMarked named.now)) (length rows) p.0
        × IsFirst (ListsUnnamed rows (IsMarked named.now) p.0) lists.now.m p.1) }
{
    // These calls show the prover that persons and objects are few enough.
    let (_persons, _objects) = (lists.persons(), lists.objects());
    match lists.source() {
        Source::Dense(_) => first_of_full(persons, named),
        Source::Listed(pairs) => first_missing(pairs, chosen, named),
    }
}

// Marks the objects that these persons list.
fn mark_neighbours(listed: &mut [bool], lists: &CostLists<'_>, persons: &[Person], chosen: &[bool])
    requires lists { AreRisingPersons lists.now persons.now }
    requires chosen { MarksJust chosen.now (length lists.now.rows) persons.now }
    requires none { listed.old ≡ replicate lists.now.m false }
    ensures { AddsMarks listed.old (IsNeighbour lists.now.rows persons.now) listed.new }
{
    match lists.source() {
        Source::Dense(_) => mark_of_full(listed, persons),
        Source::Listed(pairs) => mark_listed(listed, pairs, chosen),
    }
}

// The first fault of lists that rise. There is a mark for each person, and two for each object, none
// of which is set at first.
fn first_hall_fault(
    chosen: &mut [bool],
    named: &mut [bool],
    listed: &mut [bool],
    lists: &CostLists<'_>,
    persons: &[Person],
    objects: &[Object],
) -> HallVerdict
    requires rise { AreRisingNumbers lists.now persons.now objects.now }
    requires chosen { chosen.old ≡ replicate (length lists.now.rows) false }
    requires named { named.old ≡ replicate lists.now.m false }
    requires listed { listed.old ≡ replicate lists.now.m false }
    ensures { IsHallVerdict lists.now persons.now objects.now result }
{
    mark_numbers(chosen, persons);
    mark_numbers(named, objects);
    if let Some((person, object)) = first_lacking(lists, persons, chosen, named) {
        return HallVerdict::Missing(person, object);
    }
    mark_neighbours(listed, lists, persons, chosen);
    if let Some(object) = first_unmarked(objects, listed) {
        return HallVerdict::Extra(object);
    }
    if objects.len() >= persons.len() {
        return HallVerdict::Count;
    }
    HallVerdict::Yes
}

/// Whether these persons and objects are a Hall set of the costs; if not, the first fault in the
/// order of `HallVerdict`, by its lowest number.
///
/// `Yes` proves that no assignment exists: the persons would need different objects out of fewer
/// (P. Hall, On representatives of subsets, 1935). The lists may have any length and hold any
/// numbers. The time is linear in the lists, the numbers of persons and objects, and the listed
/// pairs; the memory is a byte a person and 2 an object.
///
/// # Errors
/// `AllocError` if memory is refused. None is taken for lists that are out of range or don't rise.
pub fn check_hall(
    alloc: Global,
    lists: &CostLists<'_>,
    persons: &[Person],
    objects: &[Object],
) -> Result<HallVerdict, AllocError>
    ensures verdict { IfOk result (λ v. IsHallVerdict lists.now persons.now objects.now v) }
    ensures yes { IfOk result (λ v.
        (v ≡ HallVerdict.Yes) ↔ IsHallSet lists.now.rows persons.now objects.now) }
    ensures none { IfOk result (λ v.
        v ≡ HallVerdict.Yes → (xs : List ℕ) → IsAssignment lists.now.rows xs → ⊥) }
{
    let (n, m) = (lists.persons() as usize, lists.objects() as usize);
    if !are_in_range(lists, persons, objects) {
        return Ok(HallVerdict::Range);
    }
    if !are_rising(persons, objects) {
        return Ok(HallVerdict::Order);
    }
    let mut chosen = vec![in alloc; false; n]?;
    let mut named = vec![in alloc; false; m]?;
    let mut listed = vec![in alloc; false; m]?;
    let (chosen, named, listed) = (
        chosen.as_mut_slice(),
        named.as_mut_slice(),
        listed.as_mut_slice(),
    );
    Ok(first_hall_fault(chosen, named, listed, lists, persons, objects))
}
