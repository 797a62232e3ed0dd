// The checker of Hall sets.
ghost use Rattle.std.specs.Prelude.{◌≡◌, ◌↔◌, ◌<◌, ◌*◌, List, ℕ, All, IsTrue, length};
ghost use Rattle.assign_core.specs.Assignment.{IsAssignment};
ghost use Rattle.std.specs.List.Sorted.{IsStrictlyIncreasing};
ghost use Rattle.assign_core.specs.Numbered.{IsNumber};
ghost use Rattle.assign_core.specs.Hall.{IsHallSet};
ghost use Rattle.double_costs.specs.DoubleRows.{rows_of_doubles};
ghost use Rattle.double_checker.specs.HallVerdicts.{IsHallVerdict};

use super::hall_rows::{are_listed, are_rows_named, mark_each};
use super::objects::clear;
use assign_core::Sense;
use cost_lists::{Object, Person, are_within, rises};
use double_costs::first_fault;

/// The verdict on a list of persons and a list of objects: the first of these that applies.
#[derive(Clone, Copy, PartialEq, Eq)]
pub enum HallVerdict {
    /// There aren't `n * m` costs.
    Length,
    /// The place, from 0, of the first double that is no cost.
    Cost(usize),
    /// The lists aren't a Hall set of the pairs that aren't forbidden.
    Not,
    /// The lists are a Hall set of the pairs that aren't forbidden.
    Hall,
}

// Whether these persons and objects, which rise and are in range, are a Hall set.
fn is_hall_of_rising(
    n: Person,
    costs: &[f64],
    persons: &[Person],
    objects: &[Object],
    named: &mut [bool],
) -> bool
    requires long { length costs.now ≡ n * length named.old }
    requires persons_within { All (IsNumber n) persons.now }
    requires objects_within { All (IsNumber (length named.old)) objects.now }
    requires persons_rise { IsStrictlyIncreasing persons.now }
    requires objects_rise { IsStrictlyIncreasing objects.now }
    ensures { IsTrue result
        ↔ IsHallSet (rows_of_doubles (length named.old) n costs.now) persons.now objects.now }
{
    if objects.len() >= persons.len() {
        return false;
    }
    clear(named);
    mark_each(named, objects);
    if !are_rows_named(costs, persons, named) {
        return false;
    }
    are_listed(costs, named.len(), persons, objects)
}

// Whether these persons and objects are a Hall set.
fn is_hall(
    n: Person,
    m: Object,
    costs: &[f64],
    persons: &[Person],
    objects: &[Object],
    named: &mut [bool],
) -> bool
    requires long { length costs.now ≡ n * m }
    requires named { length named.old ≡ m }
    ensures { IsTrue result ↔ IsHallSet (rows_of_doubles m n costs.now) persons.now objects.now }
{
    if !are_within(n, persons) {
        return false;
    }
    if !are_within(m, objects) {
        return false;
    }
    if !rises(persons) {
        return false;
    }
    if !rises(objects) {
        return false;
    }
    is_hall_of_rising(n, costs, persons, objects, named)
}

/// Whether these persons and these objects are a Hall set: both lists rise, the objects are all
/// that the persons list, and they are fewer. `Hall` proves that no plan exists.
///
/// The lists may have any length and hold any numbers. The time is linear in the costs. `named` has
/// a mark for each object, which may be of any value before; no other memory is taken.
pub fn check_hall(
    sense: Sense,
    n: Person,
    m: Object,
    costs: &[f64],
    persons: &[Person],
    objects: &[Object],
    named: &mut [bool],
) -> HallVerdict
    requires { length named.old ≡ m }
    ensures verdict { IsHallVerdict sense n m costs.now persons.now objects.now result }
    ensures none { result ≡ HallVerdict.Hall
        → (xs : List ℕ) → IsAssignment (rows_of_doubles m n costs.now) xs → ⊥ }
{
    if costs.len() != n as usize * m as usize {
        return HallVerdict::Length;
    }
    if let Some(place) = first_fault(sense, costs) {
        return HallVerdict::Cost(place);
    }
    if is_hall(n, m, costs, persons, objects, named) {
        HallVerdict::Hall
    } else {
        HallVerdict::Not
    }
}
