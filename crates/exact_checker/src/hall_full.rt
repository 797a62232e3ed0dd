// Marks, if each person lists each object.
ghost use Rattle.std.specs.Prelude.{◌≤◌, ℕ, List, length, All, MatchOption};
ghost use Rattle.std.specs.List.Sorted.{IsStrictlyIncreasing};
ghost use Rattle.assign_core.specs.Numbered.{IsNumber, IsMarked};
ghost use Rattle.assign_core.specs.Hall.{IsNeighbour};
ghost use Rattle.assign_core.specs.Rows.{Listing};
ghost use Rattle.dual_checker.specs.Faults.{IsFirst};
ghost use Rattle.dual_checker.specs.HallMarks.{AddsMarks};
ghost use Rattle.dual_checker.specs.HallVerdicts.{HasNeighbours, Lacks, ListsUnnamed};
ghost use Rattle.exact_checker.specs.inside.Marked.{ListAll};

use super::hall_marks::{lowest_unmarked, mark_each};
use cost_lists::{GREATEST_NUMBER, Object, Person};

// The lowest of these persons that lists an object without a mark, and the lowest object of this
// kind.
pub fn first_of_full(persons: &[Person], named: &[bool]) -> Option<(Person, Object)>
    requires rise { IsStrictlyIncreasing persons.now }
    requires few { length named.now ≤ GREATEST_NUMBER }
    ensures { (rows : List Listing) → ListAll rows (length named.now)
        → All (IsNumber (length rows)) persons.now
        → MatchOption result (HasNeighbours rows persons.now (IsMarked named.now))
        (λ p. IsFirst (Lacks rows persons.now (IsMarked named.now)) (length rows) p.0
        × IsFirst (ListsUnnamed rows (IsMarked named.now) p.0) (length named.now) p.1) }
{
    if persons.is_empty() {
        return None;
    }
    match lowest_unmarked(named) {
        Some(object) => Some((persons[0], object)),
        None => None,
    }
}

// Marks the objects that these persons list. No mark is set at first.
pub fn mark_of_full(listed: &mut [bool], persons: &[Person])
    requires { (j : ℕ) → ¬ IsMarked listed.old j }
    ensures { (rows : List Listing) → ListAll rows (length listed.old)
        → All (IsNumber (length rows)) persons.now
        → AddsMarks listed.old (IsNeighbour rows persons.now) listed.new }
{
    if persons.is_empty() {
        return;
    }
    mark_each(listed);
}
