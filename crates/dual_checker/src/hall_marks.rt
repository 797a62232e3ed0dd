// Marks for the objects that persons list, and the first objects without one.
ghost use Rattle.std.specs.Prelude.{◌≡◌, ℕ, length, All, MatchOption};
ghost use Rattle.std.specs.List.Sorted.{IsStrictlyIncreasing};
ghost use Rattle.assign_core.specs.Numbered.{IsNumber, IsMarked};
ghost use Rattle.assign_core.specs.Rows.{IsListed};
ghost use Rattle.assign_core.specs.Hall.{IsNeighbour};
ghost use Rattle.dual_checker.specs.Faults.{IsFirst};
ghost use Rattle.dual_checker.specs.HallMarks.{AddsMarks};
ghost use Rattle.dual_checker.specs.HallVerdicts.{HasNeighbours, Lacks, ListsUnnamed};

use assign_core::{Object, Person, Problem};

// Marks the objects that a person lists.
fn mark_row(marks: &mut [bool], problem: &Problem, person: Person)
    requires person { IsNumber (length problem.now) person }
    requires long { length marks.old ≡ (length problem.now) }
    ensures { AddsMarks marks.old (IsListed problem.now person) marks.new }
{
    let row = problem.row(person);
    for i in 0..row.len() {
        let pair = row[i];
        let (object, _) = pair;
        marks[object.place()] = true;
    }
}

// Marks the objects that these persons list.
pub fn mark_listed(marks: &mut [bool], problem: &Problem, persons: &[Person])
    requires persons { All (IsNumber (length problem.now)) persons.now }
    requires long { length marks.old ≡ (length problem.now) }
    ensures { AddsMarks marks.old (IsNeighbour problem.now persons.now) marks.new }
{
    for person in persons {
        mark_row(marks, problem, *person);
    }
}

// The lowest object without a mark that a person lists.
fn first_unnamed(problem: &Problem, person: Person, named: &[bool]) -> Option<Object>
    requires person { IsNumber (length problem.now) person }
    requires long { length named.now ≡ (length problem.now) }
    ensures { MatchOption result ((j : ℕ) → IsListed problem.now person j → IsMarked named.now j)
        (λ j. IsFirst
        (ListsUnnamed problem.now (IsMarked named.now) person) (length problem.now) j) }
{
    let row = problem.row(person);
    for i in 0..row.len() {
        let pair = row[i];
        let (object, _) = pair;
        if !named[object.place()] {
            return Some(object);
        }
    }
    None
}

// The lowest of these persons that lists an object without a mark, and the lowest object of this
// kind.
pub fn first_missing(
    problem: &Problem,
    persons: &[Person],
    named: &[bool],
) -> Option<(Person, Object)>
    requires persons { All (IsNumber (length problem.now)) persons.now }
    requires rise { IsStrictlyIncreasing persons.now }
    requires long { length named.now ≡ (length problem.now) }
    ensures { MatchOption result (HasNeighbours problem.now persons.now (IsMarked named.now))
        (λ p. IsFirst (Lacks problem.now persons.now (IsMarked named.now)) (length problem.now) p.0
        × IsFirst (ListsUnnamed problem.now (IsMarked named.now) p.0) (length problem.now) p.1) }
{
    for person in persons {
        if let Some(object) = first_unnamed(problem, *person, named) {
            return Some((*person, object));
        }
    }
    None
}
