// Whether lists of persons and objects are in range and rise.
ghost use Rattle.std.specs.Prelude.{◌↔◌, length, map, All, IsTrue};
ghost use Rattle.std.specs.List.Sorted.{IsStrictlyIncreasing};
ghost use Rattle.assign_core.specs.Numbered.{IsNumber};
ghost use Rattle.dual_checker.specs.HallVerdicts.{AreInRange};
ghost use Rattle.dual_checker.specs.HallVerdicts.{AreRising};

use assign_core::{Numbered, Object, Person, Problem};

// Whether all have numbers from 1 to n.
fn are_within<T: Numbered>(n: u16, all: &[T]) -> bool
    ensures { IsTrue result ↔ All (λ x. IsNumber n (T.number_of x)) all.now }
{
    all.iter().all(|one| {
        let number = one.number();
        number > 0 && number <= n
    })
}

// Whether each has a greater number than the one before.
fn rise<T: Numbered>(all: &[T]) -> bool
    ensures { IsTrue result ↔ IsStrictlyIncreasing (map T.number_of all.now) }
{
    for i in 1..all.len() {
        if all[i - 1].number() >= all[i].number() {
            return false;
        }
    }
    true
}

// Whether all numbers are those of persons and objects of this problem.
pub fn are_in_range(problem: &Problem, persons: &[Person], objects: &[Object]) -> bool
    ensures { IsTrue result ↔ AreInRange (length problem.now) problem.now persons.now objects.now }
{
    are_within(problem.n(), persons) && are_within(problem.n(), objects)
}

// Whether both lists strictly rise.
pub fn are_rising(persons: &[Person], objects: &[Object]) -> bool
    ensures { IsTrue result ↔ AreRising persons.now objects.now }
{
    rise(persons) && rise(objects)
}
