// Whether each person lists its object.
ghost use Rattle.std.specs.Prelude.{◌≡◌, length, MatchOption};
ghost use Rattle.dual_checker.specs.Faults.{IsFirst, IsUnlisted};
ghost use Rattle.assign_core.specs.Assignment.{AreListed};

use assign_core::{Object, Person, Problem};

// The lowest of the persons that doesn't list its object.
pub fn first_unlisted(problem: &Problem, objects: &[Object]) -> Option<Person>
    requires { length objects.now ≡ length problem.now }
    ensures { MatchOption result (AreListed problem.now objects.now)
        (λ i. IsFirst (IsUnlisted problem.now objects.now) (length problem.now) i) }
{
    // This call shows the prover that this many persons can be numbered.
    let _persons = problem.n();
    for (i, object) in objects.iter().enumerate() {
        let person = Person(i as u16 + 1);
        if problem.cost_of(person, *object).is_none() {
            return Some(person);
        }
    }
    None
}
