// The two forms of a problem.
ghost use Rattle.std.specs.Prelude.{◌≡◌};
ghost use Rattle.c_calls.specs.lists.Input.{either_form};

use assign_core::Cost;
use cost_lists::{Object, Person};

/// The form of a given problem.
#[derive(Clone, Copy, PartialEq, Eq)]
pub enum Form {
    /// Each person lists each object: the costs come row by row.
    Dense,
    /// The listed pairs come as three lists: their persons, their objects and their costs.
    Sparse,
}

/// Dense if there are costs but no list of pairs; otherwise sparse.
pub fn form_of(persons: &[Person], objects: &[Object], costs: &[Cost]) -> Form
    ensures { result ≡ either_form persons.now objects.now costs.now }
{
    if persons.is_empty() && objects.is_empty() && !costs.is_empty() {
        Form::Dense
    } else {
        Form::Sparse
    }
}
