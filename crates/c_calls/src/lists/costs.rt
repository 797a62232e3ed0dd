// The costs that a caller gives, where they are.
ghost use Rattle.std.specs.Prelude.{◌≡◌, length};
ghost use Rattle.c_calls.specs.lists.Faults.{IsWhole};
ghost use Rattle.c_calls.specs.lists.Input.{lists_in};
ghost use Rattle.c_calls.specs.lists.Shapes.{IsShape};

use super::form::Form;
use super::input::Input;
use crate::size::Shape;
use cost_lists::{CostLists, Pairs};

/// The costs of given lists without a fault. They are read where they are, and not copied.
pub fn lists_of<'a>(shape: Shape, input: &'a Input<'_>) -> CostLists<'a>
    requires shape { IsShape input.now shape }
    requires whole { IsWhole input.now }
    ensures lists { result ≡ lists_in shape.sense input.now }
    ensures persons { length result.rows ≡ input.now.n }
{
    let Shape { sense, n, m } = shape;
    match input.form {
        Form::Dense => CostLists::dense(sense, n, m, input.costs),
        Form::Sparse => {
            let pairs = Pairs {
                persons: input.persons,
                objects: input.objects,
                costs: input.costs,
            };
            CostLists::sparse(sense, n, m, pairs)
        }
    }
}
