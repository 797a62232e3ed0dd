// The lists that a caller gives.
ghost use Rattle.std.specs.Prelude.{◌≡◌, ◌↔◌, IsTrue, map};
ghost use Rattle.cost_lists.specs.ListedCosts.{IsCount};
ghost use Rattle.wide_checker.specs.WideNumbers.{wide_value};
ghost use Rattle.c_calls.specs.lists.Input.{HasPairs, either_form};
ghost use Rattle.c_wide.specs.Given.{GivenWide, as_numbers};

use c_calls::lists::Form;
use c_calls::pairs_of;
use cost_lists::{Object, Person};
use std::marker::Model;
use wide_checker::Wide;

/// A given problem. None of it has been checked.
#[derive(Drop)]
pub struct WideInput<'a> {
    pub form: Form,
    pub sense: u32,
    /// The number of persons.
    pub n: usize,
    /// The number of objects.
    pub m: usize,
    /// The lengths of the buffers that need one value for each person.
    pub by_person: &'a [usize],
    /// The lengths of those that need one value for each object.
    pub by_object: &'a [usize],
    pub persons: &'a [Person],
    pub objects: &'a [Object],
    pub costs: &'a [Wide],
}

impl<'a> Model for WideInput<'a> {
    ghost Value = { GivenWide };

    ghost view = { λ g. record {
      form = g.form;
      sense = g.sense;
      n = g.n;
      m = g.m;
      by_person = g.by_person.now;
      by_object = g.by_object.now;
      persons = g.persons.now;
      objects = g.objects.now;
      costs = g.costs.now;
    } };
}

/// Dense if there are costs but no list of pairs; otherwise sparse.
pub fn wide_form_of(persons: &[Person], objects: &[Object], costs: &[Wide]) -> Form
    ensures { result ≡ either_form persons.now objects.now (map wide_value costs.now) }
{
    if persons.is_empty() && objects.is_empty() && !costs.is_empty() {
        Form::Dense
    } else {
        Form::Sparse
    }
}

/// Whether the lists of pairs and costs have the right lengths.
pub fn has_pairs(input: &WideInput<'_>) -> bool
    requires persons { IsCount input.now.n }
    requires objects { IsCount input.now.m }
    ensures { IsTrue result ↔ HasPairs input.now.form (as_numbers input.now) }
{
    match input.form {
        Form::Dense => {
            input.persons.is_empty()
                && input.objects.is_empty()
                && input.costs.len() == pairs_of(input.n, input.m)
        }
        Form::Sparse => {
            input.objects.len() == input.persons.len() && input.costs.len() == input.persons.len()
        }
    }
}
