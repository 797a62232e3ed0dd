// The lists that a caller gives.
ghost use Rattle.std.specs.Prelude.{◌≡◌, ◌↔◌, [], IsTrue};
ghost use Rattle.cost_lists.specs.ListedCosts.{IsCount};
ghost use Rattle.c_calls.specs.lists.Input.{InputLists, HasFirst, HasPairs, either_form};

use super::form::{Form, form_of};
use crate::size::pairs_of;
use assign_core::Cost;
use cost_lists::{Object, Person, Price};
use std::marker::Model;

/// A given problem with first prices. None of it has been checked.
#[derive(Drop)]
pub struct Input<'a> {
    pub form: Form,
    pub sense: u32,
    /// The number of persons.
    pub n: usize,
    /// The number of objects.
    pub m: usize,
    /// The lengths of the buffers that need one value for each person.
    pub by_person: &'a [usize],
    /// The lengths of those that need one value for each object.
    pub by_object: &'a [usize],
    pub persons: &'a [Person],
    pub objects: &'a [Object],
    pub costs: &'a [Cost],
    /// A first price for each object, or none.
    pub first: &'a [Price],
}

impl<'a> Model for Input<'a> {
    ghost Value = { InputLists };

    ghost view = { λ g. record {
      form = g.form;
      sense = g.sense;
      n = g.n;
      m = g.m;
      by_person = g.by_person.now;
      by_object = g.by_object.now;
      persons = g.persons.now;
      objects = g.objects.now;
      costs = g.costs.now;
      first = g.first.now;
    } };
}

/// A problem with the lengths of its buffers and without first prices, which is dense if there are costs
/// but no list of pairs; otherwise it is sparse.
pub fn either_input<'a>(
    sense: u32,
    n: usize,
    m: usize,
    by_person: &'a [usize],
    by_object: &'a [usize],
    persons: &'a [Person],
    objects: &'a [Object],
    costs: &'a [Cost],
) -> Input<'a>
    ensures { result ≡ record {
      form = either_form persons.now objects.now costs.now;
      sense = sense;
      n = n;
      m = m;
      by_person = by_person.now;
      by_object = by_object.now;
      persons = persons.now;
      objects = objects.now;
      costs = costs.now;
      first = [];
    } }
{
    Input {
        form: form_of(persons, objects, costs),
        sense,
        n,
        m,
        by_person,
        by_object,
        persons,
        objects,
        costs,
        first: &[],
    }
}

/// Whether the lists of pairs and costs have the right lengths.
pub fn has_pairs(input: &Input<'_>) -> bool
    requires persons { IsCount input.now.n }
    requires objects { IsCount input.now.m }
    ensures { IsTrue result ↔ HasPairs input.now.form input.now }
{
    match input.form {
        Form::Dense => {
            input.persons.is_empty()
                && input.objects.is_empty()
                && input.costs.len() == pairs_of(input.n, input.m)
        }
        Form::Sparse => {
            input.objects.len() == input.persons.len() && input.costs.len() == input.persons.len()
        }
    }
}

/// Whether there is a first price for each object, or none at all.
pub fn has_first(input: &Input<'_>) -> bool
    ensures { IsTrue result ↔ HasFirst input.now }
{
    input.first.is_empty() || input.first.len() == input.m
}
