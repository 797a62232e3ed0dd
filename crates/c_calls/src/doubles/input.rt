// The costs that a caller gives.
ghost use Rattle.std.specs.Prelude.{◌≡◌};
ghost use Rattle.c_calls.specs.doubles.Input.{InputDoubles};

use std::marker::Model;

/// A given problem. None of it has been checked.
#[derive(Drop)]
pub struct Input<'a> {
    pub sense: u32,
    /// The number of persons.
    pub n: usize,
    /// The number of objects.
    pub m: usize,
    /// The lengths of the buffers that need one value for each person.
    pub by_person: &'a [usize],
    /// The lengths of those that need one value for each object.
    pub by_object: &'a [usize],
    /// The cost of each pair, row by row; an infinite one forbids its pair.
    pub costs: &'a [f64],
}

impl<'a> Model for Input<'a> {
    ghost Value = { InputDoubles };

    ghost view = { λ g. record {
      sense = g.sense;
      n = g.n;
      m = g.m;
      by_person = g.by_person.now;
      by_object = g.by_object.now;
      costs = g.costs.now;
    } };
}

/// A problem with the lengths of its buffers.
pub fn input_of<'a>(
    sense: u32,
    n: usize,
    m: usize,
    by_person: &'a [usize],
    by_object: &'a [usize],
    costs: &'a [f64],
) -> Input<'a>
    ensures { result ≡ record {
      sense = sense;
      n = n;
      m = m;
      by_person = by_person.now;
      by_object = by_object.now;
      costs = costs.now;
    } }
{
    Input {
        sense,
        n,
        m,
        by_person,
        by_object,
        costs,
    }
}
