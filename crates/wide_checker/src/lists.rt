// Lists of costs, borrowed from a caller.
ghost use Rattle.std.specs.Prelude.{◌≡◌, length, map};
ghost use Rattle.assign_core.specs.Dense.{rows_cut};
ghost use Rattle.cost_lists.specs.ListedCosts.{IsCount};
ghost use Rattle.cost_lists.specs.Given.{rows_given};
ghost use Rattle.wide_checker.specs.WideNumbers.{wide_value};
ghost use Rattle.wide_checker.specs.WideSources.{AreWideCosts, AreWidePairs, IsWideGiven, triples_in, wide_rows};
ghost use Rattle.wide_checker.specs.WideLimits.{AreInWideLimits};

use super::numbers::Wide;
use super::source::{WidePairs, WideSource};
use assign_core::Sense;
use cost_lists::{Object, Person};
use std::marker::Model;

/// The costs of persons 1 to `n` and objects 1 to `m`, and whether low or high ones are wanted.
/// They are read where they are, and not copied.
#[derive(Drop)]
pub struct WideLists<'a> {
    sense: Sense,
    n: Person,
    m: Object,
    source: WideSource<'a>,
}

impl<'a> Model for WideLists<'a> {
    ghost use Rattle.cost_lists.specs.ListedCosts.{ListedCosts};

    ghost Value = { ListedCosts };

    ghost use Rattle.wide_checker.specs.WideSources.{IsWideGiven, wide_rows};

    ghost view = { λ l. record {
      sense = l.sense;
      m = l.m;
      rows = wide_rows l.sense l.n l.m l.source;
    } };

    ghost invariant = { λ l. IsWideGiven l.n l.m l.source };
}

impl<'a> WideLists<'a> {
    /// The costs of `n` persons who list each of `m` objects. The first `m` costs are those of
    /// person 1 to objects 1, 2, .., the next `m` those of person 2, and so on.
    pub fn dense(sense: Sense, n: Person, m: Object, costs: &'a [Wide]) -> WideLists<'a>
        requires persons { IsCount n }
        requires objects { IsCount m }
        requires costs { AreWideCosts n m costs.now }
        ensures { result ≡ record {
          sense = sense;
          m = m;
          rows = rows_cut m n (map wide_value costs.now);
        } }
    {
        WideLists {
            sense,
            n,
            m,
            source: WideSource::Dense(costs),
        }
    }

    /// The costs of `n` persons and `m` objects in listed pairs. If a pair is given several times,
    /// its best cost counts: the least under `Min`, the greatest under `Max`.
    pub fn sparse(sense: Sense, n: Person, m: Object, pairs: WidePairs<'a>) -> WideLists<'a>
        requires persons { IsCount n }
        requires objects { IsCount m }
        requires pairs { AreWidePairs n m pairs }
        ensures { result ≡ record {
          sense = sense;
          m = m;
          rows = rows_given sense (triples_in pairs.entry) m 1 n;
        } }
    {
        WideLists {
            sense,
            n,
            m,
            source: WideSource::Listed(pairs),
        }
    }

    /// Whether low or high costs are wanted.
    pub fn sense(&self) -> Sense
        ensures { result ≡ self.now.sense }
    {
        self.sense
    }

    /// The number of persons.
    pub fn persons(&self) -> Person
        ensures count { result ≡ length self.now.rows }
        ensures rule { AreInWideLimits self.now }
    {
        self.n
    }

    /// The number of objects.
    pub fn objects(&self) -> Object
        ensures count { result ≡ self.now.m }
        ensures rule { AreInWideLimits self.now }
    {
        self.m
    }

    /// Where the costs are.
    pub fn source(&self) -> WideSource<'_>
        ensures given { IsWideGiven (length self.now.rows) self.now.m result }
        ensures rows { wide_rows self.now.sense (length self.now.rows) self.now.m result
            ≡ self.now.rows }
    {
        self.source
    }
}
