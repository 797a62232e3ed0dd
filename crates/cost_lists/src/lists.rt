// Lists of costs, borrowed from a caller.
ghost use Rattle.std.specs.Prelude.{◌≡◌, length};
ghost use Rattle.assign_core.specs.Dense.{rows_cut};
ghost use Rattle.cost_lists.specs.ListedCosts.{AreInLimits, IsCount};
ghost use Rattle.cost_lists.specs.Given.{rows_given};
ghost use Rattle.cost_lists.specs.Source.{AreCosts, ArePairs, IsGiven, rows_in, triples_in};

use super::numbers::{Object, Person};
use super::source::{Pairs, Source};
use assign_core::{Cost, Sense};
use std::marker::Model;

/// The costs of persons 1 to `n` and objects 1 to `m`, and whether low or high ones are wanted. They
/// are read where they are, and not copied.
#[derive(Drop)]
pub struct CostLists<'a> {
    sense: Sense,
    n: Person,
    m: Object,
    source: Source<'a>,
}

impl<'a> Model for CostLists<'a> {
    ghost use Rattle.cost_lists.specs.ListedCosts.{ListedCosts};

    ghost Value = { ListedCosts };

    ghost use Rattle.cost_lists.specs.Source.{IsGiven, rows_in};

    ghost view = { λ l. record { sense = l.sense; m = l.m; rows = rows_in l.sense l.n l.m l.source } };

    ghost invariant = { λ l. IsGiven l.n l.m l.source };
}

impl<'a> CostLists<'a> {
    /// The costs of `n` persons who list each of `m` objects. The first `m` costs are those of
    /// person 1 to objects 1, 2, .., the next `m` those of person 2, and so on.
    pub fn dense(sense: Sense, n: Person, m: Object, costs: &'a [Cost]) -> CostLists<'a>
        requires persons { IsCount n }
        requires objects { IsCount m }
        requires costs { AreCosts n m costs.now }
        ensures { result ≡ record { sense = sense; m = m; rows = rows_cut m n costs.now } }
    {
        CostLists {
            sense,
            n,
            m,
            source: Source::Dense(costs),
        }
    }

    /// The costs of `n` persons and `m` objects in listed pairs. If a pair is given several times,
    /// its best cost counts: the least under `Min`, the greatest under `Max`.
    pub fn sparse(sense: Sense, n: Person, m: Object, pairs: Pairs<'a>) -> CostLists<'a>
        requires persons { IsCount n }
        requires objects { IsCount m }
        requires pairs { ArePairs n m pairs }
        ensures { result ≡ record {
          sense = sense;
          m = m;
          rows = rows_given sense (triples_in pairs.entry) m 1 n;
        } }
    {
        CostLists {
            sense,
            n,
            m,
            source: Source::Listed(pairs),
        }
    }

    /// Whether low or high costs are wanted.
    pub fn sense(&self) -> Sense
        ensures { result ≡ self.now.sense }
    {
        self.sense
    }

    /// The number of persons.
    pub fn persons(&self) -> Person
        ensures count { result ≡ length self.now.rows }
        ensures rule { AreInLimits self.now }
    {
        self.n
    }

    /// The number of objects.
    pub fn objects(&self) -> Object
        ensures count { result ≡ self.now.m }
        ensures rule { AreInLimits self.now }
    {
        self.m
    }

    /// Where the costs are.
    pub fn source(&self) -> Source<'_>
        ensures given { IsGiven (length self.now.rows) self.now.m result }
        ensures rows { rows_in self.now.sense (length self.now.rows) self.now.m result
            ≡ self.now.rows }
    {
        self.source
    }
}
