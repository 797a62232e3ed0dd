// Lists that are a problem with counts and groups.
ghost use Rattle.std.specs.Prelude.{◌≡◌, IfErr, IfOk, OnOk};
ghost use Rattle.count_checker.specs.CountLists.{AreCountLists};
ghost use Rattle.count_checker.specs.ListFaults.{HasListFault};

use super::list_fault::{ListFault, first_list_fault};
use super::lists::CountLists;
use std::marker::Model;

/// A caller's lists that are a problem with counts and groups. They are read where they are, and not
/// copied.
#[derive(Drop)]
pub struct CheckedLists<'a> {
    lists: CountLists<'a>,
}

impl<'a> Model for CheckedLists<'a> {
    ghost use Rattle.count_checker.specs.declared.lists.CountLists.{CountLists};
    ghost use Rattle.count_checker.specs.CountLists.{AreCountLists};

    ghost Value = { CountLists };

    ghost view = { λ p. p.lists };

    ghost invariant = { λ p. AreCountLists p.lists };
}

impl<'a> CheckedLists<'a> {
    /// The problem of these lists.
    ///
    /// The time is linear in the lists; no memory is taken.
    ///
    /// # Errors
    /// The first fault of the lists, if they have any.
    pub fn of(lists: CountLists<'a>) -> Result<CheckedLists<'a>, ListFault>
        ensures problem { IfOk result (λ p. p ≡ lists.entry) }
        ensures whole { OnOk result (AreCountLists lists.entry) }
        ensures fault { IfErr result (HasListFault lists.entry) }
    {
        match first_list_fault(lists) {
            Some(fault) => Err(fault),
            None => Ok(CheckedLists { lists }),
        }
    }

    /// The lists.
    pub fn lists(&self) -> CountLists<'_>
        ensures lists { result ≡ self.now }
        ensures rule { AreCountLists self.now }
    {
        self.lists
    }
}
