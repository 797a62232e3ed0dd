// Prices with a log of their raises.
ghost use Rattle.std.specs.Prelude.{◌≡◌, ◌<ℤ◌, ◌≤◌, ◌<◌, length, IfOk, IsOk, OnOk, OnErr};
ghost use Rattle.assign_core.specs.Numbered.{IsNumber};
ghost use Rattle.assign_core.specs.Prices.{IsPrice, price_of};
ghost use Rattle.price_log.specs.History.{IsEarlier, IsHistory, last_version, started, today};
ghost use Rattle.price_log.specs.Changes.{after_raise, trimmed, with_raise};

use super::raise::{Raise, apply_raises, move_raises};
use assign_core::{Object, Price, Prices};
use std::alloc::{AllocError, Global};
use std::collections::VecDeque;
use std::marker::Model;

/// The greatest number of raises that a log keeps.
pub const MOST_KEPT: usize = 65_536;

/// A table of prices that only rise. Each raise makes a version, counted from 0. The log keeps the
/// last raises, so that a table of an older version catches up by them.
///
/// A contract sees the table of the first version that the log still reaches, and the raises after
/// it.
#[derive(Drop)]
pub struct PriceLog {
    first_kept: u128,
    base: Prices,
    raises: VecDeque<Raise>,
    // The current prices.
    prices: Prices,
}

impl Model for PriceLog {
    ghost use Rattle.std.specs.Prelude.{◌≡◌};
    ghost use Rattle.price_log.specs.History.{History, IsHistory, today};

    ghost Value = { History };

    ghost view = { λ l. record { first_kept = l.first_kept; base = l.base; raises = l.raises.items } };

    ghost invariant = { λ l. let h : History = record {
      first_kept = l.first_kept;
      base = l.base;
      raises = l.raises.items;
    } in (l.prices ≡ today h) × IsHistory h };
}

impl PriceLog {
    /// A log that starts at version 0 with these prices.
    ///
    /// # Errors
    /// `AllocError` if memory is refused.
    pub fn start(alloc: Global, prices: Prices) -> Result<PriceLog, AllocError>
        ensures { IfOk result (λ log. log ≡ started prices) }
    {
        // This call shows the prover that the prices are a table.
        let _table = prices.as_slice();
        Ok(PriceLog {
            first_kept: 0,
            base: prices.copy(alloc)?,
            raises: VecDeque::new(alloc),
            prices,
        })
    }

    /// The current price of an object.
    pub fn price(&self, object: Object) -> Price
        requires { IsNumber (length (today self.now)) object }
        ensures price { result ≡ price_of (today self.now) object }
        ensures range { IsPrice result }
    {
        self.prices.price(object)
    }

    /// The current prices of all objects.
    pub fn prices(&self) -> &Prices
        ensures prices { result.now ≡ today self.now }
        ensures log { IsHistory self.now }
    {
        &self.prices
    }

    /// The current version: the number of raises since the start.
    pub fn version(&self) -> u128
        ensures { result ≡ last_version self.now }
    {
        self.first_kept + self.raises.len() as u128
    }

    /// The first version that the log still reaches.
    pub fn first_kept(&self) -> u128
        ensures { result ≡ self.now.first_kept }
    {
        self.first_kept
    }

    /// Forgets the versions before this one, in time linear in the raises forgotten. No price and
    /// no version changes.
    pub fn trim(&mut self, version: u128)
        requires first { self.old.first_kept ≤ version }
        requires last { version ≤ last_version self.old }
        ensures { self.new ≡ trimmed self.old version }
    {
        let count = (version - self.first_kept) as usize;
        move_raises(&mut self.raises, &mut self.base, count);
        self.first_kept = version;
    }

    /// Raises the price of an object. A log that already keeps `MOST_KEPT` raises first forgets
    /// them, and this raise takes no memory. The cost is O(1) amortized.
    ///
    /// # Errors
    /// `AllocError` if memory is refused. The log is then unchanged.
    pub fn raise(&mut self, object: Object, level: Price) -> Result<(), AllocError>
        requires object { IsNumber (length (today self.old)) object }
        requires above { price_of (today self.old) object <ℤ level }
        requires price { IsPrice level }
        ensures ok { OnOk result (self.new ≡ after_raise self.old object level) }
        ensures err { OnErr result (self.new ≡ self.old) }
        ensures full { length self.old.raises ≡ MOST_KEPT → IsOk result }
    {
        if self.raises.len() < MOST_KEPT {
            self.raise_further(object, level)
        } else {
            self.raise_afresh(object, level);
            Ok(())
        }
    }

    // Adds a raise. The queue may grow.
    fn raise_further(&mut self, object: Object, level: Price) -> Result<(), AllocError>
        requires object { IsNumber (length (today self.old)) object }
        requires above { price_of (today self.old) object <ℤ level }
        requires price { IsPrice level }
        requires room { length self.old.raises < MOST_KEPT }
        ensures ok { OnOk result (self.new ≡ with_raise self.old object level) }
        ensures err { OnErr result (self.new ≡ self.old) }
    {
        self.raises.push_back(Raise { object, level })?;
        self.prices.set(object, level);
        Ok(())
    }

    // Adds the first raise after moving a full queue into the base. The queue has room for it.
    fn raise_afresh(&mut self, object: Object, level: Price)
        requires object { IsNumber (length (today self.old)) object }
        requires above { price_of (today self.old) object <ℤ level }
        requires price { IsPrice level }
        requires full { length self.old.raises ≡ MOST_KEPT }
        ensures { self.new ≡ with_raise (trimmed self.old (last_version self.old)) object level }
    {
        move_raises(&mut self.raises, &mut self.base, MOST_KEPT);
        self.raises.push_back_reserved(Raise { object, level });
        self.first_kept += MOST_KEPT as u128;
        self.prices.set(object, level);
    }

    /// Makes an older table and its version current. It applies the raises since then, in time
    /// linear in their number, or copies all prices if the log no longer reaches the table's
    /// version. It takes no memory.
    pub fn catch_up(&self, table: &mut Prices, version: &mut u128)
        requires { IsEarlier self.now table.old version.old }
        ensures table { table.new ≡ today self.now }
        ensures version { version.new ≡ last_version self.now }
    {
        if *version < self.first_kept {
            table.copy_from(&self.prices);
        } else {
            let first = (*version - self.first_kept) as usize;
            apply_raises(&self.raises, first, table);
        }
        *version = self.version();
    }
}
