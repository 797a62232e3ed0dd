// A table of prices.
ghost use Rattle.std.specs.Prelude.{◌≡◌, ℤ, ◌<◌, ◌≤◌, ◌≤ℤ◌, List, length, pos, replicate, IfOk};
ghost use Rattle.assign_core.specs.Numbered.{IsNumber, renumbered};
ghost use Rattle.assign_core.specs.Prices.{IsPrice, IsTable, IsNarrow, IsNarrowed, IsPair, price_of};

use super::numbers::{MOST_PERSONS, NARROW_END, Object, Price};
use std::alloc::{AllocError, Global};
use std::marker::Model;

/// The prices of objects 1, 2, .., at most `MOST_PERSONS` of them, each from 0 to less than
/// `PRICE_END`.
///
/// It also holds a 64-bit copy of each price, at most `NARROW_END`. With these copies a scan finds
/// the objects that change nothing, without 128-bit sums.
#[derive(Drop)]
pub struct Prices {
    values: Vec<Price>,
    narrow: Vec<i64>,
}

impl Model for Prices {
    ghost Value = { List ℤ };

    ghost view = { λ p. p.values.items };

    ghost invariant = { λ p. IsPair p.values.items p.narrow.items };
}

// The 64-bit copy of a price: the price, but at most `NARROW_END`.
fn narrow_of(price: Price) -> i64
    requires { IsPrice price }
    ensures below { result ≤ℤ price }
    ensures range { IsNarrow result }
{
    if price < Price::from(NARROW_END) {
        price as i64
    } else {
        NARROW_END
    }
}

// The 64-bit copies of the prices.
fn narrowed(alloc: Global, prices: &[Price]) -> Result<Vec<i64>, AllocError>
    requires { IsTable prices.now }
    ensures { IfOk result (λ narrow. IsNarrowed narrow.items prices.now) }
{
    let mut narrow = Vec::with_capacity(alloc, prices.len())?;
    for i in 0..prices.len() {
        narrow.push(narrow_of(prices[i]))?;
    }
    Ok(narrow)
}

impl Prices {
    /// The table with these prices.
    ///
    /// # Errors
    /// `AllocError` if memory is refused.
    pub fn new(alloc: Global, values: Vec<Price>) -> Result<Prices, AllocError>
        requires { IsTable values.items }
        ensures { IfOk result (λ prices. prices ≡ values.items) }
    {
        let narrow = narrowed(alloc, values.as_slice())?;
        Ok(Prices { values, narrow })
    }

    /// The table of `n` prices of 0.
    ///
    /// # Errors
    /// `AllocError` if memory is refused.
    pub fn zeros(alloc: Global, n: u16) -> Result<Prices, AllocError>
        requires { n ≤ MOST_PERSONS }
        ensures { IfOk result (λ prices. prices ≡ replicate n (pos 0)) }
    {
        let values: Vec<Price> = vec![in alloc; 0; n as usize]?;
        Prices::new(alloc, values)
    }

    /// The prices of objects 1, 2, ..
    pub fn as_slice(&self) -> &[Price]
        ensures prices { result.now ≡ self.now }
        ensures table { IsTable self.now }
    {
        self.values.as_slice()
    }

    /// The 64-bit copies of the prices of objects 1, 2, ..: from 0 to `NARROW_END`, none above its
    /// own price.
    pub fn narrow(&self) -> &[i64]
        ensures { IsNarrowed result.now self.now }
    {
        self.narrow.as_slice()
    }

    /// The price of an object.
    pub fn price(&self, object: Object) -> Price
        requires { IsNumber (length self.now) object }
        ensures price { result ≡ price_of self.now object }
        ensures range { IsPrice result }
    {
        self.values[object.place()]
    }

    /// Sets the price of an object.
    pub fn set(&mut self, object: Object, price: Price)
        requires object { IsNumber (length self.old) object }
        requires price { IsPrice price }
        ensures { self.new ≡ renumbered self.old object price }
    {
        let place = object.place();
        self.values[place] = price;
        self.narrow[place] = narrow_of(price);
    }

    /// Sets all prices to those of another table.
    pub fn copy_from(&mut self, other: &Prices)
        requires { length self.old ≡ length other.now }
        ensures { self.new ≡ other.now }
    {
        self.values.copy_from_slice(other.values.as_slice());
        self.narrow.copy_from_slice(other.narrow.as_slice());
    }

    /// A copy of this table.
    ///
    /// # Errors
    /// `AllocError` if memory is refused.
    pub fn copy(&self, alloc: Global) -> Result<Prices, AllocError>
        ensures { IfOk result (λ copy. copy ≡ self.now) }
    {
        let values = self.values.as_slice().to_vec(alloc)?;
        let narrow = self.narrow.as_slice().to_vec(alloc)?;
        Ok(Prices { values, narrow })
    }
}
