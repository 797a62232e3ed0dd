// Number types and limits, and the numbers of persons and objects.
ghost use Rattle.std.specs.Prelude.{◌≡◌, ℕ, ◌-◌, ◌<◌};

use std::marker::Model;

/// A cost from `-GREATEST_COST` to `GREATEST_COST`, in the planner's own unit.
pub type Cost = i64;

/// A cost scaled by one more than the number of persons, so that slackness 1 proves an assignment
/// optimal in whole numbers.
pub type Benefit = i64;

/// A price, in the unit of benefits.
pub type Price = i128;

/// The most persons, and the most objects, that a problem may have.
pub const MOST_PERSONS: u16 = 8192;

/// The greatest absolute value of a cost.
pub const GREATEST_COST: Cost = 1_000_000_000_000;

/// Prices are from 0 to less than this.
pub const PRICE_END: Price = 10_000_000_000_000_000_000_000;

/// First prices of a run are at most this, so that all later ones stay below `PRICE_END`.
pub const GREATEST_FIRST_PRICE: Price = 1_000_000_000_000_000_000_000;

/// The 64-bit copy of a price is this wherever the price is greater.
pub const NARROW_END: i64 = 1 << 62;

/// A person's number, from 1.
#[derive(Clone, Copy, PartialEq, Eq, PartialOrd, Ord)]
pub struct Person(pub u16);

impl Model for Person {
    ghost Value = { ℕ };

    ghost view = { λ p. p.0 };

    ghost inverse = { λ n. record { 0 = n } };
}

/// An object's number, from 1.
#[derive(Clone, Copy, Debug, PartialEq, Eq, PartialOrd, Ord)]
pub struct Object(pub u16);

impl Model for Object {
    ghost Value = { ℕ };

    ghost view = { λ o. o.0 };

    ghost inverse = { λ n. record { 0 = n } };
}

/// A person or an object, numbered from 1.
///
/// For functions that treat persons and objects alike.
pub trait Numbered: Copy {
    ghost number_of: { Self → ℕ };

    /// Its number.
    fn number(self) -> u16
        ensures { result ≡ number_of self };

    /// The person or object with this number.
    fn with_number(number: u16) -> Self
        ensures { number_of result ≡ number };
}

impl Numbered for Person {
    ghost number_of = { λ p. p };

    fn number(self) -> u16 {
        self.0
    }

    fn with_number(number: u16) -> Person {
        Person(number)
    }
}

impl Numbered for Object {
    ghost number_of = { λ o. o };

    fn number(self) -> u16 {
        self.0
    }

    fn with_number(number: u16) -> Object {
        Object(number)
    }
}

impl Person {
    /// The place of this number in a list of persons, from 0.
    pub fn place(self) -> usize
        requires { 0 < self }
        ensures { result ≡ self - 1 }
    {
        self.0 as usize - 1
    }
}

impl Object {
    /// The place of this number in a list of objects, from 0.
    pub fn place(self) -> usize
        requires { 0 < self }
        ensures { result ≡ self - 1 }
    {
        self.0 as usize - 1
    }
}
