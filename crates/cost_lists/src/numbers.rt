// Number types and limits.
use assign_core::Cost;

/// A person's number, from 1.
pub type Person = u32;

/// An object's number, from 1.
pub type Object = u32;

/// A price, in the unit of the costs.
pub type Price = i64;

/// The greatest number of a person, and of an object.
pub const GREATEST_NUMBER: u32 = 1 << 22;

/// The greatest price. A cost and a price together fit 64 bits.
pub const GREATEST_PRICE: Price = 9_000_000_000_000_000_000;

/// Stands in a list of own costs for a person that doesn't list its object.
pub const UNLISTED: Cost = i64::MAX;
