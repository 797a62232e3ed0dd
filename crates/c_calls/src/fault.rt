// Why a call ends without an answer.
use std::alloc::AllocError;

/// Why a call ends without an answer: the first of these that applies. Places in a list count from
/// 0.
#[derive(Clone, Copy, PartialEq, Eq)]
pub enum Fault {
    /// The number of the sense isn't 0 or 1.
    Sense,
    /// There are no persons, no objects, or more of either than `GREATEST_NUMBER`.
    Size,
    /// The length of a list or a buffer is wrong.
    Length,
    /// The place of the first pair whose person isn't from 1 to n.
    Person(usize),
    /// The place of the first pair whose object isn't from 1 to m.
    Object(usize),
    /// The place of the first cost whose absolute value is above `GREATEST_COST`.
    Cost(usize),
    /// The place of the first first price that isn't from 0 to `GREATEST_PRICE`.
    Price(usize),
    /// Memory was refused.
    Memory,
}

impl From<AllocError> for Fault {
    ghost use Rattle.std.specs.Prelude.{◌≡◌};
    ghost use Rattle.c_calls.specs.declared.fault.Fault.TheVariants.{Memory};

    ghost from_gives = { λ _ fault. fault ≡ Memory };

    fn from(_refused: AllocError) -> Fault {
        Fault::Memory
    }
}
