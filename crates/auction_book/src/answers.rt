// The answers of a book.
use assign_core::{Person, Price};
use bidder::Ask;
use std::alloc::AllocError;

/// A bid was accepted.
#[derive(Clone, Copy, PartialEq, Eq)]
pub struct Accepted {
    /// The previous owner of the object.
    pub evicted: Option<Person>,
}

/// A bid or a notice below the floor was refused.
#[derive(Clone, Copy, PartialEq, Eq)]
pub enum Refused {
    /// The worker doesn't hold the person's claim.
    NotClaimed,
    /// The bid or notice names another phase than the book's.
    WrongPhase,
    /// The bid's level is less than eps above this price, the object's current one.
    TooLow(Price),
    /// Memory was refused.
    Memory,
}

/// The result of a worker's offer.
#[derive(Clone, Copy, PartialEq, Eq)]
pub enum Note {
    /// There was no bid.
    Nothing,
    /// A bid was accepted.
    Accepted,
    /// A bid was refused.
    Refused(Refused),
}

/// The result of a worker's offer, and whether memory was refused.
#[must_use]
#[derive(Drop)]
pub struct Submission {
    pub note: Note,
    /// An error if memory was refused.
    pub outcome: Result<(), AllocError>,
}

/// The answer to a worker that asks for a person.
#[derive(Clone, Copy, PartialEq, Eq)]
pub enum Claim {
    /// A Hall set is recorded, so no assignment exists.
    Refuted,
    /// Everybody is assigned in the last phase.
    Done,
    /// The auction was stopped.
    Stopped,
    /// The front of the queue, now claimed, and what the phase asks of its bid.
    Person(Person, Ask),
    /// No person waits.
    Wait,
}
