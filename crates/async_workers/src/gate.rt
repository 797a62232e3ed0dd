// The answer of a turn, and the callbacks for its steps.
pub use assign_core::SolveFault as TurnFault;
use auction_book::Note;

/// The answer of a turn without a fault.
#[derive(Clone, Copy, PartialEq, Eq)]
pub enum Turn {
    /// The worker claimed a person, whose offer is prepared.
    Claimed,
    /// No person waits.
    Idle,
    /// Everybody is assigned in the last phase.
    Done,
    /// A Hall set is recorded, so no assignment exists.
    Refuted,
    /// The auction was stopped.
    Stopped,
}

/// How far a run is, by the book as a worker left it. The fields are the book's own answers. No
/// contract says what a gate receives.
#[derive(Clone, Copy, PartialEq, Eq)]
pub struct Standing {
    /// The phase, from 1.
    pub phase: u16,
    /// The slackness of the phase, at least 1, in the unit of benefits.
    pub eps: i64,
    /// The number of persons who own an object.
    pub assigned: u16,
    /// The number of bids of all workers accepted since the opening.
    pub accepted: u128,
}

/// Callbacks for the steps of a worker's turn. The worker doesn't have the book during any of them.
pub trait Gate {
    /// Called before the offer of the worker's claimed person is computed.
    fn before_offer(&self, worker: u16);

    /// Called before the worker takes the book to submit its offer, with its number of past
    /// sessions.
    fn before_submit(&self, worker: u16, turns: u64);

    /// Called after the worker has put the book back, with the result of its bid.
    fn after_session(&self, worker: u16, note: Note);

    /// Called after `after_session`, with the worker's number of past sessions and the state of the
    /// run when it put the book back. Other workers may have changed the book since. Does nothing
    /// by default.
    fn after_standing(&self, _worker: u16, _sessions: u64, _standing: Standing) {}
}

/// A gate that does nothing.
pub struct OpenGate;

impl Gate for OpenGate {
    fn before_offer(&self, _worker: u16) {}

    fn before_submit(&self, _worker: u16, _turns: u64) {}

    fn after_session(&self, _worker: u16, _note: Note) {}
}
