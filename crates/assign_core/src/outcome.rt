// How a run ends.
use super::certificate::Certificate;
use super::hall::HallSet;
use super::numbers::{Object, Person};
use std::alloc::AllocError;

/// The result of a run: an assignment with prices that prove it optimal, or a Hall set, which
/// proves that no assignment exists.
#[derive(Drop)]
pub enum Outcome {
    Best(Certificate),
    Hall(HallSet),
}

/// Why a run ends without an answer.
#[derive(Drop)]
pub enum SolveFault {
    /// Memory was refused.
    Memory,
    /// A person below the floor, with an alternating path to an unowned object.
    Stuck(Person, Vec<Object>),
}

impl From<AllocError> for SolveFault {
    ghost use Rattle.std.specs.Prelude.{◌≡◌};
    ghost use Rattle.assign_core.specs.declared.outcome.SolveFault.TheVariants.{Memory};

    ghost from_gives = { λ _ fault. fault ≡ Memory };

    fn from(_refused: AllocError) -> SolveFault {
        SolveFault::Memory
    }
}
