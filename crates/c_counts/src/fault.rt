// Why a call ends without an answer.
use count_checker::ListFault;
use std::alloc::AllocError;

/// Why a call ends without an answer: the first of these that applies, but memory may be refused
/// before the lists are judged.
#[derive(Clone, Copy, PartialEq, Eq)]
pub enum Fault {
    /// The number of the sense isn't 0 or 1.
    Sense,
    /// There are no listed pairs, and not as many costs as rows times columns.
    Dense,
    /// The length of a buffer is wrong.
    Buffer,
    /// The lists are no problem.
    List(ListFault),
    /// Memory was refused.
    Memory,
}

impl From<AllocError> for Fault {
    ghost use Rattle.std.specs.Prelude.{◌≡◌};
    ghost use Rattle.c_counts.specs.declared.fault.Fault.TheVariants.{Memory};

    ghost from_gives = { λ _ fault. fault ≡ Memory };

    fn from(_refused: AllocError) -> Fault {
        Fault::Memory
    }
}

impl From<ListFault> for Fault {
    ghost use Rattle.std.specs.Prelude.{◌≡◌};
    ghost use Rattle.c_counts.specs.declared.fault.Fault.TheVariants.{List};

    ghost from_gives = { λ fault all. all ≡ List fault };

    fn from(fault: ListFault) -> Fault {
        Fault::List(fault)
    }
}
