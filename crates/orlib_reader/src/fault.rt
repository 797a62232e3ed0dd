// Why a text is refused.
ghost use Rattle.std.specs.Prelude.{◌≡◌};
ghost use Rattle.orlib_reader.specs.declared.fault.InputFault.TheVariants.{Memory, Read};

use std::alloc::AllocError;
use std::{fmt, io};
use thiserror::Error;

/// Why a text is refused. Places are offsets in bytes from 0; a token's place is that of its first
/// byte. `Display` writes one line for the user.
#[derive(Clone, Copy, Debug, PartialEq, Drop, Error)]
pub enum InputFault {
    /// The text has no token.
    Empty,
    /// A token at this place isn't a number, where a number should stand.
    BadToken(u64),
    /// The first number isn't from 1 to 8192.
    Size,
    /// The absolute value of the cost at this place is above 10^12.
    Cost(u64),
    /// The number of a person or an object at this place isn't from 1 to n.
    Index(u64),
    /// The text ends too early, after this many numbers, n included.
    Truncated(u64),
    /// A token at this place follows the last cost.
    Extra(u64),
    /// The text has more than 2^30 bytes, and the first 2^30 have no fault.
    TooLong,
    /// The reader failed, or was interrupted.
    Read,
    /// A growth was refused.
    Memory,
}

impl fmt::Display for InputFault {
    ghost use Rattle.std.specs.Prelude.{Some};
    ghost use Rattle.orlib_reader.specs.FaultText.{fault_text};

    ghost output = { λ fault. Some (fault_text fault) };

    fn fmt<W: fmt::Write>(&self, f: &mut fmt::Formatter<W>) -> fmt::Result {
        match self {
            InputFault::Empty => write!(f, "input: empty"),
            InputFault::BadToken(place) => write!(f, "input: bad number at byte {place}"),
            InputFault::Size => write!(f, "input: size out of range"),
            InputFault::Cost(place) => write!(f, "input: cost out of range at byte {place}"),
            InputFault::Index(place) => write!(f, "input: index out of range at byte {place}"),
            InputFault::Truncated(count) => write!(f, "input: truncated after {count} numbers"),
            InputFault::Extra(place) => write!(f, "input: extra data at byte {place}"),
            InputFault::TooLong => write!(f, "input: longer than 1073741824 bytes"),
            InputFault::Read => write!(f, "device: read failed"),
            InputFault::Memory => write!(f, "memory refused"),
        }
    }
}

impl From<AllocError> for InputFault {
    ghost from_gives = { λ _ fault. fault ≡ Memory };

    fn from(_refused: AllocError) -> InputFault {
        InputFault::Memory
    }
}

impl From<io::Error> for InputFault {
    ghost from_gives = { λ _ fault. fault ≡ Read };

    fn from(_failed: io::Error) -> InputFault {
        InputFault::Read
    }
}
