// The codes of faults.
ghost use Rattle.std.specs.Prelude.{◌≡◌};
ghost use Rattle.c_calls.specs.Codes.{fault_code, fault_place};

use crate::fault::Fault;

/// The code of a fault.
pub fn code_of(fault: Fault) -> i32
    ensures { result ≡ fault_code fault }
{
    match fault {
        Fault::Sense => 2,
        Fault::Size => 3,
        Fault::Length => 4,
        Fault::Person(_) => 5,
        Fault::Object(_) => 6,
        Fault::Cost(_) => 7,
        Fault::Price(_) => 8,
        Fault::Memory => 9,
    }
}

/// The place that a fault names, or the earlier place if it names none.
pub fn place_of(fault: Fault, before: u64) -> u64
    ensures { result ≡ fault_place before fault }
{
    match fault {
        Fault::Person(place) | Fault::Object(place) | Fault::Cost(place) | Fault::Price(place) =>
            place as u64,
        Fault::Sense | Fault::Size | Fault::Length | Fault::Memory => before,
    }
}
