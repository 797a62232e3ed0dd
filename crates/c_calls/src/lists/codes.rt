// The codes of all ends of a solving call.
ghost use Rattle.std.specs.Prelude.{◌≡◌, Ok};
ghost use Rattle.c_calls.specs.Codes.{fault_code, fault_place};
ghost use Rattle.c_calls.specs.lists.Ends.{end_code};

use super::info::Info;
use crate::codes::{code_of, place_of};
use crate::fault::Fault;
use list_solver::Found;

/// The code of what a search found.
pub fn code_of_found(found: &Found) -> i32
    ensures { result ≡ end_code (Ok found.now) }
{
    match found {
        Found::Best(_) => 0,
        Found::Hall(_) => 1,
        Found::Stopped => 21,
    }
}

/// The code of a fault. Records its place, if it has one.
pub fn refuse(fault: Fault, info: &mut Info) -> i32
    ensures code { result ≡ fault_code fault }
    ensures place { info.new ≡ record info.old { place = fault_place info.old.place fault } }
{
    info.place = place_of(fault, info.place);
    code_of(fault)
}
