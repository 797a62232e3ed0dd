// The codes of all ends of a solving call.
ghost use Rattle.std.specs.Prelude.{◌≡◌, Ok};
ghost use Rattle.c_calls.specs.Codes.{fault_code, fault_place};
ghost use Rattle.c_calls.specs.doubles.Ends.{end_code};

use super::answer::Answer;
use super::info::DoublesInfo;
use crate::codes::{code_of, place_of};
use crate::fault::Fault;

/// The code of an answer.
pub fn code_of_answer(answer: &Answer) -> i32
    ensures { result ≡ end_code (Ok answer.now) }
{
    match answer {
        Answer::Best(_) => 0,
        Answer::Hall(_) => 1,
        Answer::Undecided => 23,
    }
}

/// The code of a fault. Records its place, if it has one.
pub fn refuse(fault: Fault, info: &mut DoublesInfo) -> i32
    ensures code { result ≡ fault_code fault }
    ensures place { info.new ≡ record info.old { place = fault_place info.old.place fault } }
{
    info.place = place_of(fault, info.place);
    code_of(fault)
}
