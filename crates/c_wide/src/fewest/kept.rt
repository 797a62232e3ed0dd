// Kept objects: whether they are in range, and how many of them a plan changes.
ghost use Rattle.std.specs.Prelude.{◌≡◌, ◌≤◌, length, IfErr, IfOk, MatchOption, OnOk};
ghost use Rattle.c_calls.specs.lists.Faults.{HasFault, IsFirstWithout, IsWhole};
ghost use Rattle.c_calls.specs.lists.Shapes.{IsShape};
ghost use Rattle.c_wide.specs.fewest.Changes.{change, changes};
ghost use Rattle.c_wide.specs.fewest.Combined.{AreKept};
ghost use Rattle.c_wide.specs.fewest.Ends.{HasRefusal, refusal_code, with_refusal};

use c_calls::lists::{Info, Input, judge, refuse};
use c_calls::{Fault, Shape};
use cost_lists::Object;

/// Why a call ends without an answer.
#[derive(Clone, Copy)]
pub enum Refusal {
    /// The first fault of the problem, or refused memory.
    Given(Fault),
    /// The first place of a kept object above the number of objects.
    Beyond(usize),
}

// The first place of an object above `m`.
fn first_beyond(m: usize, kept: &[Object]) -> Option<usize>
    ensures { MatchOption result (AreKept m kept.now) (IsFirstWithout (λ j. j ≤ m) kept.now) }
{
    for i in 0..kept.len() {
        if kept[i] as usize > m {
            return Some(i);
        }
    }
    None
}

// The refusal of a problem with a fault: memory comes after the kept objects.
fn refusal_of(fault: Fault, input: &Input<'_>, kept: &[Object]) -> Refusal
    requires { HasFault input.now fault }
    ensures { HasRefusal input.now kept.now result }
{
    match fault {
        Fault::Memory => match first_beyond(input.m, kept) {
            Some(place) => Refusal::Beyond(place),
            None => Refusal::Given(Fault::Memory),
        },
        _ => Refusal::Given(fault),
    }
}

/// The sense and the size if the problem has no fault and each kept object is in range, or else the refusal.
pub fn judge_kept(input: &Input<'_>, kept: &[Object]) -> Result<Shape, Refusal>
    ensures shape { IfOk result (IsShape input.now) }
    ensures whole { OnOk result (IsWhole input.now) }
    ensures kept { OnOk result (AreKept input.now.m kept.now) }
    ensures refusal { IfErr result (HasRefusal input.now kept.now) }
{
    match judge(input) {
        Ok(shape) => match first_beyond(input.m, kept) {
            Some(place) => Err(Refusal::Beyond(place)),
            None => Ok(shape),
        },
        Err(fault) => Err(refusal_of(fault, input, kept)),
    }
}

/// The code of a refusal. Records what it names.
pub fn refuse_kept(refusal: Refusal, info: &mut Info) -> i32
    ensures code { result ≡ refusal_code refusal }
    ensures names { info.new ≡ with_refusal refusal info.old }
{
    match refusal {
        Refusal::Given(fault) => refuse(fault, info),
        Refusal::Beyond(place) => {
            info.place = place as u64;
            11
        }
    }
}

/// 1 if a person has another object than the kept one, otherwise 0.
pub fn change_of(kept: Object, object: Object) -> u32
    ensures value { result ≡ change kept object }
    ensures few { result ≤ 1 }
{
    if kept == object { 0 } else { 1 }
}

/// How many persons have another object than the kept one.
pub fn changes_of(kept: &[Object], objects: &[Object]) -> usize
    requires { length kept.now ≡ length objects.now }
    ensures { result ≡ changes kept.now objects.now }
{
    let mut count = 0;
    for i in 0..kept.len() {
        count += change_of(kept[i], objects[i]) as usize;
    }
    count
}
