// Answers of any program, checked against the given problem.
ghost use Rattle.std.specs.Prelude.{◌≡◌, IfErr, IfOk};
ghost use Rattle.exact_checker.specs.HallVerdicts.{IsHallVerdict};
ghost use Rattle.exact_checker.specs.Verdicts.{IsVerdict};
ghost use Rattle.c_calls.specs.lists.Checks.{hall_code, verdict_code, with_hall_verdict, with_verdict};
ghost use Rattle.c_calls.specs.lists.Faults.{HasFault, IsOfInput};

use super::costs::lists_of;
use super::info::Info;
use super::input::Input;
use super::judging::judge;
use crate::fault::Fault;
use cost_lists::{Object, Person, Price};
use exact_checker::{HallVerdict, Verdict, check, check_hall};
use std::alloc::Global;

/// The verdict on these objects and prices. All lists are read where they are. Memory is taken only
/// where each list has its length.
pub fn verdict_on(
    alloc: Global,
    input: &Input<'_>,
    objects: &[Object],
    prices: &[Price],
) -> Result<Verdict, Fault>
    ensures verdict { IfOk result
        (λ v. IsOfInput input.now (λ lists. IsVerdict lists objects.now prices.now v)) }
    ensures fault { IfErr result (HasFault input.now) }
{
    let shape = judge(input)?;
    let lists = lists_of(shape, input);
    let verdict = check(alloc, &lists, objects, prices)?;
    Ok(verdict)
}

/// The verdict on these persons and objects. All lists are read where they are. Memory is taken only
/// where the persons and objects are in range and rise.
pub fn hall_verdict_on(
    alloc: Global,
    input: &Input<'_>,
    persons: &[Person],
    objects: &[Object],
) -> Result<HallVerdict, Fault>
    ensures verdict { IfOk result
        (λ v. IsOfInput input.now (λ lists. IsHallVerdict lists persons.now objects.now v)) }
    ensures fault { IfErr result (HasFault input.now) }
{
    let shape = judge(input)?;
    let lists = lists_of(shape, input);
    let verdict = check_hall(alloc, &lists, persons, objects)?;
    Ok(verdict)
}

/// The code of a verdict. Records what the verdict names.
pub fn report_verdict(verdict: Verdict, info: &mut Info) -> i32
    ensures code { result ≡ verdict_code verdict }
    ensures names { info.new ≡ with_verdict verdict info.old }
{
    match verdict {
        Verdict::Yes => 0,
        Verdict::Length => 10,
        Verdict::Unlisted(person) => {
            info.person = u64::from(person);
            11
        }
        Verdict::Twice(object) => {
            info.object = u64::from(object);
            12
        }
        Verdict::PriceRange(object) => {
            info.object = u64::from(object);
            13
        }
        Verdict::Slack(person, object) => {
            info.person = u64::from(person);
            info.object = u64::from(object);
            14
        }
        Verdict::Overpriced(object) => {
            info.object = u64::from(object);
            20
        }
    }
}

/// The code of a verdict on a Hall set. Records what the verdict names.
pub fn report_hall_verdict(verdict: HallVerdict, info: &mut Info) -> i32
    ensures code { result ≡ hall_code verdict }
    ensures names { info.new ≡ with_hall_verdict verdict info.old }
{
    match verdict {
        HallVerdict::Yes => 1,
        HallVerdict::Range => 15,
        HallVerdict::Order => 16,
        HallVerdict::Missing(person, object) => {
            info.person = u64::from(person);
            info.object = u64::from(object);
            17
        }
        HallVerdict::Extra(object) => {
            info.object = u64::from(object);
            18
        }
        HallVerdict::Count => 19,
    }
}
