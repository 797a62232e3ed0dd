// Plans and shortages of any origin, checked against the given problem.
ghost use Rattle.std.specs.Prelude.{◌≡◌, Some, IfErr, IfOk, OnOk};
ghost use Rattle.count_checker.specs.CountFaults.{IsCountVerdict};
ghost use Rattle.count_checker.specs.CountLists.{problem_in};
ghost use Rattle.count_checker.specs.Shortages.{IsShortageVerdict};
ghost use Rattle.c_counts.specs.Answers.{marks_of};
ghost use Rattle.c_counts.specs.Checks.{HasProblemFault, Judges, JudgesShortage, shortage_code, side_of, verdict_code, with_verdict};
ghost use Rattle.c_counts.specs.Input.{HasDense, IsOfInput, sense_of};

use crate::end::refuse;
use crate::fault::Fault;
use crate::info::CountsInfo;
use crate::input::Input;
use crate::judge::{is_shaped, sense_by};
use crate::written::{lists_of, written_of};
use assign_core::Sense;
use count_checker::{
    CheckedLists, CountVerdict, Marks, ShortageVerdict, Side, check, check_shortage,
};
use std::alloc::Global;

// The sense of a problem that has its pairs, or else the first fault.
fn sense_in(input: &Input<'_>) -> Result<Sense, Fault>
    ensures sense { IfOk result (λ s. sense_of input.now.sense ≡ Some s) }
    ensures dense { OnOk result (HasDense input.now) }
    ensures fault { IfErr result (HasProblemFault input.now) }
{
    let Some(sense) = sense_by(input.sense) else {
        return Err(Fault::Sense);
    };
    if !is_shaped(input) {
        return Err(Fault::Dense);
    }
    Ok(sense)
}

// The verdict on a plan with numbers.
fn verdict_on(
    alloc: Global,
    input: &Input<'_>,
    plan: &[u8],
    row_numbers: &[i64],
    column_numbers: &[i64],
) -> Result<CountVerdict, Fault>
    ensures verdict { IfOk result (λ v. IsOfInput input.now
        (λ l. IsCountVerdict l (marks_of plan.now) row_numbers.now column_numbers.now v)) }
    ensures fault { IfErr result (HasProblemFault input.now) }
{
    let sense = sense_in(input)?;
    let written = written_of(alloc, input)?;
    let lists = lists_of(input, sense, &written);
    let problem = CheckedLists::of(lists)?;
    let marks = Marks::of(plan);
    let verdict = check(alloc, &problem, &marks, row_numbers, column_numbers)?;
    Ok(verdict)
}

// The verdict on marks of rows and columns.
fn shortage_verdict_on(
    alloc: Global,
    input: &Input<'_>,
    side: Side,
    rows: &[u8],
    columns: &[u8],
) -> Result<ShortageVerdict, Fault>
    ensures verdict { IfOk result (λ v. IsOfInput input.now
        (λ l. IsShortageVerdict (problem_in l) side (marks_of rows.now) (marks_of columns.now) v)) }
    ensures fault { IfErr result (HasProblemFault input.now) }
{
    let sense = sense_in(input)?;
    let written = written_of(alloc, input)?;
    let lists = lists_of(input, sense, &written);
    let problem = CheckedLists::of(lists)?;
    let (rows, columns) = (Marks::of(rows), Marks::of(columns));
    let verdict = check_shortage(alloc, &problem, side, &rows, &columns)?;
    Ok(verdict)
}

// The code of a verdict. Records what the verdict names.
fn report(verdict: CountVerdict, info: &mut CountsInfo) -> i32
    ensures code { result ≡ verdict_code verdict }
    ensures names { info.new ≡ with_verdict verdict info.old }
{
    match verdict {
        CountVerdict::Yes => 0,
        CountVerdict::Length => 18,
        CountVerdict::Twice(place) => {
            info.place = place as u64;
            19
        }
        CountVerdict::Row(row) => {
            info.row = row as u64;
            20
        }
        CountVerdict::Column(column) => {
            info.column = column as u64;
            21
        }
        CountVerdict::Pair(place) => {
            info.place = place as u64;
            22
        }
    }
}

// The code of a verdict on a shortage.
fn shortage_code(side: Side, verdict: ShortageVerdict) -> i32
    ensures { result ≡ shortage_code side verdict }
{
    match verdict {
        ShortageVerdict::Length => 23,
        ShortageVerdict::Enough => 24,
        ShortageVerdict::Yes => match side {
            Side::Rows => 1,
            Side::Columns => 2,
        },
    }
}

/// The code of the verdict on a plan with numbers, or of the first fault of the given problem.
pub fn check_input(
    alloc: Global,
    input: &Input<'_>,
    plan: &[u8],
    row_numbers: &[i64],
    column_numbers: &[i64],
    info: &mut CountsInfo,
) -> i32
    ensures { Judges input.now plan.now row_numbers.now column_numbers.now info.old info.new result }
{
    match verdict_on(alloc, input, plan, row_numbers, column_numbers) {
        Ok(verdict) => report(verdict, info),
        Err(fault) => refuse(fault, info),
    }
}

// The side with this number.
fn side_by(number: u32) -> Option<Side>
    ensures { result ≡ side_of number }
{
    match number {
        1 => Some(Side::Rows),
        2 => Some(Side::Columns),
        _ => None,
    }
}

/// The code of the verdict on marks of rows and columns, or of the first fault. The side is the code
/// of rows, or columns, that lack.
pub fn check_shortage_input(
    alloc: Global,
    input: &Input<'_>,
    side: u32,
    rows: &[u8],
    columns: &[u8],
    info: &mut CountsInfo,
) -> i32
    ensures { JudgesShortage input.now side rows.now columns.now info.old info.new result }
{
    let Some(side) = side_by(side) else {
        return 25;
    };
    match shortage_verdict_on(alloc, input, side, rows, columns) {
        Ok(verdict) => shortage_code(side, verdict),
        Err(fault) => refuse(fault, info),
    }
}
