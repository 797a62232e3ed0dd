// From given lists to an answer in the caller's buffers.
ghost use Rattle.std.specs.Prelude.{◌≡◌, ◌≢◌, ℕ, ℤ, List, Some, IfErr, IfOk, pos, if◌then◌else◌};
ghost use Rattle.count_checker.specs.declared.lists.CountLists.{CountLists};
ghost use Rattle.c_counts.specs.Answers.{IsAnswer};
ghost use Rattle.c_counts.specs.Ends.{HasFault, HoldsEnd, IsLack, IsSearchFault, Solves, buffers};
ghost use Rattle.c_counts.specs.Input.{HasDense, IsOfInput, sense_of};
ghost use Rattle.c_counts.specs.Outputs.{buffers_of};
ghost use Rattle.c_counts.specs.declared.info.CountsInfo.{CountsInfo};

use crate::end::{End, code_of_end, refuse};
use crate::fault::Fault;
use crate::info::{CountsInfo, record_sum};
use crate::input::Input;
use crate::judge::{Outputs, judge};
use crate::search::{Answer, answer_on, start_of};
use crate::written::{lists_of, written_of};
use assign_core::Sense;
use count_checker::CheckedLists;
use count_search::Record;
use std::alloc::Global;

// Searches on from where an answer stands. An error is the first fault of the lists.
fn answer_input(
    alloc: Global,
    input: &Input<'_>,
    sense: Sense,
    start: Answer,
    budget: u64,
) -> Result<Answer, Fault>
    requires sense { sense_of input.now.sense ≡ Some sense }
    requires dense { HasDense input.now }
    ensures answer { IfOk result (λ a. IsOfInput input.now (λ l. IsAnswer l budget a)) }
    ensures fault { IfErr result (IsSearchFault input.now) }
{
    let written = written_of(alloc, input)?;
    let lists = lists_of(input, sense, &written);
    let problem = CheckedLists::of(lists)?;
    let answer = answer_on(alloc, &problem, start, budget)?;
    Ok(answer)
}

// Writes a plan and numbers, if they have the lengths of the buffers; says whether they have.
fn put_plan(
    answer: &Answer,
    plan: &mut [u8],
    row_numbers: &mut [i64],
    column_numbers: &mut [i64],
) -> bool
    ensures plan { plan.new ≡ (if result then answer.now.plan.items else plan.old) }
    ensures rows { row_numbers.new ≡ (if result then answer.now.row_numbers.items else row_numbers.old) }
    ensures columns { column_numbers.new
        ≡ (if result then answer.now.column_numbers.items else column_numbers.old) }
{
    if answer.plan.len() != plan.len()
        || answer.row_numbers.len() != row_numbers.len()
        || answer.column_numbers.len() != column_numbers.len()
    {
        return false;
    }
    plan.copy_from_slice(answer.plan.as_slice());
    row_numbers.copy_from_slice(answer.row_numbers.as_slice());
    column_numbers.copy_from_slice(answer.column_numbers.as_slice());
    true
}

// Writes marks, if they have the lengths of the buffers; says whether they have.
fn put_marks(answer: &Answer, row_marks: &mut [u8], column_marks: &mut [u8]) -> bool
    ensures rows { row_marks.new ≡ (if result then answer.now.row_marks.items else row_marks.old) }
    ensures columns { column_marks.new
        ≡ (if result then answer.now.column_marks.items else column_marks.old) }
{
    if answer.row_marks.len() != row_marks.len()
        || answer.column_marks.len() != column_marks.len()
    {
        return false;
    }
    row_marks.copy_from_slice(answer.row_marks.as_slice());
    column_marks.copy_from_slice(answer.column_marks.as_slice());
    true
}

// Writes a best plan.
fn put_best(
    answer: &Answer,
    plan: &mut [u8],
    row_numbers: &mut [i64],
    column_numbers: &mut [i64],
    info: &mut CountsInfo,
) -> End
    requires { answer.now.end ≡ End.Best }
    ensures { (l : CountLists) (budget : ℕ) (row_marks column_marks : List ℕ) → IsAnswer l budget answer.now
        → HoldsEnd l budget
        (buffers plan.old row_numbers.old column_numbers.old row_marks column_marks info.old)
        (buffers plan.new row_numbers.new column_numbers.new row_marks column_marks info.new) result }
{
    if !put_plan(answer, plan, row_numbers, column_numbers) {
        return End::Undecided;
    }
    record_sum(info, answer.sum);
    End::Best
}

// Writes a shortage.
fn put_shortage(answer: &Answer, row_marks: &mut [u8], column_marks: &mut [u8]) -> End
    requires { IsLack answer.now.end }
    ensures { (l : CountLists) (budget : ℕ) (plan : List ℕ) (row_numbers column_numbers : List ℤ)
        (info : CountsInfo) → IsAnswer l budget answer.now → HoldsEnd l budget
        (buffers plan row_numbers column_numbers row_marks.old column_marks.old info)
        (buffers plan row_numbers column_numbers row_marks.new column_marks.new info) result }
{
    if put_marks(answer, row_marks, column_marks) {
        answer.end
    } else {
        End::Undecided
    }
}

// Writes where a search stands.
fn put_state(
    answer: &Answer,
    plan: &mut [u8],
    row_numbers: &mut [i64],
    column_numbers: &mut [i64],
) -> End
    requires { answer.now.end ≡ End.Stopped }
    ensures { (l : CountLists) (budget : ℕ) (row_marks column_marks : List ℕ) (info : CountsInfo)
        → IsAnswer l budget answer.now → HoldsEnd l budget
        (buffers plan.old row_numbers.old column_numbers.old row_marks column_marks info)
        (buffers plan.new row_numbers.new column_numbers.new row_marks column_marks info) result }
{
    if put_plan(answer, plan, row_numbers, column_numbers) {
        End::Stopped
    } else {
        End::Undecided
    }
}

// Writes an answer into the buffers.
fn put_answer(
    answer: &Answer,
    plan: &mut [u8],
    row_numbers: &mut [i64],
    column_numbers: &mut [i64],
    row_marks: &mut [u8],
    column_marks: &mut [u8],
    info: &mut CountsInfo,
) -> End
    ensures { (l : CountLists) (budget : ℕ) → IsAnswer l budget answer.now → HoldsEnd l budget
        (buffers plan.old row_numbers.old column_numbers.old row_marks.old column_marks.old info.old)
        (buffers plan.new row_numbers.new column_numbers.new row_marks.new column_marks.new info.new)
        result }
{
    match answer.end {
        End::Best => put_best(answer, plan, row_numbers, column_numbers, info),
        End::Stopped => put_state(answer, plan, row_numbers, column_numbers),
        End::RowsLack | End::ColumnsLack => put_shortage(answer, row_marks, column_marks),
        End::Undecided => End::Undecided,
    }
}

// The answer, or the first fault.
fn solved(
    alloc: Global,
    input: &Input<'_>,
    budget: u64,
    outputs: Outputs<'_>,
    record: Record,
) -> Result<Answer, Fault>
    ensures answer { IfOk result (λ a. IsOfInput input.now (λ l. IsAnswer l budget a)) }
    ensures fault { IfErr result (HasFault input.now (buffers_of outputs.entry)) }
{
    let sense = judge(input, outputs)?;
    let start = start_of(
        alloc,
        outputs.plan,
        outputs.row_numbers,
        outputs.column_numbers,
        record,
    )?;
    let answer = answer_input(alloc, input, sense, start, budget)?;
    Ok(answer)
}

/// Solves the given problem, from the plan and the numbers in the buffers if the record says so, and
/// stops where a budget is spent (0: there is none). Writes the answer into the buffers, and returns its
/// code. Whatever the buffers and the record hold, the answer is as good.
pub fn solve(
    alloc: Global,
    input: &Input<'_>,
    budget: u64,
    plan: &mut [u8],
    row_numbers: &mut [i64],
    column_numbers: &mut [i64],
    row_marks: &mut [u8],
    column_marks: &mut [u8],
    progress: &mut Record,
    info: &mut CountsInfo,
) -> i32
    ensures solves { Solves input.now budget
        (buffers plan.old row_numbers.old column_numbers.old row_marks.old column_marks.old info.old)
        (buffers plan.new row_numbers.new column_numbers.new row_marks.new column_marks.new info.new)
        result }
    ensures progress { result ≢ pos 16 → progress.new ≡ progress.old }
{
    let outputs = Outputs {
        plan,
        row_numbers,
        column_numbers,
        row_marks,
        column_marks,
        info,
    };
    let answer = match solved(alloc, input, budget, outputs, *progress) {
        Ok(answer) => answer,
        Err(fault) => return refuse(fault, info),
    };
    let end = put_answer(
        &answer,
        plan,
        row_numbers,
        column_numbers,
        row_marks,
        column_marks,
        info,
    );
    if end == End::Stopped {
        *progress = answer.record;
    }
    code_of_end(end)
}
