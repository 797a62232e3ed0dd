// The calls on problems with counts, as `c/nushbaret.h` declares them.
ghost use Rattle.std.specs.Prelude.{◌≡◌, ◌≢◌, pos};
ghost use Rattle.c_counts.specs.Checks.{Judges, JudgesShortage};
ghost use Rattle.c_counts.specs.Ends.{Solves, buffers};
ghost use Rattle.c_counts.specs.Input.{input_counts};

use c_counts::{CountsInfo, check_input, check_shortage_input, input_of, solve};
use count_search::Record as CountsRecord;
use std::alloc::Global;

/// Solves a problem with counts and groups: its pairs by rising rows, or a cost for each row and each
/// column where no rows and columns of pairs are given.
#[unsafe(no_mangle)]
pub extern "C" fn nushbaret_counts(
    alloc: Global,
    sense: u32,
    of_rows: &[u32],
    of_columns: &[u32],
    costs: &[i64],
    row_least: &[u32],
    row_most: &[u32],
    column_least: &[u32],
    column_most: &[u32],
    groups: &[u32],
    plan: &mut [u8],
    row_numbers: &mut [i64],
    column_numbers: &mut [i64],
    row_marks: &mut [u8],
    column_marks: &mut [u8],
    info: &mut CountsInfo,
) -> i32
    ensures { Solves (input_counts sense of_rows.now of_columns.now costs.now row_least.now row_most.now
        column_least.now column_most.now groups.now) 0
        (buffers plan.old row_numbers.old column_numbers.old row_marks.old column_marks.old info.old)
        (buffers plan.new row_numbers.new column_numbers.new row_marks.new column_marks.new info.new)
        result }
{
    let mut record = CountsRecord::cold();
    nushbaret_counts_from(
        alloc,
        sense,
        of_rows,
        of_columns,
        costs,
        row_least,
        row_most,
        column_least,
        column_most,
        groups,
        plan,
        row_numbers,
        column_numbers,
        row_marks,
        column_marks,
        0,
        &mut record,
        info,
    )
}

/// Solves a problem with counts and groups from a plan and numbers, if the record says so, or goes on
/// where an earlier call stopped. It stops where the budget is spent, if there is one.
#[unsafe(no_mangle)]
pub extern "C" fn nushbaret_counts_from(
    alloc: Global,
    sense: u32,
    of_rows: &[u32],
    of_columns: &[u32],
    costs: &[i64],
    row_least: &[u32],
    row_most: &[u32],
    column_least: &[u32],
    column_most: &[u32],
    groups: &[u32],
    plan: &mut [u8],
    row_numbers: &mut [i64],
    column_numbers: &mut [i64],
    row_marks: &mut [u8],
    column_marks: &mut [u8],
    budget: u64,
    progress: &mut CountsRecord,
    info: &mut CountsInfo,
) -> i32
    ensures solves { Solves (input_counts sense of_rows.now of_columns.now costs.now row_least.now
        row_most.now column_least.now column_most.now groups.now) budget
        (buffers plan.old row_numbers.old column_numbers.old row_marks.old column_marks.old info.old)
        (buffers plan.new row_numbers.new column_numbers.new row_marks.new column_marks.new info.new)
        result }
    ensures progress { result ≢ pos 16 → progress.new ≡ progress.old }
{
    let input = input_of(
        sense,
        of_rows,
        of_columns,
        costs,
        row_least,
        row_most,
        column_least,
        column_most,
        groups,
    );
    solve(
        alloc,
        &input,
        budget,
        plan,
        row_numbers,
        column_numbers,
        row_marks,
        column_marks,
        progress,
        info,
    )
}

/// Checks a plan with numbers of rows and columns.
#[unsafe(no_mangle)]
pub extern "C" fn nushbaret_check_counts(
    alloc: Global,
    sense: u32,
    of_rows: &[u32],
    of_columns: &[u32],
    costs: &[i64],
    row_least: &[u32],
    row_most: &[u32],
    column_least: &[u32],
    column_most: &[u32],
    groups: &[u32],
    plan: &[u8],
    row_numbers: &[i64],
    column_numbers: &[i64],
    info: &mut CountsInfo,
) -> i32
    ensures { Judges (input_counts sense of_rows.now of_columns.now costs.now row_least.now row_most.now
        column_least.now column_most.now groups.now)
        plan.now row_numbers.now column_numbers.now info.old info.new result }
{
    let input = input_of(
        sense,
        of_rows,
        of_columns,
        costs,
        row_least,
        row_most,
        column_least,
        column_most,
        groups,
    );
    check_input(alloc, &input, plan, row_numbers, column_numbers, info)
}

/// Checks marked rows and columns that are to show that there is no plan; the side is the code of rows,
/// or columns, that lack.
#[unsafe(no_mangle)]
pub extern "C" fn nushbaret_check_shortage(
    alloc: Global,
    sense: u32,
    of_rows: &[u32],
    of_columns: &[u32],
    costs: &[i64],
    row_least: &[u32],
    row_most: &[u32],
    column_least: &[u32],
    column_most: &[u32],
    groups: &[u32],
    side: u32,
    row_marks: &[u8],
    column_marks: &[u8],
    info: &mut CountsInfo,
) -> i32
    ensures { JudgesShortage (input_counts sense of_rows.now of_columns.now costs.now row_least.now
        row_most.now column_least.now column_most.now groups.now)
        side row_marks.now column_marks.now info.old info.new result }
{
    let input = input_of(
        sense,
        of_rows,
        of_columns,
        costs,
        row_least,
        row_most,
        column_least,
        column_most,
        groups,
    );
    check_shortage_input(alloc, &input, side, row_marks, column_marks, info)
}
