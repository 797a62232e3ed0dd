// The checker of shortages.
ghost use Rattle.std.specs.Prelude.{◌≡◌, ◌↔◌, ◌+◌, ◌*◌, ◌<◌, ◌≤◌, ◌^◌, ℕ, List, Bool, IsTrue, length, filter, true, false, nat_lt, slice_index_or, IfOk};
ghost use Rattle.count_checker.specs.Counts.{IsPlan, chosen};
ghost use Rattle.count_checker.specs.CountSets.{apart_count, marked_sum};
ghost use Rattle.count_checker.specs.CountFaults.{IsChosen};
ghost use Rattle.count_checker.specs.CountLists.{AreCountLists, pair_at, problem_in};
ghost use Rattle.count_checker.specs.Shortages.{AreLongMarks, IsShortage, IsShortageVerdict, is_outside, need_of, room_of};
ghost use Rattle.count_checker.specs.inside.Holders.{AreOutside, IsHolding, HasHeldRival};

use super::checked::CheckedLists;
use super::holders::{hold, rival};
use super::lists::CountLists;
use super::marks::Marks;
use cost_lists::GREATEST_NUMBER;
use std::alloc::{AllocError, Global};

/// Which side lacks.
#[derive(Clone, Copy, Debug, PartialEq, Eq)]
pub enum Side {
    /// The marked rows need more than the marked columns may take and other columns can give.
    Rows,
    /// The marked columns need more than the marked rows may take and other rows can give.
    Columns,
}

/// What a check of a shortage finds: the first of these that applies.
#[derive(Clone, Copy, Debug, PartialEq, Eq)]
pub enum ShortageVerdict {
    /// There isn't a mark for each row and each column.
    Length,
    /// What the marked ones need is there.
    Enough,
    /// It is a shortage: no plan exists.
    Yes,
}

// The sum of the marked numbers.
fn sum_marked(marks: &Marks<'_>, numbers: &[u32]) -> u64
    requires long { length marks.now ≡ length numbers.now }
    requires few { length numbers.now ≤ GREATEST_NUMBER }
    ensures sum { result ≡ marked_sum marks.now numbers.now }
    ensures small { result ≤ GREATEST_NUMBER * 2 ^ 32 }
{
    let mut sum = 0;
    for k in 0..numbers.len() {
        if marks.has(k) {
            sum += u64::from(numbers[k]);
        }
    }
    sum
}

// Whether the pair at a place is of the marked ones on one side and of none on the other.
fn is_outside(
    lists: CountLists<'_>,
    side: Side,
    rows: &Marks<'_>,
    columns: &Marks<'_>,
    place: usize,
) -> bool
    requires lists { AreCountLists lists }
    requires rows { length rows.now ≡ length lists.row_least.now }
    requires columns { length columns.now ≡ length lists.column_least.now }
    requires place { place < length lists.rows.now }
    ensures { result ≡ is_outside side rows.now columns.now (pair_at lists.entry place) }
{
    let row = rows.has(lists.rows[place] as usize - 1);
    let column = columns.has(lists.columns[place] as usize - 1);
    match side {
        Side::Rows => row && !column,
        Side::Columns => column && !row,
    }
}

// Sets a byte for each pair that is of the marked ones on one side and of none on the other.
fn set_outside(
    bytes: &mut [u8],
    lists: CountLists<'_>,
    side: Side,
    rows: &Marks<'_>,
    columns: &Marks<'_>,
)
    requires lists { AreCountLists lists }
    requires rows { length rows.now ≡ length lists.row_least.now }
    requires columns { length columns.now ≡ length lists.column_least.now }
    requires bytes { length bytes.old ≡ length lists.rows.now }
    ensures { AreOutside lists.entry side rows.now columns.now bytes.new }
{
    for place in 0..lists.rows.len() {
        bytes[place] = u8::from(is_outside(lists, side, rows, columns, place));
    }
}

// Whether the pair at a place is marked and has no marked rival before it.
fn is_apart(holders: &[usize], lists: CountLists<'_>, marks: &Marks<'_>, place: usize) -> bool
    requires lists { AreCountLists lists }
    requires marks { length marks.now ≡ length lists.rows.now }
    requires place { place < length lists.rows.now }
    requires holding { IsHolding lists marks.now place holders.now }
    ensures yes { result ≡ true → IsChosen marks.now place × (¬ HasHeldRival lists.entry marks.now place) }
    ensures no { result ≡ false → IsChosen marks.now place → HasHeldRival lists.entry marks.now place }
{
    if !marks.has(place) {
        return false;
    }
    match rival(holders, lists, marks, place, place) {
        Some(_held) => false,
        None => true,
    }
}

// How many marked pairs there are, where rivals count once.
fn count_apart(holders: &mut [usize], lists: CountLists<'_>, marks: &Marks<'_>) -> usize
    requires lists { AreCountLists lists }
    requires marks { length marks.now ≡ length lists.rows.now }
    requires holding { IsHolding lists marks.now 0 holders.old }
    ensures count { result ≡ apart_count lists.entry.groups.now
        (chosen (problem_in lists.entry).pairs marks.now) }
    ensures few { result ≤ length lists.entry.rows.now }
{
    let mut count = 0;
    for place in 0..lists.rows.len() {
        if is_apart(holders, lists, marks, place) {
            count += 1;
        }
        hold(holders, lists, marks, place);
    }
    count
}

// The bytes of all pairs: 1 for one that is of the marked ones on one side and of none on the other.
fn outside_bytes(
    alloc: Global,
    lists: CountLists<'_>,
    side: Side,
    rows: &Marks<'_>,
    columns: &Marks<'_>,
) -> Result<Vec<u8>, AllocError>
    requires lists { AreCountLists lists }
    requires rows { length rows.now ≡ length lists.row_least.now }
    requires columns { length columns.now ≡ length lists.column_least.now }
    ensures { IfOk result (λ b. AreOutside lists.entry side rows.now columns.now b.items) }
{
    let mut bytes = vec![in alloc; 0u8; lists.rows.len()]?;
    set_outside(bytes.as_mut_slice(), lists, side, rows, columns);
    Ok(bytes)
}

// How many pairs of the marked ones on one side are of none on the other, where rivals count once.
#[tactic(auto, using(crate::proofs::Fresh::fresh))]
fn apart_outside(
    alloc: Global,
    lists: CountLists<'_>,
    side: Side,
    rows: &Marks<'_>,
    columns: &Marks<'_>,
) -> Result<usize, AllocError>
    requires lists { AreCountLists lists }
    requires rows { length rows.now ≡ length lists.row_least.now }
    requires columns { length columns.now ≡ length lists.column_least.now }
    ensures count { let l = lists.entry in IfOk result (λ count. count ≡ apart_count l.groups.now
        (filter (is_outside side rows.now columns.now) (problem_in l).pairs)) }
    ensures few { IfOk result (λ count. count ≤ length lists.entry.rows.now) }
{
    let bytes = outside_bytes(alloc, lists, side, rows, columns)?;
    let marks = Marks::of(bytes.as_slice());
    let mut holders = vec![in alloc; 0usize; 2 * lists.groups.len() + 1]?;
    Ok(count_apart(holders.as_mut_slice(), lists, &marks))
}

// Whether the marked ones need more than there is, by the pairs outside.
fn is_short(
    lists: CountLists<'_>,
    side: Side,
    rows: &Marks<'_>,
    columns: &Marks<'_>,
    apart: usize,
) -> bool
    requires lists { AreCountLists lists }
    requires rows { length rows.now ≡ length lists.row_least.now }
    requires columns { length columns.now ≡ length lists.column_least.now }
    requires few { apart ≤ length lists.rows.now }
    ensures { let p = problem_in lists.entry in result
        ≡ nat_lt (room_of side p rows.now columns.now + apart) (need_of side p rows.now columns.now) }
{
    match side {
        Side::Rows => {
            let room = sum_marked(columns, lists.column_most);
            room + (apart as u64) < sum_marked(rows, lists.row_least)
        }
        Side::Columns => {
            let room = sum_marked(rows, lists.row_most);
            room + (apart as u64) < sum_marked(columns, lists.column_least)
        }
    }
}

// Whether there is a mark for each row and each column.
fn have_marks(lists: CountLists<'_>, rows: &Marks<'_>, columns: &Marks<'_>) -> bool
    ensures { IsTrue result ↔ AreLongMarks (problem_in lists.entry) rows.now columns.now }
{
    rows.len() == lists.row_least.len() && columns.len() == lists.column_least.len()
}

// The verdict on marks of the right numbers.
fn judge_marks(
    alloc: Global,
    lists: CountLists<'_>,
    side: Side,
    rows: &Marks<'_>,
    columns: &Marks<'_>,
) -> Result<ShortageVerdict, AllocError>
    requires lists { AreCountLists lists }
    requires long { AreLongMarks (problem_in lists) rows.now columns.now }
    ensures { IfOk result (λ v. IsShortageVerdict (problem_in lists.entry) side rows.now columns.now v) }
{
    let apart = apart_outside(alloc, lists, side, rows, columns)?;
    if is_short(lists, side, rows, columns, apart) {
        Ok(ShortageVerdict::Yes)
    } else {
        Ok(ShortageVerdict::Enough)
    }
}

/// Whether the marked rows and columns are a shortage; if not, why.
///
/// Rows lack where the sum of the least counts of the marked rows is above the sum of the greatest
/// counts of the marked columns and, for each marked row, the number of groups that it lists outside of
/// them (a column without a group is a group of its own). Columns lack where the sum of the least
/// counts of the marked columns is above the sum of the greatest counts of the marked rows and, for
/// each other row, the number of groups that it lists among the marked columns. `Yes` proves that no
/// plan exists. Where none exists and no least count is above its greatest, there is always a shortage
/// of one of the two kinds, which no clause here says (A. J. Hoffman, Some recent applications of the
/// theory of linear inequalities to extremal combinatorial analysis, 1960; N. S. Mendelsohn and A. L.
/// Dulmage, Some generalizations of the problem of distinct representatives, 1958).
///
/// The marks may be of any number. The time is linear in the pairs, rows and columns; the memory is a
/// byte a pair and 16 bytes a column.
///
/// # Errors
/// `AllocError` if memory is refused. None is taken for marks of wrong numbers.
pub fn check_shortage(
    alloc: Global,
    problem: &CheckedLists<'_>,
    side: Side,
    rows: &Marks<'_>,
    columns: &Marks<'_>,
) -> Result<ShortageVerdict, AllocError>
    ensures verdict { IfOk result (λ v.
        IsShortageVerdict (problem_in problem.now) side rows.now columns.now v) }
    ensures yes { let p = problem_in problem.now in IfOk result (λ v. (v ≡ ShortageVerdict.Yes)
        ↔ (AreLongMarks p rows.now columns.now × IsShortage p side rows.now columns.now)) }
    ensures none { IfOk result (λ v. v ≡ ShortageVerdict.Yes
        → (plan : List Bool) → ¬ IsPlan (problem_in problem.now) plan) }
{
    let lists = problem.lists();
    if !have_marks(lists, rows, columns) {
        return Ok(ShortageVerdict::Length);
    }
    judge_marks(alloc, lists, side, rows, columns)
}
