// Trees: leaves, and splits above them.
ghost use Rattle.std.specs.Prelude.{◌≡◌, ℕ, pos, ◌+◌, ◌*◌, ◌-◌, ◌≤◌, ◌<◌, ◌<ℤ◌, ◌^◌, ◌∷◌, [], ◌++◌, Some, None, IsTrue, IsSome, List, length, map, slice_index_or, IfOk, OnOk, MatchBool, ℤ};
ghost use Rattle.std.specs.Vec.{vec_len};
ghost use Rattle.row_checker.specs.Rows.{LinearRow, NoPlan, row_in};
ghost use Rattle.row_checker.specs.Trees.{first_unnamed, head_of, high_row, leaf_ends, low_row, multiples_at, number_at, or_stop, shown_by, tree_ends, verdict_on, whole};
ghost use Rattle.row_checker.specs.inside.Paths.{IsAdvance, IsAt, IsInside, IsStep, left_over};

use super::leaf::{LeafEnd, leaf_end};
use super::numbers::{Head, first_unnamed, head_at, multiples_at, number_at};
use super::row::Row;
use super::verdict::{End, Fault, Verdict};
use std::alloc::{AllocError, Global};

/// The most splits above a leaf.
pub const MOST_DEPTH: usize = 1000;

// How a leaf ends that begins at this place, before the next.
fn end_by(end: LeafEnd, place: usize, next: usize) -> End
    ensures { result ≡ shown_by end place next }
{
    match end {
        LeafEnd::Shows => End::Stands(next),
        LeafEnd::TooGreat => End::Stops(Fault::TooGreat(place)),
        LeafEnd::Lacks => End::Stops(Fault::NotShown(place)),
    }
}

// How the leaf of so many multiples at a place ends. The weights are 0, before and after.
fn judge_leaf(
    alloc: Global,
    weights: &mut [i128],
    touched: &mut Vec<usize>,
    rows: &[Row],
    numbers: &[i64],
    place: usize,
    pairs: usize,
) -> Result<End, AllocError>
    requires zero { (k : ℕ) → slice_index_or weights.old k (pos 0) ≡ pos 0 }
    requires room { place + 2 + 2 * pairs ≤ length numbers.now }
    ensures zero { OnOk result ((k : ℕ) → slice_index_or weights.new k (pos 0) ≡ pos 0) }
    ensures end { IfOk result (λ end.
        end ≡ leaf_ends (length weights.old) numbers.now (map row_in rows.now) place pairs) }
{
    if let Some(unnamed) = first_unnamed(numbers, place + 2, pairs, rows.len()) {
        return Ok(End::Stops(Fault::Row(unnamed)));
    }
    let multiples = multiples_at(alloc, numbers, place + 2, pairs)?;
    let end = leaf_end(weights, touched, rows, multiples.as_slice())?;
    Ok(end_by(end, place, place + 2 + 2 * pairs))
}

// The row of the low half of the split at a place.
fn low_row(alloc: Global, numbers: &[i64], place: usize, pairs: usize) -> Result<Row, AllocError>
    requires { place + 3 + 2 * pairs ≤ length numbers.now }
    ensures { IfOk result (λ row. row_in row
        ≡ low_row (multiples_at numbers.now (place + 3) pairs) (number_at numbers.now (place + 2))) }
{
    let terms = multiples_at(alloc, numbers, place + 3, pairs)?;
    Ok(Row {
        least: None,
        most: Some(number_at(numbers, place + 2)),
        terms,
    })
}

// The row of the high half, made of that of the low one.
fn high_row(low: Row, most: i64) -> Row
    ensures { most <ℤ pos (2 ^ 63 - 1) → row_in result ≡ high_row (row_in low).terms most }
{
    Row {
        least: Some(most.saturating_add(1)),
        most: None,
        terms: low.terms,
    }
}

/// How far a step came.
#[derive(Clone, Copy, PartialEq, Eq)]
enum Step {
    /// The node at this place comes next.
    Goes(usize),
    /// This is how the node ends, or the tree.
    Ends(End),
}

// Goes down into the low half of the split at a place, whose row comes after the rows, or gives its
// fault.
fn go_down(
    alloc: Global,
    variables: usize,
    rows: &mut Vec<Row>,
    given: usize,
    numbers: &[i64],
    place: usize,
    pairs: usize,
) -> Result<Step, AllocError>
    requires split { head_of numbers.now place ≡ Head.Split pairs }
    requires room { place + 3 + 2 * pairs ≤ length numbers.now }
    requires given { given ≤ vec_len rows.old }
    ensures step { IfOk result (λ step. (given' : List LinearRow) (all : End) → length given' ≡ given →
        IsAt variables numbers.now given' (map row_in rows.old.items) all
        (tree_ends variables numbers.now (left_over given' (map row_in rows.old.items)) (map row_in rows.old.items) place)
        → IsStep variables numbers.now given' (map row_in rows.new.items) all place step) }
    ensures given { given ≤ vec_len rows.new }
{
    if rows.len() - given >= MOST_DEPTH {
        return Ok(Step::Ends(End::Stops(Fault::TooDeep(place))));
    }
    if let Some(unnamed) = first_unnamed(numbers, place + 3, pairs, variables) {
        return Ok(Step::Ends(End::Stops(Fault::Variable(unnamed))));
    }
    rows.push(low_row(alloc, numbers, place, pairs)?)?;
    Ok(Step::Goes(place + 3 + 2 * pairs))
}

// Goes on at a place: down into a split, or to the end of a leaf. The weights are 0, before and after.
fn judge_node(
    alloc: Global,
    weights: &mut [i128],
    touched: &mut Vec<usize>,
    rows: &mut Vec<Row>,
    given: usize,
    numbers: &[i64],
    place: usize,
) -> Result<Step, AllocError>
    requires zero { (k : ℕ) → slice_index_or weights.old k (pos 0) ≡ pos 0 }
    requires room { place ≤ length numbers.now }
    requires given { given ≤ vec_len rows.old }
    ensures zero { OnOk result ((k : ℕ) → slice_index_or weights.new k (pos 0) ≡ pos 0) }
    ensures step { IfOk result (λ step. (given' : List LinearRow) (all : End) → length given' ≡ given →
        IsAt (length weights.old) numbers.now given' (map row_in rows.old.items) all
        (tree_ends (length weights.old) numbers.now (left_over given' (map row_in rows.old.items)) (map row_in rows.old.items) place)
        → IsStep (length weights.old) numbers.now given' (map row_in rows.new.items) all place step) }
    ensures given { given ≤ vec_len rows.new }
{
    match head_at(numbers, place) {
        Head::None => Ok(Step::Ends(End::Stops(Fault::Shape(place)))),
        Head::Leaf(pairs) => {
            let end = judge_leaf(
                alloc,
                weights,
                touched,
                rows.as_slice(),
                numbers,
                place,
                pairs,
            )?;
            Ok(Step::Ends(end))
        }
        Head::Split(pairs) => go_down(alloc, weights.len(), rows, given, numbers, place, pairs),
    }
}

// Turns the last row, that of a low half, into that of the high half, or takes that of a high half
// away. Says whether it was a low one.
fn turn(rows: &mut Vec<Row>) -> Result<bool, AllocError>
    ensures turned { IfOk result (λ low.
        (n : ℕ) (numbers : List ℤ) (given : List LinearRow) (all : End) (q : ℕ) →
        length given < length (map row_in rows.old.items) →
        IsAt n numbers given (map row_in rows.old.items) all (End.Stands q) →
        MatchBool low
        (IsAt n numbers given (map row_in rows.new.items) all
        (tree_ends n numbers (left_over given (map row_in rows.new.items)) (map row_in rows.new.items) q))
        (IsAt n numbers given (map row_in rows.new.items) all (End.Stands q))) }
    ensures len { IfOk result (λ low. 0 < vec_len rows.old →
        MatchBool low (vec_len rows.new ≡ vec_len rows.old) (vec_len rows.new + 1 ≡ vec_len rows.old)) }
{
    let Some(row) = rows.pop() else {
        return Ok(false);
    };
    let Some(most) = row.most else {
        return Ok(false);
    };
    rows.push(high_row(row, most))?;
    Ok(true)
}

// Goes up to the next split whose high half is still to come, and makes its row the last one; says
// whether there is one above the given rows.
fn climb(rows: &mut Vec<Row>, given: usize) -> Result<bool, AllocError>
    requires { given ≤ vec_len rows.old }
    ensures climbed { IfOk result (λ low.
        (n : ℕ) (numbers : List ℤ) (given' : List LinearRow) (all : End) (q : ℕ) →
        length given' ≡ given →
        IsAt n numbers given' (map row_in rows.old.items) all (End.Stands q) →
        MatchBool low
        (IsAt n numbers given' (map row_in rows.new.items) all
        (tree_ends n numbers (left_over given' (map row_in rows.new.items)) (map row_in rows.new.items) q))
        (End.Stands q ≡ all)) }
    ensures given { OnOk result (given ≤ vec_len rows.new) }
{
    while rows.len() > given {
        if turn(rows)? {
            return Ok(true);
        }
    }
    Ok(false)
}

// What comes after a node that ends so: the next node, or the end of the whole tree.
fn end_above(rows: &mut Vec<Row>, given: usize, end: End) -> Result<Step, AllocError>
    requires { given ≤ vec_len rows.old }
    ensures step { IfOk result (λ next.
        (n : ℕ) (numbers : List ℤ) (given' : List LinearRow) (all : End) (p : ℕ) →
        length given' ≡ given →
        IsInside p (length numbers) end →
        IsAt n numbers given' (map row_in rows.old.items) all end →
        IsAdvance n numbers given' (map row_in rows.new.items) all p next) }
    ensures given { OnOk result (given ≤ vec_len rows.new) }
{
    match end {
        End::Stops(_) => Ok(Step::Ends(end)),
        End::Stands(next) => {
            if climb(rows, given)? {
                Ok(Step::Goes(next))
            } else {
                Ok(Step::Ends(End::Stands(next)))
            }
        }
    }
}

// After a step: on to what comes next, or to the end of the whole tree.
fn after(rows: &mut Vec<Row>, given: usize, step: Step) -> Result<Step, AllocError>
    requires { given ≤ vec_len rows.old }
    ensures step { IfOk result (λ next.
        (n : ℕ) (numbers : List ℤ) (given' : List LinearRow) (all : End) (p : ℕ) →
        length given' ≡ given →
        IsStep n numbers given' (map row_in rows.old.items) all p step →
        IsAdvance n numbers given' (map row_in rows.new.items) all p next) }
    ensures given { OnOk result (given ≤ vec_len rows.new) }
{
    match step {
        Step::Goes(next) => Ok(Step::Goes(next)),
        Step::Ends(end) => end_above(rows, given, end),
    }
}

// How the whole tree ends. The weights are 0 at first.
fn judge_all(
    alloc: Global,
    weights: &mut [i128],
    touched: &mut Vec<usize>,
    rows: &mut Vec<Row>,
    numbers: &[i64],
) -> Result<End, AllocError>
    requires { (k : ℕ) → slice_index_or weights.old k (pos 0) ≡ pos 0 }
    ensures { IfOk result (λ end.
        end ≡ tree_ends (length weights.old) numbers.now MOST_DEPTH (map row_in rows.old.items) 0) }
{
    let given = rows.len();
    let mut place = 0;
    loop {
        let step = judge_node(alloc, weights, touched, rows, given, numbers, place)?;
        match after(rows, given, step)? {
            Step::Goes(next) => place = next,
            Step::Ends(end) => return Ok(end),
        }
    }
}

// The verdict on a list of so many numbers whose tree ends so.
fn whole(end: End, long: usize) -> Verdict
    ensures { result ≡ whole long end }
{
    match end {
        End::Stands(next) => {
            if next == long {
                Verdict::Shown
            } else {
                Verdict::Not(Fault::Shape(next))
            }
        }
        End::Stops(fault) => Verdict::Not(fault),
    }
}

// What the tree shows of the rows.
fn judge(
    alloc: Global,
    variables: usize,
    rows: Vec<Row>,
    numbers: &[i64],
) -> Result<Verdict, AllocError>
    ensures { IfOk result (λ v. v ≡ verdict_on variables (map row_in rows.items) numbers.now) }
{
    let mut rows = rows;
    let mut weights = vec![in alloc; 0_i128; variables]?;
    let mut touched = Vec::new(alloc);
    let end = judge_all(
        alloc,
        weights.as_mut_slice(),
        &mut touched,
        &mut rows,
        numbers,
    )?;
    Ok(whole(end, numbers.len()))
}

/// What a tree, as a list of numbers, shows of the rows over so many variables: that no plan meets
/// them all, or its first fault. It is `Shown` exactly when each leaf shows it.
///
/// The time is linear in the numbers and in the terms of the rows that the leaves name. The memory is
/// 16 bytes a variable, and little more.
///
/// # Errors
/// `AllocError` if memory is refused.
pub fn verdict_of(
    alloc: Global,
    variables: usize,
    rows: Vec<Row>,
    numbers: &[i64],
) -> Result<Verdict, AllocError>
    ensures verdict { IfOk result (λ v. v ≡ verdict_on variables (map row_in rows.items) numbers.now) }
    ensures none { IfOk result (λ v. v ≡ Verdict.Shown → NoPlan variables (map row_in rows.items)) }
{
    let verdict = judge(alloc, variables, rows, numbers)?;
    Ok(verdict)
}
