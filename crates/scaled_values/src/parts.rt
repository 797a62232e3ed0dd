// Rows of benefits made by several threads.
ghost use Rattle.std.specs.Prelude.{◌≡◌, ◌<◌, List, IfOk, IfSome, length};
ghost use Rattle.assign_core.specs.declared.sense.Sense.{Sense as SenseOf};
ghost use Rattle.assign_core.specs.Rows.{Listing};
ghost use Rattle.scaled_values.specs.inside.Made.{AreAllRows, AreMade, IsMadeRow};

use super::range::Range;
use super::row::StoredRow;
use super::scaled::{Scaled, scale, with_rows};
use assign_core::{Person, Problem, Sense};
use rayon::prelude::*;
use std::alloc::{AllocError, Global};
use std::thread::Threads;

/// The least number of listed pairs for which threads are worth their start: for fewer pairs the
/// calling thread takes a few milliseconds.
pub const LEAST_PAIRS_IN_PARTS: usize = 1 << 21;

// The benefits of a person, and their range.
#[derive(Drop)]
pub struct MadeRow {
    pub row: StoredRow,
    pub range: Range,
}

// Makes the row of the person at a place. It leaves nothing if memory is refused.
fn make_at(place: &mut Option<MadeRow>, alloc: Global, problem: &Problem, sense: Sense, i: usize)
    requires { i < length problem.now }
    ensures { IfSome place.new (IsMadeRow sense problem.now i) }
{
    let n = problem.n();
    let costs = problem.row(Person(i as u16 + 1));
    *place = match StoredRow::new(alloc, sense, n, costs, Range::none()) {
        Ok((row, range)) => Some(MadeRow { row, range }),
        Err(_) => None,
    };
}

// So many places with nothing.
fn empty_places(alloc: Global, n: u16) -> Result<Vec<Option<MadeRow>>, AllocError>
    ensures { IfOk result (λ places. length places.items ≡ n) }
{
    let mut places = Vec::with_capacity(alloc, n as usize)?;
    for _filled in 0..n {
        places.push_reserved(None);
    }
    Ok(places)
}

// The rows of all places, in order, and the range of all benefits. It fails if a place has nothing.
fn gathered(
    alloc: Global,
    places: &mut [Option<MadeRow>],
) -> Result<(Vec<StoredRow>, Range), AllocError>
    ensures { (sense : SenseOf) (rows : List Listing) → length places.old ≡ length rows
        → AreMade sense rows places.old
        → IfOk result (λ made. AreAllRows sense rows made.0.items made.1) }
{
    let mut rows = Vec::with_capacity(alloc, places.len())?;
    let mut range = Range::none();
    for i in 0..places.len() {
        let Some(made) = places[i].take() else {
            return Err(AllocError);
        };
        range = range.joined(made.range);
        rows.push_reserved(made.row);
    }
    Ok((rows, range))
}

// The benefits of all rows, made by several threads, and the range of all benefits.
fn rows_in_parts(
    rt: &(impl Threads + Sync),
    alloc: Global,
    problem: &Problem,
    sense: Sense,
) -> Result<(Vec<StoredRow>, Range), AllocError>
    ensures { IfOk result (λ made. AreAllRows sense problem.now made.0.items made.1) }
{
    let mut places = empty_places(alloc, problem.n())?;
    par_for_each_mut(
        rt,
        places.as_mut_slice(),
        |i: usize, place: &mut Option<MadeRow>|
            requires { i < length problem.now }
            ensures { IfSome place.new (IsMadeRow sense problem.entry.now i) }
        { make_at(place, alloc, problem, sense, i) },
    );
    gathered(alloc, places.as_mut_slice())
}

// Whether the persons list so many pairs.
fn lists_pairs(problem: &Problem, least: usize) -> bool {
    let mut pairs: usize = 0;
    for i in 0..problem.n() {
        pairs = pairs.saturating_add(problem.row(Person(i + 1)).len());
    }
    pairs >= least
}

/// The problem with its benefits under the sense, as `scale` makes it, made by a thread for each
/// processor if the persons list `least` pairs or more. It takes the memory that `scale` takes.
///
/// # Errors
/// `AllocError` if memory is refused.
pub fn scale_in_parts(
    rt: &(impl Threads + Sync),
    least: usize,
    alloc: Global,
    problem: Problem,
    sense: Sense,
) -> Result<Scaled, AllocError>
    ensures problem { IfOk result (λ s. s.problem ≡ problem) }
    ensures sense { IfOk result (λ s. s.sense ≡ sense) }
{
    if !lists_pairs(&problem, least) {
        return scale(alloc, problem, sense);
    }
    let (rows, found) = rows_in_parts(rt, alloc, &problem, sense)?;
    Ok(with_rows(problem, sense, rows, found))
}
