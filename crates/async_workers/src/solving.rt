// Workers that solve together.
ghost use Rattle.std.specs.Prelude.{◌≡◌, ◌<◌, ◌≤ℤ◌, IfErr, IfOk, OnOk, length, pos, replicate};
ghost use Rattle.std.specs.Arc.{arc_value};
ghost use Rattle.assign_core.specs.declared.outcome.SolveFault.TheVariants as solve_fault;
ghost use Rattle.scaled_values.specs.Scaled.{greatest_of};
ghost use Rattle.auction_book.specs.Follows.{GoesOn};
ghost use Rattle.auction_book.specs.Free.{IsFree};
ghost use Rattle.auction_book.specs.Phases.{opened};
ghost use Rattle.async_workers.specs.PlaceRule.{Extends, IsUntouched};
ghost use Rattle.async_workers.specs.Solving.{IsAnsweredBy, IsEndOf, IsEnough, IsSolved, tallies};
ghost use Rattle.async_workers.specs.Turns.{IsMemory};

use crate::alone::{go_alone, outcome_of};
use crate::gate::{Gate, TurnFault};
use crate::place::{close_place, open_place};
use crate::working::{Shared, run_all, seat_workers, unseat_workers};
use assign_core::{GREATEST_FIRST_PRICE, Outcome, Person, Prices, SolveFault};
use auction_book::Book;
use candidates::SHORT_ROW;
use scaled_values::Scaled;
use std::alloc::{AllocError, Global};
use std::sync::{Arc, Wait};
use std::thread::Threads;

/// The number of a worker's accepted bids.
#[derive(Clone, Copy, PartialEq, Eq)]
pub struct Tally {
    pub worker: u16,
    pub accepted: u128,
}

// Whether some row is long enough for candidates.
fn has_long_row(scaled: &Scaled) -> bool {
    for i in 0..scaled.n() {
        if scaled.problem().row(Person(i + 1)).len() > SHORT_ROW {
            return true;
        }
    }
    false
}

// A book at the start of a run, with candidates for persons with long rows.
fn open_book(
    alloc: Global,
    scaled: Arc<Scaled>,
    prices: Prices,
    workers: u16,
) -> Result<Book, AllocError>
    requires workers { 0 < workers }
    requires long { length prices ≡ length (arc_value scaled).problem }
    requires low { greatest_of prices ≤ℤ GREATEST_FIRST_PRICE }
    ensures book { IfOk result (λ b. b ≡ opened (arc_value scaled) prices workers) }
{
    let mut book = Book::open_from(alloc, scaled, prices, workers)?;
    if has_long_row(book.scaled()) {
        book.keep_lists(alloc);
    }
    Ok(book)
}

// Lets the workers take turns with the book until the run of each has ended.
fn worked_book<G: Gate + Sync, R: Threads + Wait + Sync>(
    rt: &R,
    alloc: Global,
    book: Book,
    refresh: u64,
    gate: &G,
) -> Result<(Book, Option<TurnFault>), AllocError>
    requires some { 0 < length book.claims }
    requires untouched { IsUntouched book }
    ensures extends { IfOk result (λ worked. Extends book worked.0) }
    ensures free { IfOk result (λ worked. IsFree worked.0) }
    ensures fault { IfOk result (λ worked. IsMemory worked.1) }
{
    let (place, desks) = open_place(rt, alloc, book)?;
    let workers = seat_workers(alloc, desks)?;
    let room = Vec::with_capacity(alloc, workers.len())?;
    let shared = Shared {
        place: &place,
        refresh,
        gate,
    };
    let workers = run_all(rt, alloc, &shared, workers);
    let (desks, fault) = unseat_workers(room, workers);
    Ok((close_place(rt, place, desks), fault))
}

// The tally of each worker.
fn tally_all(alloc: Global, book: &Book) -> Result<Vec<Tally>, AllocError>
    ensures { IfOk result (λ all. all.items ≡ tallies book.now (length book.now.claims)) }
{
    let workers = book.workers();
    let mut tallies = Vec::with_capacity(alloc, workers as usize)?;
    for before in 0..workers {
        let worker = before + 1;
        tallies.push_reserved(Tally {
            worker,
            accepted: book.accepted_by(worker),
        });
    }
    Ok(tallies)
}

// The book's answer. If it has none yet, this thread goes on with it alone.
fn finish<R: Wait>(rt: &R, alloc: Global, book: &mut Book) -> Result<Outcome, AllocError>
    requires { 0 < length book.old.claims }
    ensures goes_on { GoesOn book.old book.new }
    ensures answers { IfOk result (IsAnsweredBy book.new) }
    ensures free { IsFree book.new }
{
    book.invariant();
    match outcome_of(alloc, book)? {
        Some(outcome) => Ok(outcome),
        None => go_alone(rt, alloc, book),
    }
}

// The answer of a book that the workers left, and the tallies.
fn answer<R: Wait>(
    rt: &R,
    alloc: Global,
    mut book: Book,
) -> Result<(Outcome, Vec<Tally>), AllocError>
    requires { 0 < length book.claims }
    ensures { IfOk result (λ r. IsEndOf book (length book.claims) r.0 r.1.items) }
{
    let outcome = finish(rt, alloc, &mut book)?;
    let tallies = tally_all(alloc, &book)?;
    Ok((outcome, tallies))
}

/// Solves by `workers` workers, usually 1 to 64, each in a thread of its own. A worker bids from
/// its own table, which catches up after a bid that was too low and every `refresh` sessions (0:
/// only after a low bid), and submits its bids to one shared book. The run begins at these prices,
/// one for each object and each at most `GREATEST_FIRST_PRICE`.
///
/// The outcome is that of the book: an optimal assignment with prices that prove it, or a Hall set.
/// It comes with the number of accepted bids of each worker, from worker 1 on. If several outcomes
/// exist, the result may depend on how the threads run (Bertsekas and Castanon, Parallel synchronous
/// and asynchronous implementations of the auction algorithm, 1991).
///
/// It may wait for its threads. A thread that can't be started is no fault: other threads do its
/// work, or the calling thread does. The gate receives the workers' steps.
///
/// # Errors
/// `Memory` if memory is refused. A worker that meets a refusal stops the others.
pub fn solve_workers_from<G: Gate + Sync, R: Threads + Wait + Sync>(
    rt: &R,
    alloc: Global,
    scaled: Arc<Scaled>,
    prices: Prices,
    workers: u16,
    refresh: u64,
    gate: &G,
) -> Result<(Outcome, Vec<Tally>), SolveFault>
    requires workers { 0 < workers }
    requires long { length prices ≡ length (arc_value scaled).problem }
    requires low { greatest_of prices ≤ℤ GREATEST_FIRST_PRICE }
    ensures solved { IfOk result (λ r. IsSolved (arc_value scaled) prices workers r.0 r.1.items) }
    ensures enough { IfOk result (λ r. IsEnough (length (arc_value scaled).problem) r.0 r.1.items) }
    ensures memory { IfErr result (λ fault. fault ≡ solve_fault.Memory) }
{
    let opening = open_book(alloc, scaled, prices, workers)?;
    let (book, fault) = worked_book(rt, alloc, opening, refresh, gate)?;
    if let Some(fault) = fault {
        return Err(fault);
    }
    Ok(answer(rt, alloc, book)?)
}

/// Solves by workers as `solve_workers_from` does, with all first prices 0.
///
/// # Errors
/// `Memory` if memory is refused.
///
/// # Example
/// The body of `calling::solve_by_workers`:
/// ```
/// let scaled = Arc::new(alloc, scale(alloc, problem, sense)?)?;
/// match solve_workers(rt, alloc, scaled, workers, 0, &OpenGate) {
///     Ok((outcome, _)) => Ok(outcome),
///     Err(_) => Err(AllocError),
/// }
/// ```
pub fn solve_workers<G: Gate + Sync, R: Threads + Wait + Sync>(
    rt: &R,
    alloc: Global,
    scaled: Arc<Scaled>,
    workers: u16,
    refresh: u64,
    gate: &G,
) -> Result<(Outcome, Vec<Tally>), SolveFault>
    requires { 0 < workers }
    ensures solved { IfOk result (λ r. let s = arc_value scaled in
        IsSolved s (replicate (length s.problem) (pos 0)) workers r.0 r.1.items) }
    ensures enough { IfOk result (λ r. IsEnough (length (arc_value scaled).problem) r.0 r.1.items) }
    ensures memory { IfErr result (λ fault. fault ≡ solve_fault.Memory) }
{
    let zeros = Prices::zeros(alloc, scaled.n())?;
    solve_workers_from(rt, alloc, scaled, zeros, workers, refresh, gate)
}
