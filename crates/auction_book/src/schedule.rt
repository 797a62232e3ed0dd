// The core over lists of events.
ghost use Rattle.std.specs.Prelude.{◌≡◌, ℕ, ℤ, ◌<◌, ◌≤◌, ◌≤ℤ◌, pos, List, IfOk, length, replicate};
ghost use Rattle.std.specs.Arc.{arc_value};
ghost use Rattle.assign_core.specs.Numbered.{IsNumber, numbered};
ghost use Rattle.assign_core.specs.Prices.{IsTable};
ghost use Rattle.assign_core.specs.Rows.{IsProblem};
ghost use Rattle.scaled_values.specs.Scaled.{ScaledProblem, greatest_of};
ghost use Rattle.auction_book.specs.declared.schedule.Event.{Event};
ghost use Rattle.auction_book.specs.Book.{BookData};
ghost use Rattle.auction_book.specs.Follows.{GoesOn};
ghost use Rattle.auction_book.specs.Free.{IsFree};
ghost use Rattle.auction_book.specs.Schedule.{CoreData, Happens, IsFit, IsWorkerState, Run, core_opened, state_next, state_of_prices};
ghost use Rattle.auction_book.specs.Session.{Submits, book_left};

use super::book::Book;
use super::session::{begin_next_if_over, prepare, submit_offer, take_prices};
use assign_core::{GREATEST_FIRST_PRICE, Prices};
use bidder::Offer;
use scaled_values::Scaled;
use std::alloc::{AllocError, Global};
use std::sync::Arc;

/// A worker's next session.
#[derive(Clone, Copy, PartialEq, Eq)]
pub struct Event {
    /// The worker's number, from 1. An event for another number changes nothing.
    pub worker: u16,
    /// Whether the worker's table catches up after its offer is submitted.
    pub catch_up: bool,
}

/// The state of a worker.
#[derive(Drop)]
pub struct WorkerState {
    /// Its own table of prices.
    pub table: Prices,
    /// The table's version.
    pub version: u128,
    /// The offer of the person that it claimed, prepared from its table.
    pub offer: Option<Offer>,
    /// The number of its accepted bids, as reported to it.
    pub accepted: u128,
}

/// A book and its workers.
#[derive(Drop)]
pub struct World {
    pub book: Book,
    /// The states of workers 1, 2, ..
    pub states: Vec<WorkerState>,
}

/// For every list of events the book is free. Each table is below its prices and, as far back as
/// the log reaches, the log's at its version. Each prepared offer is that of the worker's claimed
/// person in this phase, and each reported count is the book's.
pub fn runs_are_fit()
    ensures { (s : ScaledProblem) (prices : List ℤ) (workers : ℕ) (events : List Event) (core : CoreData)
        → IsProblem s.problem → IsTable prices → length prices ≡ length s.problem
        → greatest_of prices ≤ℤ GREATEST_FIRST_PRICE
        → Run (core_opened s prices workers) events core → IsFit core }
{}

/// A world goes on along its events: no price falls, the log continues, and a recorded Hall set
/// stays or is replaced by another.
pub fn worlds_go_on()
    ensures { (core new : CoreData) (events : List Event) → IsFit core → Run core events new
        → GoesOn core.book new.book }
{}

// One worker's session with the book, and the offer that it prepares after it.
fn attend(
    alloc: Global,
    book: &mut Book,
    state: &mut WorkerState,
    event: Event,
) -> Result<(), AllocError>
    requires worker { IsNumber (length book.old.claims) event.worker }
    requires state { IsWorkerState book.old event.worker state.old }
    ensures { IfOk result (λ _. (b : BookData) × Submits book.old event.worker state.old.offer b
        × (book.new ≡ book_left event.catch_up b event.worker)
        × (state.new ≡ state_next event b state.old)) }
{
    let worker = event.worker;
    book.invariant();
    let offer = state.offer.take();
    submit_offer(alloc, book, worker, offer).outcome?;
    state.accepted = book.accepted_by(worker);
    take_prices(
        book,
        worker,
        &mut state.table,
        &mut state.version,
        event.catch_up,
    );
    begin_next_if_over(alloc, book)?;
    let claim = book.claim(worker);
    state.offer = prepare(book.scaled(), &state.table, state.version, claim);
    Ok(())
}

// One event.
fn happen(
    alloc: Global,
    book: &mut Book,
    states: &mut [WorkerState],
    event: Event,
) -> Result<(), AllocError>
    requires { IsFit (record { book = book.old; states = states.old }) }
    ensures { IfOk result (λ _. Happens (record { book = book.old; states = states.old }) event
        (record { book = book.new; states = states.new })) }
{
    let worker = event.worker;
    if worker == 0 || worker as usize > states.len() {
        return Ok(());
    }
    attend(alloc, book, &mut states[worker as usize - 1], event)?;
    Ok(())
}

// A state for each worker, with these prices.
fn open_states(alloc: Global, prices: &Prices, workers: u16) -> Result<Vec<WorkerState>, AllocError>
    ensures { IfOk result (λ states. states.items ≡ replicate workers (state_of_prices prices.now)) }
{
    let mut states = Vec::with_capacity(alloc, workers as usize)?;
    for _ in 0..workers {
        let table = prices.copy(alloc)?;
        states.push(WorkerState {
            table,
            version: 0,
            offer: None,
            accepted: 0,
        })?;
    }
    Ok(states)
}

/// Runs a list of events with all first prices 0, for at least one worker.
///
/// # Errors
/// `AllocError` if memory is refused.
pub fn run_schedule(
    alloc: Global,
    scaled: Arc<Scaled>,
    workers: u16,
    events: &[Event],
) -> Result<World, AllocError>
    requires { 0 < workers }
    ensures run { IfOk result (λ w. let base = arc_value scaled in
        Run (core_opened base (replicate (length base.problem) (pos 0)) workers) events.now
        (record { book = w.book; states = w.states.items })) }
    ensures fit { IfOk result (λ w. IsFit (record { book = w.book; states = w.states.items })) }
{
    let prices = Prices::zeros(alloc, scaled.n())?;
    run_schedule_from(alloc, scaled, prices, workers, events)
}

/// Runs a list of events from these prices, one for each object and each at most
/// `GREATEST_FIRST_PRICE`, for at least one worker.
///
/// In each event the worker submits its prepared offer, or, if its person is below the floor,
/// searches for a Hall set and records it. It takes the current prices if the event says so. The
/// next phase begins if this one is over. Then the worker claims a person and prepares this
/// person's offer from its own table, however old (Bertsekas and Castanon, Parallel synchronous and
/// asynchronous implementations of the auction algorithm, 1991).
///
/// The clause `fit` holds for every list of events, so for every interleaving of the workers.
///
/// # Errors
/// `AllocError` if memory is refused.
pub fn run_schedule_from(
    alloc: Global,
    scaled: Arc<Scaled>,
    prices: Prices,
    workers: u16,
    events: &[Event],
) -> Result<World, AllocError>
    requires workers { 0 < workers }
    requires long { length prices ≡ length (arc_value scaled).problem }
    requires low { greatest_of prices ≤ℤ GREATEST_FIRST_PRICE }
    ensures run { IfOk result (λ w. Run (core_opened (arc_value scaled) prices workers) events.now
        (record { book = w.book; states = w.states.items })) }
    ensures fit { IfOk result (λ w. IsFit (record { book = w.book; states = w.states.items })) }
{
    // For the proof only: the number of persons is in range, and the prices are a table.
    let _n = scaled.n();
    let _table = prices.as_slice();
    let mut states = open_states(alloc, &prices, workers)?;
    let mut book = Book::open_from(alloc, scaled, prices, workers)?;
    for event in events {
        happen(alloc, &mut book, states.as_mut_slice(), *event)?;
    }
    Ok(World { book, states })
}
