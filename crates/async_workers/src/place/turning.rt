// A worker's turn.
ghost use Rattle.std.specs.Prelude.{◌≡◌, true, length, IfErr, IfOk};
ghost use Rattle.assign_core.specs.declared.outcome.SolveFault.TheVariants as turn_fault;
ghost use Rattle.auction_book.specs.Claims.{IsAsked};
ghost use Rattle.auction_book.specs.Session.{prepared};
ghost use Rattle.async_workers.specs.inside.Hand.{Ends};
ghost use Rattle.async_workers.specs.Turns.{CanTurn, EndsRun, Faulted, Serves, Turned, WorksOn, turn_of};

use super::listing::make_offer;
use super::session::{Ended, session};
use super::{BookPlace, Desk};
use crate::gate::{Gate, Standing, Turn, TurnFault};
use auction_book::{Book, Claim};
use std::alloc::Global;
use std::sync::Wait;

// How far the run is.
fn standing_of(book: &Book) -> Standing {
    let ask = book.ask();
    Standing {
        phase: ask.phase,
        eps: ask.eps,
        assigned: book.assigned(),
        accepted: book.version(),
    }
}

// Takes the book, does a session with it, and puts it back. Returns the result of the session, and
// how far the run then is.
fn one_session<R: Wait>(
    rt: &R,
    alloc: Global,
    place: &BookPlace,
    desk: &mut Desk,
    refresh: u64,
) -> (Ended, Standing)
    requires { CanTurn place.now desk.old }
    ensures serves { Serves desk.old desk.new
        (Ends refresh desk.old.since desk.old.known desk.old.offer result.0.note result.0.outcome) }
    ensures table { length desk.new.known.table ≡ length desk.new.base.problem }
    ensures asked { IfOk result.0.outcome (IsAsked desk.new.base) }
{
    let mut held = desk.take(rt, place);
    let ended = session(alloc, &mut held, desk, refresh);
    let standing = standing_of(held.book());
    held.give(rt, place, desk);
    (ended, standing)
}

// Prepares the offer of the claimed person, if there is one.
fn prepare_offer<G: Gate>(desk: &mut Desk, claim: Claim, gate: &G) -> Turn
    requires table { length desk.old.known.table ≡ length desk.old.base.problem }
    requires asked { IsAsked desk.old.base claim }
    ensures turn { result ≡ turn_of claim }
    ensures desk { desk.new ≡ record desk.old { offer = prepared desk.old.base desk.old.known.table desk.old.known.version claim } }
{
    desk.offer = None;
    match claim {
        Claim::Refuted => Turn::Refuted,
        Claim::Done => Turn::Done,
        Claim::Stopped => Turn::Stopped,
        Claim::Wait => Turn::Idle,
        Claim::Person(person, ask) => {
            gate.before_offer(desk.known.number);
            let offer = make_offer(desk, ask, person);
            desk.offer = Some(offer);
            Turn::Claimed
        }
    }
}

/// One turn of a worker. It takes the book and submits its offer, or, if its person is below the
/// floor, records a Hall set. Its table catches up if its bid was too low, or if `refresh`
/// sessions, this one counted, have passed since it last did (0: only after a low bid). The next
/// phase begins if this one is over. Then it claims a person and puts the book back, and prepares
/// this person's offer from its own table, however old (Bertsekas and Castanon, Parallel
/// synchronous and asynchronous implementations of the auction algorithm, 1991).
///
/// The gate is called, while the book isn't in hand: before an offer is submitted, after the
/// session, with the state of the run at its end, and before an offer is computed. It may wait for
/// other workers.
///
/// # Errors
/// `Memory` if memory is refused. The book is still put back: with the accepted bid, or with the
/// person of an unaccepted bid or of a search at the back of the queue. The desk then has no
/// claim and no offer. `Stuck` is never answered.
pub fn turn<G: Gate, R: Wait>(
    rt: &R,
    alloc: Global,
    place: &BookPlace,
    desk: &mut Desk,
    refresh: u64,
    gate: &G,
) -> Result<Turn, TurnFault>
    requires { CanTurn place.now desk.old }
    ensures can_turn { CanTurn place.now desk.new }
    ensures turned { IfOk result (λ answer. Turned refresh desk.old desk.new answer) }
    ensures fault { IfErr result (λ fault. (fault ≡ turn_fault.Memory) × Faulted refresh desk.old desk.new) }
    ensures works { WorksOn desk.old desk.new }
    ensures stops { desk.old.known.stop ≡ true → IfOk result EndsRun }
{
    let number = desk.known.number;
    if desk.offer.is_some() {
        gate.before_submit(number, desk.sessions);
    }
    let (Ended { note, outcome }, standing) = one_session(rt, alloc, place, desk, refresh);
    gate.after_session(number, note);
    gate.after_standing(number, desk.sessions, standing);
    Ok(prepare_offer(desk, outcome?, gate))
}
