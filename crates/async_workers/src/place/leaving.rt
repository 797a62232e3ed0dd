// How a worker leaves, and how it asks for a stop.
ghost use Rattle.std.specs.Prelude.{◌≡◌, ◌||◌, false, is_some, true};
ghost use Rattle.async_workers.specs.Desk.{IsReady};
ghost use Rattle.async_workers.specs.inside.Hand.{HasBook, KeepsBook};
ghost use Rattle.async_workers.specs.Turns.{CanTurn, StepsOut, WorksOn, stopped_if, without_claim};

use super::{BookPlace, Desk, Held};
use std::sync::Wait;

// Gives up the desk's claim.
fn let_go(held: &mut Held, desk: &Desk)
    requires hand { HasBook desk.now held.old.book }
    ensures hand { KeepsBook desk.now held.old.book desk.now held.new.book }
    ensures held { held.new ≡ record held.old { book = without_claim held.old.book desk.now.known.number } }
{
    held.book_mut().give_up(desk.known.number);
}

// Stops the book, and notes that the desk asked for it, if `stopping` is true.
fn stop_if(held: &mut Held, desk: &mut Desk, stopping: bool)
    requires hand { HasBook desk.old held.old.book }
    ensures hand { KeepsBook desk.old held.old.book desk.new held.new.book }
    ensures held { held.new ≡ record held.old { book = stopped_if stopping held.old.book } }
    ensures desk { desk.new ≡ (let k = desk.old.known in record desk.old { known = record k { stop = (stopping || k.stop) } }) }
{
    if stopping {
        held.book_mut().stop();
        desk.known.stop = true;
    }
}

// One session that gives the claim up, drops the offer and may stop the book.
fn step_out<R: Wait>(rt: &R, place: &BookPlace, desk: &mut Desk, stopping: bool)
    requires { IsReady place.now desk.old }
    ensures can_turn { CanTurn place.now desk.new }
    ensures out { StepsOut stopping desk.old desk.new }
    ensures works { WorksOn desk.old desk.new }
{
    let mut held = desk.take(rt, place);
    let_go(&mut held, desk);
    stop_if(&mut held, desk, stopping);
    held.give(rt, place, desk);
}

/// A worker leaves: in one session it gives up the desk's claim, so that its person waits again,
/// and drops its offer. Returns whether the desk had a claim. The desk may take turns again later.
/// It may wait for other workers, and takes no memory.
pub fn leave<R: Wait>(rt: &R, place: &BookPlace, desk: &mut Desk) -> bool
    requires { IsReady place.now desk.old }
    ensures can_turn { CanTurn place.now desk.new }
    ensures out { StepsOut false desk.old desk.new }
    ensures works { WorksOn desk.old desk.new }
    ensures answer { result ≡ is_some desk.old.known.claim }
{
    let had = desk.known.claim.is_some();
    step_out(rt, place, desk, false);
    had
}

/// A worker asks for a stop: in one session it gives up the desk's claim, drops its offer and stops
/// the book. After that the desk's turns answer `Refuted`, `Done` or `Stopped`, unless one meets a
/// fault; other desks still submit their prepared offers. It may wait for other workers, and takes
/// no memory.
pub fn ask_stop<R: Wait>(rt: &R, place: &BookPlace, desk: &mut Desk)
    requires { IsReady place.now desk.old }
    ensures can_turn { CanTurn place.now desk.new }
    ensures out { StepsOut true desk.old desk.new }
    ensures works { WorksOn desk.old desk.new }
{
    step_out(rt, place, desk, true);
}
