// How a desk takes the book and puts it back.
ghost use Rattle.std.specs.Prelude.{◌≡◌, cond, length, None, true, false};
ghost use Rattle.assign_core.specs.Numbered.{IsNumber};
ghost use Rattle.price_log.specs.History.{IsEarlier};
ghost use Rattle.crossbeam_queue.specs.Passes.{view, IsPassOf, IsSamePass, ruled_capacity};
ghost use Rattle.auction_book.specs.Book.{BookData};
ghost use Rattle.auction_book.specs.Changes.{caught_up};
ghost use Rattle.auction_book.specs.Free.{IsFree};
ghost use Rattle.async_workers.specs.PlaceRule.{Gave, MayFollow, Took};
ghost use Rattle.async_workers.specs.Views.{claim_in, known_after};
ghost use Rattle.async_workers.specs.Desk.{IsAway, MayGive};
ghost use Rattle.async_workers.specs.Session.{counted, one_more, with_table};
ghost use Rattle.async_workers.specs.declared.rule.LastSession.{LastSession};
ghost use Rattle.async_workers.specs.declared.rule.View.TheVariants.{Away, Holding};

use super::listing::{drop_listed, put_listed};
use super::{BookPlace, Claimed, Desk, Held};
use crate::boxed::BoxedBook;
use crate::pause::sleep;
use crate::rule::{DeskPass, Give, Giver, Known, Queue, Take};
use auction_book::Book;
use std::marker::Brand;
use std::sync::Wait;
use std::{hint, thread};

// A pause doubles at most so often.
const MOST_DOUBLED: u32 = 10;

// After so many more looks without the book than books taken a worker sleeps.
const MOST_LOOKS: u32 = 14;

// Pauses between two looks for the book, each of which slows the worker who has it.
fn back_off<R: Wait>(rt: &R, looks: u32) {
    if looks >= MOST_LOOKS {
        sleep(rt);
        return;
    }
    for _ in 0..1u32 << looks.min(MOST_DOUBLED) {
        hint::spin_loop();
    }
    thread::yield_now();
}

// Tries until the book is in the place. Looks that find none are counted up and books taken down, so
// that few workers share a book that is rarely free.
pub(super) fn take_book<R: Wait>(
    rt: &R,
    queue: &Queue,
    pass: &mut DeskPass,
    looks: &mut u32,
) -> BoxedBook
    requires queue { IsPassOf queue.now pass.old }
    requires away { (t : LastSession) × (view pass.old ≡ Away t) }
    ensures queue { IsSamePass pass.old pass.new }
    ensures took { Took (view pass.old) result (view pass.new) }
{
    for _ in rt.forever() {
        if let Some(book) = queue.try_pop_as::<Take>(pass) {
            *looks = looks.saturating_sub(1);
            return book;
        }
        back_off(rt, *looks);
        *looks = looks.saturating_add(1).min(MOST_LOOKS);
    }
    unreachable!()
}

// Puts the book into the place, which is empty while this pass holds the book.
fn put_back<G: Giver, R: Wait>(
    rt: &R,
    queue: &Queue,
    pass: &mut DeskPass,
    known: &Known,
    book: BoxedBook,
)
    requires queue { IsPassOf queue.now pass.old × (ruled_capacity queue.now ≡ 1) }
    requires giver { G.known ≡ known.now }
    requires held { (t : LastSession) × (taken : BookData) × (view pass.old ≡ Holding t taken)
        × (t.known.number ≡ known.now.number) × MayFollow known.now taken book }
    ensures queue { IsSamePass pass.old pass.new }
    ensures gave { Gave known.now (view pass.old) book (view pass.new) }
{
    match queue.push_as::<Give<G>, R>(rt, pass, book) {
        Ok(()) => {}
        Err(_) => unreachable!(),
    }
}

// The worker's claim, with what the phase asks of its bid.
pub(super) fn claim_in(book: &Book, worker: u16) -> Option<Claimed>
    requires { IsNumber (length book.now.claims) worker }
    ensures { result ≡ claim_in book.now worker }
{
    match book.claimed_by(worker) {
        Some(person) => Some(Claimed {
            person,
            ask: book.ask(),
        }),
        None => None,
    }
}

impl Desk {
    /// Takes the book, as soon as it is in the place, with the offer that the desk has prepared. It
    /// may wait for other workers, and takes no memory.
    ///
    /// The book is free, and all that the desk last learnt is true of it. No price is below the
    /// desk's table or below the book that the desk last put back. The log continues the log of
    /// that book, and the worker's claim and acceptances are as they were.
    pub fn take<R: Wait>(&mut self, rt: &R, place: &BookPlace) -> Held
        requires place { self.old.place ≡ place.now }
        requires away { (taken put : BookData) × IsAway self.old taken put }
        ensures took { Took self.old.view result.book self.new.view }
        ensures held { result ≡ record { book = result.book; offer = self.old.offer; caught_up = false } }
        ensures same { self.new ≡ record self.old { view = self.new.view; offer = None } }
    {
        let mut book = take_book(rt, &place.queue, &mut self.pass, &mut self.looks);
        put_listed(book.book_mut(), &mut self.listed);
        Held {
            book,
            offer: self.offer.take(),
            caught_up: false,
        }
    }
}

// The number of sessions since the table last caught up, after one more.
fn since_after(since: u64, caught_up: bool) -> u64
    ensures { result ≡ cond caught_up 0 (one_more since) }
{
    if caught_up {
        0
    } else {
        since.saturating_add(1)
    }
}

impl Held {
    /// Makes the desk's table current. From the end of this session on its sessions since the last
    /// catching up are counted from 0. It takes no memory.
    pub fn catch_up(&mut self, desk: &mut Desk)
        requires number { IsNumber (length self.old.book.claims) desk.old.known.number }
        requires earlier { IsEarlier self.old.book.log desk.old.known.table desk.old.known.version }
        ensures held { self.new ≡ record self.old { book = caught_up self.old.book desk.old.known.number; caught_up = true } }
        ensures desk { desk.new ≡ record desk.old { known = with_table true self.old.book desk.old.known } }
        ensures free { IsFree self.new.book }
    {
        drop_listed(&mut desk.listed);
        let Known {
            number,
            table,
            version,
            ..
        } = &mut desk.known;
        self.book.book_mut().catch_up(*number, table, version);
        self.caught_up = true;
    }

    /// Puts the book back into its place, records the worker's acceptances and claim at the desk,
    /// and counts the session. An offer that is still here is dropped. It takes no memory; only the
    /// step on the place may wait for other workers.
    pub fn give<R: Wait>(self, rt: &R, place: &BookPlace, desk: &mut Desk)
        requires place { desk.old.place ≡ place.now }
        requires held { MayGive desk.old self.book }
        requires number { IsNumber (length self.book.claims) desk.old.known.number }
        ensures gave { Gave desk.old.known desk.old.view self.book desk.new.view }
        ensures same { desk.new ≡ counted self.caught_up (record desk.old { view = desk.new.view; known = known_after desk.old.known self.book }) }
    {
        let Held {
            book,
            offer: _,
            caught_up,
        } = self;
        desk.known.accepted = book.book().accepted_by(desk.known.number);
        desk.known.claim = claim_in(book.book(), desk.known.number);
        desk.sessions = desk.sessions.saturating_add(1);
        desk.since = since_after(desk.since, caught_up);
        place.note(book.book());
        put_back::<Brand, R>(rt, &place.queue, &mut desk.pass, &desk.known, book);
    }
}
