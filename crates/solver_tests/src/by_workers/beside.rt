// Drawn orders of turns, leaves and stops, compared with plain workers, whose steps are calls of a
// book outside a place.
ghost use Rattle.std.specs.Prelude.{◌≡◌, length, true, IfSome, Some};
ghost use Rattle.assign_core.specs.Numbered.{IsNumber};
ghost use Rattle.assign_core.specs.Prices.{IsBelow};
ghost use Rattle.auction_book.specs.Book.{prices_of};
ghost use Rattle.auction_book.specs.Session.{IsPrepared};
ghost use Rattle.async_workers.specs.PlaceRule.{IsUntouched};

use super::drawn::{Alike, all_alike, is_book};
use super::scripts::{Shown, Step, Story, give_all_up, next_person, played, step_of};
use assign_core::{Person, Price, Prices};
use async_workers::Claimed;
use auction_book::{Book, Claim, begin_next_if_over, submit_offer};
use bidder::{Offer, make_bid};
use std::alloc::{AllocError, Global};
use std::sync::Wait;

// The state of a worker.
#[derive(Drop)]
struct Plain {
    number: u16,
    table: Prices,
    version: u128,
    accepted: u128,
    claim: Option<Claimed>,
    offer: Option<Offer>,
    // The number of sessions, in all and since the table last caught up.
    sessions: u64,
    since: u64,
}

fn open_plain(alloc: Global, first: &Prices, workers: u16) -> Result<Vec<Plain>, AllocError> {
    let mut plain = Vec::new(alloc);
    for before in 0..workers {
        plain.push(Plain {
            number: before + 1,
            table: first.copy(alloc)?,
            version: 0,
            accepted: 0,
            claim: None,
            offer: None,
            sessions: 0,
            since: 0,
        })?;
    }
    Ok(plain)
}

// Whether no price of the first table is above that of the second.
fn is_below(first: &Prices, second: &Prices) -> bool
    ensures { result ≡ true → IsBelow first.now second.now }
{
    let (low, high) = (first.as_slice(), second.as_slice());
    if low.len() != high.len() {
        return false;
    }
    for i in 0..low.len() {
        if low[i] > high[i] {
            return false;
        }
    }
    true
}

fn is_at(book: &Book, plain: &Plain) -> bool
    ensures { result ≡ true → IsNumber (length book.now.claims) plain.now.number }
{
    0 < plain.number && plain.number <= book.workers()
}

// The offer of the worker's claimed person, from its table.
fn offered(book: &Book, plain: &Plain) -> Option<Offer>
    ensures worker { IfSome result (λ offer. IsNumber (length book.now.claims) plain.now.number) }
    ensures below { IfSome result (λ offer. IsBelow plain.now.table (prices_of book.now)) }
    ensures prepared { IfSome result (λ offer. IsPrepared book.now plain.now.number plain.now.table plain.now.version (Some offer)) }
{
    if !is_at(book, plain) || !is_below(&plain.table, book.prices()) {
        return None;
    }
    book.invariant();
    let person = book.claimed_by(plain.number)?;
    Some(make_bid(
        book.scaled(),
        &plain.table,
        plain.version,
        book.ask(),
        person,
    ))
}

// Whether a bid's level is less than eps above the price.
fn is_low(book: &Book, offer: Option<Offer>) -> bool {
    let Some(Offer::Bid(bid)) = offer else {
        return false;
    };
    match book
        .prices()
        .as_slice()
        .get((bid.object.0 as usize).wrapping_sub(1))
    {
        Some(price) => bid.level < price.wrapping_add(Price::from(book.ask().eps)),
        None => false,
    }
}

// Submits an offer of the worker's claimed person.
fn submit(alloc: Global, book: &mut Book, plain: &Plain, offer: Offer) -> Result<(), AllocError>
    requires worker { IsNumber (length book.old.claims) plain.now.number }
    requires below { IsBelow plain.now.table (prices_of book.old) }
    requires prepared { IsPrepared book.old plain.now.number plain.now.table plain.now.version (Some offer) }
{
    submit_offer(alloc, book, plain.number, Some(offer)).outcome
}

fn is_prepared(plain: &Plain, offer: &Offer) -> bool {
    match &plain.offer {
        Some(prepared) => *prepared == *offer,
        None => false,
    }
}

// Submits the prepared offer. Returns whether it is the one from the worker's table.
fn hand_in(alloc: Global, book: &mut Book, plain: &Plain) -> Result<bool, AllocError> {
    let Some(offer) = offered(book, plain) else {
        return Ok(plain.offer.is_none());
    };
    let same = is_prepared(plain, &offer);
    submit(alloc, book, plain, offer)?;
    Ok(same)
}

// The worker has the current prices from here on.
fn catch_up(alloc: Global, book: &mut Book, plain: &mut Plain) -> Result<(), AllocError> {
    plain.since = 0;
    plain.table = book.prices().copy(alloc)?;
    plain.version = book.version();
    if is_at(book, plain) {
        book.catch_up(plain.number, &mut plain.table, &mut plain.version);
    }
    Ok(())
}

// The worker claims a person and prepares its offer. Returns a letter for the answer.
fn claim(book: &mut Book, plain: &mut Plain) -> u8 {
    if !is_at(book, plain) || book.claimed_by(plain.number).is_some() {
        return b'?';
    }
    let answer = book.claim(plain.number);
    plain.offer = offered(book, plain);
    match answer {
        Claim::Person(_, _) => b'C',
        Claim::Wait => b'I',
        Claim::Done => b'D',
        Claim::Refuted => b'R',
        Claim::Stopped => b'S',
    }
}

// A turn, and a letter for its result.
fn take_turn(
    alloc: Global,
    book: &mut Book,
    plain: &mut Plain,
    refresh: u64,
) -> Result<u8, AllocError> {
    let low = is_low(book, plain.offer);
    if !hand_in(alloc, book, plain)? {
        return Ok(b'?');
    }
    if low || (refresh > 0 && plain.since >= refresh) {
        catch_up(alloc, book, plain)?;
    }
    begin_next_if_over(alloc, book)?;
    Ok(claim(book, plain))
}

// The worker gives its claim up. Returns whether it had one.
fn give_up(book: &mut Book, plain: &mut Plain) -> bool {
    plain.offer = None;
    if is_at(book, plain) {
        book.give_up(plain.number);
    }
    plain.claim.is_some()
}

// A step, and a letter for its result. Records the worker's acceptances and its claim.
fn plain_step(
    alloc: Global,
    book: &mut Book,
    plain: &mut Plain,
    step: Step,
    refresh: u64,
) -> Result<u8, AllocError> {
    plain.sessions = plain.sessions.wrapping_add(1);
    plain.since = plain.since.wrapping_add(1);
    let letter = match step {
        Step::Turn => take_turn(alloc, book, plain, refresh)?,
        Step::Leave => { if give_up(book, plain) { b'y' } else { b'n' } }
        Step::AskStop => {
            give_up(book, plain);
            book.stop();
            b'a'
        }
    };
    if is_at(book, plain) {
        plain.accepted = book.accepted_by(plain.number);
        let ask = book.ask();
        plain.claim = book
            .claimed_by(plain.number)
            .map(|person| Claimed { person, ask });
    }
    Ok(letter)
}

// The steps of a script by plain workers.
fn plain_script(
    alloc: Global,
    book: &mut Book,
    plain: &mut [Plain],
    script: &[u8],
    refresh: u64,
) -> Result<Vec<u8>, AllocError> {
    let mut came = Vec::new(alloc);
    let mut at = 0;
    for letter in script {
        match step_of(*letter) {
            None => at = letter.wrapping_sub(b'1') as usize,
            Some(step) => {
                if let Some(worker) = plain.get_mut(at) {
                    came.push(plain_step(alloc, book, worker, step, refresh)?)?;
                }
            }
        }
    }
    Ok(came)
}

impl Alike for Plain {
    fn is_alike(&self, shown: &Shown) -> bool {
        shown.number == self.number
            && shown.table.as_slice() == self.table.as_slice()
            && shown.version == self.version
            && shown.accepted == self.accepted
            && shown.claim == self.claim
            && shown.offer == self.offer
            && shown.sessions == self.sessions
    }
}

// The persons who wait, in turn, once all claims are given up.
fn queue_of(alloc: Global, book: &mut Book) -> Result<Vec<Person>, AllocError> {
    let mut queue = Vec::new(alloc);
    book.resume();
    give_all_up(book);
    for _ in 0..book.scaled().n() {
        if let Some(person) = next_person(book, 1) {
            queue.push(person)?;
            give_all_up(book);
        }
    }
    Ok(queue)
}

// Whether the closed book of a place is that of plain workers, with the same persons waiting.
fn is_left(alloc: Global, story: &mut Story, other: &mut Book) -> Result<bool, AllocError> {
    let Some(book) = &mut story.book else {
        return Ok(false);
    };
    if !is_book(book, other) {
        return Ok(false);
    }
    let queue = queue_of(alloc, book)?;
    let waiting = queue_of(alloc, other)?;
    Ok(queue.as_slice() == waiting.as_slice())
}

// The letters of a script of plain workers, and the workers and their book after it.
#[derive(Drop)]
struct PlainStory {
    came: Vec<u8>,
    workers: Vec<Plain>,
    book: Book,
}

fn plain_story(
    alloc: Global,
    mut book: Book,
    script: &[u8],
    refresh: u64,
) -> Result<PlainStory, AllocError> {
    let mut workers = open_plain(alloc, book.prices(), book.workers())?;
    let came = plain_script(alloc, &mut book, workers.as_mut_slice(), script, refresh)?;
    Ok(PlainStory {
        came,
        workers,
        book,
    })
}

// Whether a story of desks is that of plain workers. Adds its letters to the earlier ones.
fn is_story(
    alloc: Global,
    story: &mut Story,
    plain: &mut PlainStory,
    came: &mut Vec<u8>,
) -> Result<bool, AllocError> {
    came.extend_from_slice(story.came.as_slice())?;
    let same = story.came.as_slice() == plain.came.as_slice();
    let seated = all_alike(story.shown.as_slice(), plain.workers.as_slice());
    let left = is_left(alloc, story, &mut plain.book)?;
    Ok(same && seated && left)
}

// Whether the desks of a place with this book show the same after these steps as plain workers with
// the other book.
pub(crate) fn agrees<R: Wait>(
    rt: &R,
    alloc: Global,
    book: Book,
    other: Book,
    script: &[u8],
    refresh: u64,
    came: &mut Vec<u8>,
) -> Result<bool, AllocError>
    requires { IsUntouched book }
{
    let mut plain = plain_story(alloc, other, script, refresh)?;
    let mut story = played(rt, alloc, book, script, refresh)?;
    is_story(alloc, &mut story, &mut plain, came)
}
