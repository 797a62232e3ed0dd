// Scripts of a few desks from one thread.
ghost use Rattle.std.specs.Prelude.{◌≡◌, ◌<◌, ◌≤ℤ◌, length, All, IfOk};
ghost use Rattle.std.specs.Arc.{arc_value};
ghost use Rattle.scaled_values.specs.Scaled.{greatest_of};
ghost use Rattle.async_workers.specs.PlaceRule.{IsUntouched};
ghost use Rattle.async_workers.specs.Turns.{CanTurn};

use assign_core::{GREATEST_FIRST_PRICE, Person, Price, Prices};
use async_workers::{
    BookPlace, Claimed, Desk, Gate, Note, Turn, TurnFault, ask_stop, close_place, leave,
    open_place, turn,
};
use auction_book::{Book, Claim};
use bidder::Offer;
use scaled_values::Scaled;
use std::alloc::{AllocError, Global};
use std::cell::RefCell;
use std::sync::{Arc, Wait};

// The next step of a desk.
#[derive(Clone, Copy)]
pub(crate) enum Step {
    Turn,
    Leave,
    AskStop,
}

// What a gate sees.
#[derive(Clone, Copy)]
pub(crate) enum Heard {
    Offer(u16),
    Submit(u16, u64),
    Session(u16, Note),
}

// A gate that keeps what it sees.
#[derive(Drop)]
struct Listener {
    heard: RefCell<Vec<Heard>>,
}

impl Listener {
    fn hear(&self, heard: Heard) {
        if let Ok(mut list) = self.heard.try_borrow_mut() {
            let _ = list.push(heard);
        }
    }
}

impl Gate for Listener {
    fn before_offer(&self, worker: u16) {
        self.hear(Heard::Offer(worker));
    }

    fn before_submit(&self, worker: u16, turns: u64) {
        self.hear(Heard::Submit(worker, turns));
    }

    fn after_session(&self, worker: u16, note: Note) {
        self.hear(Heard::Session(worker, note));
    }
}

// What a desk shows.
#[derive(Drop)]
pub(crate) struct Shown {
    pub number: u16,
    pub table: Vec<Price>,
    pub version: u128,
    pub accepted: u128,
    pub claim: Option<Claimed>,
    pub offer: Option<Offer>,
    pub sessions: u64,
}

fn shown_by(alloc: Global, desk: &Desk) -> Result<Shown, AllocError> {
    Ok(Shown {
        number: desk.number(),
        table: desk.table().as_slice().to_vec(alloc)?,
        version: desk.version(),
        accepted: desk.accepted(),
        claim: desk.claim(),
        offer: desk.offer(),
        sessions: desk.sessions(),
    })
}

fn all_shown(alloc: Global, desks: &[Desk]) -> Result<Vec<Shown>, AllocError> {
    let mut all = Vec::new(alloc);
    for desk in desks {
        all.push(shown_by(alloc, desk)?)?;
    }
    Ok(all)
}

// The result of a script: its letters, what the gate saw, what the desks showed, and the book of
// the closed place.
#[derive(Drop)]
pub(crate) struct Story {
    pub came: Vec<u8>,
    pub heard: Vec<Heard>,
    pub shown: Vec<Shown>,
    pub book: Option<Book>,
}

// The result of the script for the desks of a place with this book.
pub(crate) fn played<R: Wait>(
    rt: &R,
    alloc: Global,
    book: Book,
    script: &[u8],
    refresh: u64,
) -> Result<Story, AllocError>
    requires { IsUntouched book }
{
    let gate = Listener {
        heard: RefCell::new(Vec::new(alloc)),
    };
    let (place, desks) = opened(rt, alloc, book)?;
    let (desks, came) = run_script(rt, alloc, &place, desks, script, refresh, &gate)?;
    let shown = all_shown(alloc, desks.as_slice())?;
    let book = closed(rt, place, desks);
    let heard = gate.heard.into_inner();
    Ok(Story {
        came,
        heard,
        shown,
        book,
    })
}

// A book that begins at these prices.
pub(crate) fn new_book(
    alloc: Global,
    scaled: &Arc<Scaled>,
    prices: &Prices,
    workers: u16,
) -> Result<Book, AllocError>
    requires workers { 0 < workers }
    requires long { length prices.now ≡ length (arc_value scaled.now).problem }
    requires low { greatest_of prices.now ≤ℤ GREATEST_FIRST_PRICE }
    ensures { IfOk result IsUntouched }
{
    let scaled = Arc::try_clone(scaled)?;
    Book::open_from(alloc, scaled, prices.copy(alloc)?, workers)
}

// A place with this book, and its desks.
pub(crate) fn opened<R: Wait>(
    rt: &R,
    alloc: Global,
    book: Book,
) -> Result<(BookPlace, Vec<Desk>), AllocError>
    requires { IsUntouched book }
    ensures { IfOk result (λ opened. All (CanTurn opened.0) opened.1.items) }
{
    open_place(rt, alloc, book)
}

// A letter for the answer of a turn.
fn letter_of(answer: Result<Turn, TurnFault>) -> u8 {
    match answer {
        Ok(Turn::Claimed) => b'C',
        Ok(Turn::Idle) => b'I',
        Ok(Turn::Done) => b'D',
        Ok(Turn::Refuted) => b'R',
        Ok(Turn::Stopped) => b'S',
        Err(_) => b'!',
    }
}

// One step of a desk, and a letter for its result: y if it left a claim, n if it had none.
fn one_step<R: Wait, G: Gate>(
    rt: &R,
    alloc: Global,
    place: &BookPlace,
    desk: &mut Desk,
    step: Step,
    refresh: u64,
    gate: &G,
) -> u8
    requires { CanTurn place.now desk.old }
    ensures { CanTurn place.now desk.new }
{
    match step {
        Step::Turn => letter_of(turn(rt, alloc, place, desk, refresh, gate)),
        Step::Leave => { if leave(rt, place, desk) { b'y' } else { b'n' } }
        Step::AskStop => {
            ask_stop(rt, place, desk);
            b'a'
        }
    }
}

pub(crate) fn step_of(letter: u8) -> Option<Step> {
    match letter {
        b't' => Some(Step::Turn),
        b'l' => Some(Step::Leave),
        b's' => Some(Step::AskStop),
        _ => None,
    }
}

// The steps of a script: a desk's number, then a letter for what it does.
pub(crate) fn run_script<R: Wait, G: Gate>(
    rt: &R,
    alloc: Global,
    place: &BookPlace,
    mut desks: Vec<Desk>,
    script: &[u8],
    refresh: u64,
    gate: &G,
) -> Result<(Vec<Desk>, Vec<u8>), AllocError>
    requires { All (CanTurn place.now) desks.items }
    ensures { IfOk result (λ run. All (CanTurn place.now) run.0.items) }
{
    let mut came = Vec::with_capacity(alloc, script.len())?;
    let mut at = 0;
    for letter in script {
        match step_of(*letter) {
            None => at = letter.wrapping_sub(b'1') as usize,
            Some(step) => {
                if at < desks.len() {
                    let next = one_step(rt, alloc, place, &mut desks[at], step, refresh, gate);
                    came.push(next)?;
                }
            }
        }
    }
    Ok((desks, came))
}

// The book of a place after its desks are closed.
fn closed<R: Wait>(rt: &R, place: BookPlace, desks: Vec<Desk>) -> Option<Book>
    requires { All (CanTurn place) desks.items }
{
    if desks.is_empty() {
        return None;
    }
    Some(close_place(rt, place, desks))
}

// Gives up all claims of a book.
pub(crate) fn give_all_up(book: &mut Book) {
    for worker in 0..book.workers() {
        if worker < book.workers() {
            book.give_up(worker + 1);
        }
    }
}

// The person that a worker of a book claims next.
pub(crate) fn next_person(book: &mut Book, worker: u16) -> Option<Person>
    requires { 0 < worker }
{
    if book.workers() < worker || book.claimed_by(worker).is_some() {
        return None;
    }
    match book.claim(worker) {
        Claim::Person(person, _) => Some(person),
        _ => None,
    }
}
