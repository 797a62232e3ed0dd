// The opening of a place.
ghost use Rattle.std.specs.Prelude.{◌≡◌, length, IfOk};
ghost use Rattle.crossbeam_queue.specs.Passes.{view, IsPassOf, IsSamePass};
ghost use Rattle.auction_book.specs.Book.{BookData};
ghost use Rattle.async_workers.specs.PlaceRule.{IsUntouched};
ghost use Rattle.async_workers.specs.inside.Passing.{opener_at};
ghost use Rattle.async_workers.specs.Desk.{new_desks};
ghost use Rattle.async_workers.specs.Views.{first_known};

use super::{BookPlace, Desk};
use crate::boxed::BoxedBook;
use crate::rule::{DeskPass, Known, Opening, PutIn, Queue, Seats};
use assign_core::Prices;
use auction_book::Book;
use std::alloc::{AllocError, Global};
use std::marker::Brand;
use std::sync::atomic::AtomicBool;
use std::sync::{Arc, Wait};

/// Opens a place with a book in which no worker has a claim and no bid was accepted, and makes a
/// desk for each of its workers. Desk k, from 1, has number k, the book's prices as its table,
/// version 0, no claim, no acceptance and no offer.
///
/// # Errors
/// `AllocError` if memory is refused.
pub fn open_place<R: Wait>(
    rt: &R,
    alloc: Global,
    book: Book,
) -> Result<(BookPlace, Vec<Desk>), AllocError>
    requires { IsUntouched book }
    ensures { IfOk result (λ opened. opened.1.items ≡ new_desks opened.0 book (length book.claims)) }
{
    open_with::<Brand, R>(rt, alloc, book)
}

// Opens a place with the book of `O`.
fn open_with<O: Opening, R: Wait>(
    rt: &R,
    alloc: Global,
    book: Book,
) -> Result<(BookPlace, Vec<Desk>), AllocError>
    requires book { O.book ≡ book }
    requires untouched { IsUntouched book }
    ensures { IfOk result (λ opened. opened.1.items ≡ new_desks opened.0 book (length book.claims)) }
{
    book.invariant();
    let (queue, mut pass) = Queue::ruled(alloc, 1)?;
    let desks = seat_desks::<O>(alloc, &queue, &mut pass, &book)?;
    let boxed = BoxedBook::new(alloc, book)?;
    match queue.push_as::<PutIn, R>(rt, &mut pass, boxed) {
        Ok(()) => {}
        Err(_) => unreachable!(),
    }
    let calling = AtomicBool::new(true);
    Ok((BookPlace { queue, calling }, desks))
}

// What a new desk knows.
fn first_known(number: u16, table: Prices) -> Known
    ensures { (b : BookData) → result ≡ (let k = first_known b number in record k { table = table }) }
{
    Known {
        number,
        table,
        version: 0,
        accepted: 0,
        claim: None,
        stop: false,
    }
}

// A desk for each worker.
fn seat_desks<O: Opening>(
    alloc: Global,
    queue: &Queue,
    pass: &mut DeskPass,
    book: &Book,
) -> Result<Vec<Desk>, AllocError>
    requires book { O.book ≡ book.now }
    requires untouched { IsUntouched book.now }
    requires queue { IsPassOf queue.now pass.old }
    requires fresh { view pass.old ≡ opener_at book.now 0 }
    ensures queue { IsSamePass pass.old pass.new }
    ensures opener { IfOk result (λ _. view pass.new ≡ opener_at book.now (length book.now.claims)) }
    ensures desks { IfOk result (λ v. v.items ≡ new_desks queue.now.table.shared.table_id book.now (length book.now.claims)) }
{
    book.invariant();
    let workers = book.workers();
    let mut desks = Vec::new(alloc);
    for made in 0..workers {
        let table = book.prices().copy(alloc)?;
        let scaled = Arc::try_clone(book.scaled())?;
        desks.reserve(1)?;
        let theirs = queue.another::<Seats<O>>(pass);
        desks.push_reserved(Desk {
            scaled,
            pass: theirs,
            known: first_known(made + 1, table),
            offer: None,
            listed: None,
            sessions: 0,
            since: 0,
            looks: 0,
        });
    }
    Ok(desks)
}
