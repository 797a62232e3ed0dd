// The candidates of the claimed person, which come to the desk with the claim.
ghost use Rattle.std.specs.Prelude.{◌≡◌, ℤ, List, None, length};
ghost use Rattle.assign_core.specs.Numbered.{IsNumber};
ghost use Rattle.assign_core.specs.Prices.{IsBelow};
ghost use Rattle.bidder.specs.Offers.{IsAsk, offer_of};
ghost use Rattle.price_log.specs.History.{IsEarlier};
ghost use Rattle.auction_book.specs.Book.{prices_of};
ghost use Rattle.async_workers.specs.inside.Hand.{HasBook};
ghost use Rattle.async_workers.specs.inside.Lists.{IsListed};

use super::{Desk, Held};
use assign_core::{Person, Prices};
use auction_book::Book;
use bidder::{Ask, Offer, make_bid};
use candidates::{Candidates, make_bid_with};
use scaled_values::Scaled;

/// A person with its candidates.
#[derive(Drop)]
pub struct Listed {
    pub person: Person,
    pub list: Candidates,
}

// Puts candidates back into the book. They may be those at lower prices than the book's. Most runs
// on short rows have none, so that nothing is moved before it is seen.
pub(super) fn put_listed(book: &mut Book, listed: &mut Option<Listed>)
    requires { (table : List ℤ) × IsBelow table (prices_of book.old) × IsListed book.old.base table listed.old }
    ensures book { book.new ≡ book.old }
    ensures listed { listed.new ≡ None }
{
    if listed.is_none() {
        return;
    }
    if let Some(Listed { person, list }) = listed.take() {
        book.put_list(person, list);
    }
}

// Drops candidates, if there are any.
pub(super) fn drop_listed(listed: &mut Option<Listed>)
    ensures { listed.new ≡ None }
{
    if listed.is_some() {
        *listed = None;
    }
}

// Takes the candidates of the worker's claimed person out of the book, if this is the version of
// its prices.
fn take_listed(book: &mut Book, worker: u16, version: u128) -> Option<Listed>
    requires { IsNumber (length book.old.claims) worker }
    ensures book { book.new ≡ book.old }
    ensures listed { (table : List ℤ) → IsEarlier book.old.log table version → IsListed book.old.base table result }
{
    book.invariant();
    if book.version() != version {
        return None;
    }
    let person = book.claimed_by(worker)?;
    let list = book.take_list(person)?;
    Some(Listed { person, list })
}

// Lets the claimed person's candidates come along if the desk's table is the book's.
pub(super) fn fetch_list(held: &mut Held, desk: &mut Desk)
    requires { HasBook desk.old held.old.book }
    ensures held { held.new ≡ held.old }
    ensures desk { desk.new ≡ desk.old }
{
    if held.book().has_lists() {
        desk.listed = take_listed(held.book_mut(), desk.known.number, desk.known.version);
    }
}

// The offer of a person, with its candidates if these are they.
fn offer_with(
    listed: &mut Option<Listed>,
    scaled: &Scaled,
    table: &Prices,
    version: u128,
    ask: Ask,
    person: Person,
) -> Offer
    requires person { IsNumber (length scaled.now.problem) person }
    requires table { length table.now ≡ length scaled.now.problem }
    requires ask { IsAsk scaled.now ask }
    requires listed { IsListed scaled.now table.now listed.old }
    ensures offer { result ≡ offer_of scaled.now table.now version ask person }
    ensures listed { IsListed scaled.now table.now listed.new }
{
    let Some(own) = listed else {
        return make_bid(scaled, table, version, ask, person);
    };
    if own.person != person {
        return make_bid(scaled, table, version, ask, person);
    }
    make_bid_with(&mut own.list, scaled, table, version, ask, person)
}

// The offer of the claimed person, from the desk's table.
pub(super) fn make_offer(desk: &mut Desk, ask: Ask, person: Person) -> Offer
    requires person { IsNumber (length desk.old.base.problem) person }
    requires table { length desk.old.known.table ≡ length desk.old.base.problem }
    requires ask { IsAsk desk.old.base ask }
    ensures offer { result ≡ offer_of desk.old.base desk.old.known.table desk.old.known.version ask person }
    ensures desk { desk.new ≡ desk.old }
{
    let known = &desk.known;
    offer_with(
        &mut desk.listed,
        &desk.scaled,
        &known.table,
        known.version,
        ask,
        person,
    )
}
