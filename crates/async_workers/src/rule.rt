// The rule of the place, and the steps that workers make on it.
use crate::boxed::BoxedBook;
use crate::place::Claimed;
use assign_core::Prices;
use auction_book::Book;
use crossbeam_queue::protocol::{Join, Lesson, Outcome, Protocol, Split};
use crossbeam_queue::{Pass, RuledArrayQueue};
use scaled_values::Scaled;
use std::marker::{Brand, PhantomData};

/// What a desk knows: what it keeps for itself, and what it learnt when it last put the book back.
#[derive(Drop)]
pub struct Known {
    /// The worker's number, from 1.
    pub number: u16,
    /// The worker's own table of prices, of this version.
    pub table: Prices,
    pub version: u128,
    /// The number of the worker's accepted bids, and the worker's claim.
    pub accepted: u128,
    pub claim: Option<Claimed>,
    /// Whether the desk asked for a stop.
    pub stop: bool,
}

/// A desk while it doesn't have the book: what it knows, and the books that it last took and put
/// back. No value of this type is made.
pub struct LastSession {
    pub base: Scaled,
    pub known: Known,
    pub taken: Book,
    pub put: Book,
}

/// What a pass knows. No value of this type is made.
pub enum View {
    /// The first view, the same for every place: nothing yet.
    Fresh,
    /// The opener has this book in hand, and has made this many desks.
    Opening(Book, u16),
    Away(LastSession),
    Holding(LastSession, Book),
    /// A closer with the book in hand has taken in a desk with this last session.
    Meeting(LastSession, Book, LastSession),
    Spent,
}

pub struct PassRule;

impl Protocol<BoxedBook, View> for PassRule {
    ghost use Rattle.async_workers.specs.PlaceRule.{Rule};
    ghost use Rattle.async_workers.specs.declared.rule.View.TheVariants.{Fresh};

    ghost holds = { Rule };

    ghost first = { Fresh };
}

/// A desk takes the book.
pub struct Take;

impl Outcome<BoxedBook, View> for Take {
    ghost use Rattle.async_workers.specs.PlaceRule.{Took};

    ghost then = { Took };
}

/// What a desk knows when it puts the book back.
pub trait Giver {
    ghost use Rattle.async_workers.specs.declared.rule.Known.{Known};

    ghost known: { Known };
}

impl Giver for Brand {
    ghost use Rattle.async_workers.specs.Views.{first_known};
    ghost use Rattle.async_workers.specs.inside.Passing.{no_book};

    ghost known = { first_known no_book 0 };
}

/// A desk puts the book back.
pub struct Give<G: Giver> {
    giver: PhantomData<G>,
}

impl<G: Giver> Outcome<BoxedBook, View> for Give<G> {
    ghost use Rattle.async_workers.specs.PlaceRule.{Gave};

    ghost then = { Gave G.known };
}

impl<G: Giver> Lesson<BoxedBook, View> for Give<G> {
    ghost use Rattle.async_workers.specs.inside.Passing.{IsVacant};

    ghost fact = { IsVacant };
}

/// The book that a place is opened with.
pub trait Opening {
    ghost use Rattle.auction_book.specs.Book.{BookData};

    ghost book: { BookData };
}

impl Opening for Brand {
    ghost use Rattle.async_workers.specs.inside.Passing.{no_book};

    ghost book = { no_book };
}

/// The opener makes a desk.
pub struct Seats<O: Opening> {
    opening: PhantomData<O>,
}

impl<O: Opening> Split<View> for Seats<O> {
    ghost use Rattle.async_workers.specs.Views.{opener_next, desk_made};

    ghost left = { opener_next O.book };

    ghost right = { desk_made O.book };
}

/// The opener puts the book into the place.
pub struct PutIn;

impl Outcome<BoxedBook, View> for PutIn {
    ghost use Rattle.std.specs.Prelude.{◌≡◌};
    ghost use Rattle.async_workers.specs.declared.rule.View.TheVariants.{Spent};

    ghost then = { λ v x w. w ≡ Spent };
}

impl Lesson<BoxedBook, View> for PutIn {
    ghost use Rattle.async_workers.specs.inside.Passing.{IsVacant};

    ghost fact = { IsVacant };
}

/// A closer takes in another desk.
pub struct Meet;

impl Join<View> for Meet {
    ghost use Rattle.async_workers.specs.Views.{met};
    ghost use Rattle.async_workers.specs.declared.rule.View.TheVariants.{Spent};

    ghost both = { met };

    ghost spent = { Spent };
}

impl Lesson<BoxedBook, View> for Meet {
    ghost use Rattle.async_workers.specs.inside.Passing.{MetIsCurrent};

    ghost fact = { λ v items. MetIsCurrent v };
}

pub type Queue = RuledArrayQueue<BoxedBook, View, PassRule>;

pub type DeskPass = Pass<BoxedBook, View>;
