// The place, the desks and the book in hand.
ghost use Rattle.std.specs.Prelude.{◌≡◌};
ghost use Rattle.std.specs.Borrow.{sem};
ghost use Rattle.async_workers.specs.Lending.{LendsBook};

mod closing;
mod leaving;
mod listing;
mod opening;
mod reading;
mod session;
mod taking;
mod turning;

use crate::boxed::BoxedBook;
use crate::rule::{DeskPass, Known, Queue};
use assign_core::Person;
use auction_book::Book;
use bidder::{Ask, Offer};
pub use closing::close_place;
pub use leaving::{ask_stop, leave};
use listing::Listed;
pub use opening::open_place;
use scaled_values::Scaled;
use std::marker::Model;
use std::sync::Arc;
use std::sync::atomic::{AtomicBool, Ordering};
pub use turning::turn;

/// Where the book is while no desk has it.
#[derive(Drop)]
pub struct BookPlace {
    queue: Queue,
    // Whether a worker without a claim had something to do with the book when it was last put back.
    // It may be late, so that no worker relies on it.
    calling: AtomicBool,
}

impl BookPlace {
    // Whether it is worth while to take the book without a claim.
    pub fn calls(&self) -> bool {
        self.calling.load(Ordering::SeqCst)
    }

    // Notes whether it is worth while, before the book is put back. A write costs more than a look.
    fn note(&self, book: &Book) {
        let calling = book.has_work();
        if self.calls() != calling {
            self.calling.store(calling, Ordering::SeqCst);
        }
    }
}

impl Model for BookPlace {
    ghost use Rattle.std.specs.Prelude.{◌≡◌};
    ghost use Rattle.atomic_table.specs.Seated.{TableId, table_id_coded};
    ghost use Rattle.crossbeam_queue.specs.Passes.{ruled_capacity};

    ghost Value = { TableId };

    ghost coded = { table_id_coded };

    ghost view = { λ p. p.queue.table.shared.table_id };

    ghost invariant = { λ p. ruled_capacity p.queue ≡ 1 };
}

/// A worker's claim, as its desk last learnt it.
#[derive(Clone, Copy, PartialEq, Eq)]
pub struct Claimed {
    pub person: Person,
    /// What the phase of the claim asks of the person's bid.
    pub ask: Ask,
}

/// One worker's side of a place: its number, its own table of prices, what it learnt when it last
/// put the book back, and its prepared offer.
#[derive(Drop)]
pub struct Desk {
    scaled: Arc<Scaled>,
    pass: DeskPass,
    known: Known,
    offer: Option<Offer>,
    // The candidates of a person, usually the claimed one, at the table or at lower prices.
    listed: Option<Listed>,
    // The number of past sessions, in all and since the table last caught up.
    sessions: u64,
    since: u64,
    // Looks that found no book, less books taken since.
    looks: u32,
}

impl Model for Desk {
    ghost use Rattle.std.specs.Prelude.{◌≡◌, []};
    ghost use Rattle.crossbeam_queue.specs.Passes.{view as pass_view};
    ghost use Rattle.std.specs.Arc.{arc_value};
    ghost use Rattle.async_workers.specs.Desk.{DeskData};

    ghost Value = { DeskData };

    ghost view = { λ d. record {
      base = arc_value d.scaled;
      place = d.pass.table_id;
      view = pass_view d.pass;
      known = d.known;
      offer = d.offer;
      sessions = d.sessions;
      since = d.since;
    } };

    ghost use Rattle.async_workers.specs.inside.Lists.{IsListed};

    ghost invariant = { λ d. (d.pass.me.1 ≡ []) × IsListed (arc_value d.scaled) d.known.table d.listed };
}

/// The book in hand, with the offer that its desk had prepared. The desk that took the book must
/// put it back into the place.
pub struct Held {
    book: BoxedBook,
    offer: Option<Offer>,
    // Whether the desk's table has caught up in this session.
    caught_up: bool,
}

impl Model for Held {
    ghost use Rattle.async_workers.specs.Desk.{HeldData};

    ghost Value = { HeldData };

    ghost view = { λ h. record { book = h.book; offer = h.offer; caught_up = h.caught_up } };
}

impl Held {
    /// The book.
    pub fn book(&self) -> &Book
        ensures { result.now ≡ self.now.book }
    {
        self.book.book()
    }

    /// Lends the book for a change.
    pub fn book_mut(&mut self) -> &mut Book
        ensures* lends { sem 𝓛 (LendsBook self.entry result) }
        ensures value { result.now ≡ self.old.book }
    {
        self.book.book_mut()
    }

    /// The offer that the desk had prepared, if it is still here.
    pub fn offer(&self) -> Option<Offer>
        ensures { result ≡ self.now.offer }
    {
        self.offer
    }
}
