// A book on the heap, so that only one word moves through the place.
ghost use Rattle.std.specs.Prelude.{◌≡◌, IfOk};
ghost use Rattle.std.specs.Borrow.{sem};
ghost use Rattle.async_workers.specs.inside.Boxed.{LendsBoxed};

use auction_book::Book;
use std::alloc::{AllocError, Global};
use std::marker::Model;

/// A book on the heap. A contract sees the book.
#[derive(Drop)]
pub struct BoxedBook {
    inner: Box<Book>,
}

impl Model for BoxedBook {
    ghost use Rattle.auction_book.specs.Book.{BookData};

    ghost Value = { BookData };

    ghost view = { λ b. b.inner.value };
}

impl BoxedBook {
    pub fn new(alloc: Global, book: Book) -> Result<BoxedBook, AllocError>
        ensures { IfOk result (λ b. b ≡ book) }
    {
        Ok(BoxedBook {
            inner: Box::new(alloc, book)?,
        })
    }

    pub fn into_book(self) -> Book
        ensures { result ≡ self }
    {
        let BoxedBook { inner } = self;
        Box::into_inner(inner)
    }

    pub fn book(&self) -> &Book
        ensures { result.now ≡ self.now }
    {
        &self.inner
    }

    pub fn book_mut(&mut self) -> &mut Book
        ensures* lends { sem 𝓛 (LendsBoxed self.entry result) }
        ensures value { result.now ≡ self.old }
    {
        &mut self.inner
    }
}
