// Candidates that a book keeps.
use assign_core::{Person, Sense};
use auction_book::Book;
use std::alloc::{AllocError, Global};
use std::test::Fail;
use test_helpers::{drawn_pairs, scaled_of, size};

// Whether person 1's candidates are in a book: before it keeps lists, then, once they are taken, and
// once they are back.
fn seen_lists(alloc: Global, n: u16) -> Result<[bool; 4], AllocError> {
    let pairs = drawn_pairs(alloc, &mut 7, n, 4, 100)?;
    let scaled = scaled_of(alloc, size(n), pairs.as_slice(), Sense::Min)?;
    let mut book = Book::open(alloc, scaled, 1)?;
    let none = book.take_list(Person(1)).is_some();
    book.keep_lists(alloc);
    let Some(list) = book.take_list(Person(1)) else {
        return Ok([none, false, false, false]);
    };
    let taken = book.take_list(Person(1)).is_some();
    book.put_list(Person(1), list);
    Ok([none, true, taken, book.take_list(Person(1)).is_some()])
}

#[test]
fn long_rows_have_lists(rt: HostRuntime) -> Result<(), Fail> {
    assert_eq!(rt; seen_lists(rt.alloc(), 97)?, [false, true, false, true]);
    assert_eq!(rt; seen_lists(rt.alloc(), 96)?, [false, false, false, false]);
    Ok(())
}
