// The parts of a book that tests compare.
use assign_core::{Object, Person, Price};
use auction_book::Book;
use std::alloc::{AllocError, Global};

// The persons who wait, the next one first.
pub(crate) fn waiting(alloc: Global, book: &Book) -> Result<Vec<Person>, AllocError> {
    let mut persons = Vec::new(alloc);
    for person in book.waiting().iter() {
        persons.push(*person)?;
    }
    Ok(persons)
}

// Whether the answer has these objects and prices.
pub(crate) fn answers(
    alloc: Global,
    book: &Book,
    objects: &[Object],
    prices: &[Price],
) -> Result<bool, AllocError> {
    match book.answer(alloc)? {
        Some(found) => {
            Ok(found.assignment.objects() == objects && found.prices.as_slice() == prices)
        }
        None => Ok(false),
    }
}

// Whether this Hall set is recorded.
pub(crate) fn records(book: &Book, persons: &[Person], objects: &[Object]) -> bool {
    match book.refuted() {
        Some(hall) => hall.persons() == persons && hall.objects() == objects,
        None => false,
    }
}
