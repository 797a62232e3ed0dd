// A book that workers share: turns in one thread, and threads of workers.
mod beside;
mod drawn;
mod scripts;
mod whole_runs;
mod worked;

use auction_book::Book;
use std::alloc::{AllocError, Global};

// The number of bids of workers 1, 2, .. that a book has accepted.
pub(crate) fn accepted_by(alloc: Global, book: &Book) -> Result<Vec<u128>, AllocError> {
    let mut accepted = Vec::new(alloc);
    for worker in 0..book.workers() {
        accepted.push(book.accepted_by(worker + 1))?;
    }
    Ok(accepted)
}
