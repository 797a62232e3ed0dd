// The opening of a book.
ghost use Rattle.std.specs.Prelude.{◌≡◌, ◌<◌, ◌≤◌, ◌≤ℤ◌, pos, [], length, replicate, IfOk};
ghost use Rattle.std.specs.Arc.{arc_value};
ghost use Rattle.std.specs.VecDeque.{deque_capacity};
ghost use Rattle.scaled_values.specs.Scaled.{greatest_of};
ghost use Rattle.auction_book.specs.Free.{IsFree};
ghost use Rattle.auction_book.specs.Phases.{opened, persons};

use super::Book;
use assign_core::{GREATEST_FIRST_PRICE, Person, Price, Prices};
use bidder::Ask;
use candidates::CandidateLists;
use price_log::PriceLog;
use scaled_values::Scaled;
use std::alloc::{AllocError, Global};
use std::collections::VecDeque;
use std::sync::Arc;

// The greatest of some prices, or 0 of none.
pub(super) fn greatest(prices: &[Price]) -> Price
    ensures { result ≡ greatest_of prices.now }
{
    let Some((first, rest)) = prices.split_first() else {
        return 0;
    };
    let mut greatest = *first;
    for price in rest {
        greatest = greatest.max(*price);
    }
    greatest
}

// Persons 1, 2, .., n wait.
pub(super) fn queue_all(queue: &mut VecDeque<Person>, n: u16)
    requires empty { queue.old.items ≡ [] }
    requires room { n ≤ deque_capacity queue.old }
    ensures queue { queue.new.items ≡ persons n }
    ensures capacity { deque_capacity queue.new ≡ deque_capacity queue.old }
{
    for i in 0..n {
        queue.push_back_reserved(Person(i + 1));
    }
}

impl Book {
    /// A book at the start of a run with all prices 0, for at least one worker. The queue, the
    /// claims and the counts take all their memory here.
    ///
    /// # Errors
    /// `AllocError` if memory is refused.
    pub fn open(alloc: Global, scaled: Arc<Scaled>, workers: u16) -> Result<Book, AllocError>
        requires { 0 < workers }
        ensures book { IfOk result (λ b. let base = arc_value scaled in
            b ≡ opened base (replicate (length base.problem) (pos 0)) workers) }
        ensures free { IfOk result IsFree }
    {
        let prices = Prices::zeros(alloc, scaled.n())?;
        Book::open_from(alloc, scaled, prices, workers)
    }

    /// A book at the start of a run with these prices, one for each object and each at most
    /// `GREATEST_FIRST_PRICE`.
    ///
    /// # Errors
    /// `AllocError` if memory is refused.
    pub fn open_from(
        alloc: Global,
        scaled: Arc<Scaled>,
        prices: Prices,
        workers: u16,
    ) -> Result<Book, AllocError>
        requires workers { 0 < workers }
        requires long { length prices ≡ length (arc_value scaled).problem }
        requires low { greatest_of prices ≤ℤ GREATEST_FIRST_PRICE }
        ensures book { IfOk result (λ b. b ≡ opened (arc_value scaled) prices workers) }
        ensures free { IfOk result IsFree }
    {
        let n = scaled.n();
        let eps = scaled.first_eps();
        let p0 = greatest(prices.as_slice());
        let floor = scaled.floor(p0, eps);
        let owners = vec![in alloc; None; n as usize]?;
        let claims = vec![in alloc; None; workers as usize]?;
        let counts: Vec<u128> = vec![in alloc; 0; workers as usize]?;
        let taken: Vec<u128> = vec![in alloc; 0; workers as usize]?;
        let mut queue = VecDeque::with_capacity(alloc, n as usize)?;
        queue_all(&mut queue, n);
        let lists = CandidateLists::none(alloc);
        let start = prices.copy(alloc)?;
        let log = PriceLog::start(alloc, prices)?;
        Ok(Book {
            scaled,
            ask: Ask {
                phase: 1,
                eps,
                floor,
            },
            start,
            start_version: 0,
            owners,
            queue,
            claims,
            counts,
            taken,
            log,
            lists,
            refuted: None,
            stopped: false,
            owned: 0,
            workers,
        })
    }
}
