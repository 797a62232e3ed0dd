// How workers' tables catch up.
ghost use Rattle.std.specs.Prelude.{◌≡◌, ◌≤◌, length};
ghost use Rattle.assign_core.specs.Numbered.{IsNumber};
ghost use Rattle.price_log.specs.History.{IsEarlier, last_version};
ghost use Rattle.auction_book.specs.Book.{prices_of, version_of};
ghost use Rattle.auction_book.specs.Changes.{caught_up, least_taken, trimmed_to};
ghost use Rattle.auction_book.specs.Free.{IsFree};

use super::Book;
use assign_core::Prices;
use price_log::PriceLog;

// The least of the versions taken, which are at most `now`.
fn least_of(taken: &[u128], now: u128) -> u128
    ensures { result ≡ least_taken taken.now now }
{
    let mut least = now;
    for version in taken {
        least = least.min(*version);
    }
    least
}

// Makes the log forget what is before a version, unless it already has.
fn trim_to(log: &mut PriceLog, version: u128)
    requires { version ≤ last_version log.old }
    ensures { log.new ≡ trimmed_to log.old version }
{
    if log.first_kept() <= version {
        log.trim(version);
    }
}

impl Book {
    /// Makes a worker's table and its version current, and notes that the worker took them. The log
    /// then forgets the versions before the least that any worker took. The time is linear in the
    /// number of workers plus the raises since the table's version, or plus n if the log no longer
    /// reaches this version. It takes no memory.
    pub fn catch_up(&mut self, worker: u16, table: &mut Prices, version: &mut u128)
        requires worker { IsNumber (length self.old.claims) worker }
        requires earlier { IsEarlier self.old.log table.old version.old }
        ensures book { self.new ≡ caught_up self.old worker }
        ensures table { table.new ≡ prices_of self.old }
        ensures version { version.new ≡ version_of self.old }
        ensures free { IsFree self.new }
    {
        self.log.catch_up(table, version);
        self.taken[worker as usize - 1] = *version;
        let least = least_of(self.taken.as_slice(), *version);
        trim_to(&mut self.log, least);
    }
}
