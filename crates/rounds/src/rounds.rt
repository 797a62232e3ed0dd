// Rounds of offers over a book.
ghost use Rattle.std.specs.Prelude.{◌≡◌, ◌<◌, ◌≤ℤ◌, pos, false, ℕ, List, [], ◌∷◌, length, replicate, slice_index_or};
ghost use Rattle.std.specs.Prelude.{None, IfSome, IfNone, IfOk, IfErr, OnErr, OnOk};
ghost use Rattle.std.specs.Arc.{arc_value};
ghost use Rattle.assign_core.specs.Numbered.{IsNumber, numbered};
ghost use Rattle.scaled_values.specs.Scaled.{greatest_of};
ghost use Rattle.auction_book.specs.Book.{Holds, prices_of};
ghost use Rattle.candidates.specs.Candidates.{HaveCandidates};
ghost use Rattle.auction_book.specs.Changes.{claimed, released};
ghost use Rattle.auction_book.specs.Follows.{GoesOn};
ghost use Rattle.auction_book.specs.Free.{IsFree};
ghost use Rattle.auction_book.specs.Phases.{is_over};
ghost use Rattle.auction_book.specs.Submissions.{IsFitting};
ghost use Rattle.rounds.specs.Plain.{Finished, Halted};
ghost use Rattle.rounds.specs.Rounds.{plain_of, no_round_yet, IsAfterOffers, IsAtRest, IsBelowFloor, IsGoing, IsRound, book_after_bid, book_after_offers, waiting_offers};
ghost use Rattle.rounds.specs.inside.Books.{AreSubmitted, HaveOffered, IsClaimed};
ghost use Rattle.rounds.specs.inside.Similar.{AreSimilar};
ghost use Rattle.rounds.specs.Outcomes.{IsOfRounds, IsOutcome, IsProof, IsSolvedFrom};

use super::offers::{Alone, InPieces, LEAST_PAIRS, Offering};
use super::similar::SimilarPersons;
use assign_core::{GREATEST_FIRST_PRICE, Outcome, Person, Prices, SolveFault};
use auction_book::{Book, Claim, Refused, begin_next_if_over};
use bidder::{Bid, Offer};
use candidates::CandidateLists;
use hall_refuter::{Search, refute};
use scaled_values::Scaled;
use std::alloc::{AllocError, Global};
use std::marker::Model;
use std::sync::Arc;
use std::thread::Threads;

/// The result of a round.
#[derive(Clone, Copy)]
pub enum Round {
    /// No person waited.
    Over,
    /// No object has for this person a value of at least the floor.
    Halted(Person),
    More,
}

// Claims the front of the queue, if somebody waits.
fn claim_next(book: &mut Book, worker: u16) -> Option<Person>
    requires worker { IsNumber (length book.old.claims) worker }
    requires none { numbered book.old.claims worker None ≡ None }
    requires going { IsGoing book.old }
    ensures some { IfSome result (λ person. (rest : List ℕ) × (book.old.queue ≡ person ∷ rest)
        × (book.new ≡ claimed book.old worker) × IsGoing book.new) }
    ensures none { IfNone result ((book.old.queue ≡ []) × (book.new ≡ book.old)) }
{
    match book.claim(worker) {
        Claim::Person(person, _) => Some(person),
        _ => None,
    }
}

// Lets workers 1, 2, .. claim all who wait.
fn claim_all(book: &mut Book, persons: &mut Vec<Person>) -> Result<(), AllocError>
    requires { IsAtRest book.old }
    ensures claimed { OnOk result (IsClaimed book.old persons.new.items book.new) }
    ensures going { IsGoing book.new }
    ensures goes_on { GoesOn book.old book.new }
{
    persons.clear();
    let n = book.scaled().n();
    for i in 0..n {
        match claim_next(book, i + 1) {
            Some(person) => persons.push(person)?,
            None => break,
        }
    }
    Ok(())
}

// Submits a claimed person's bid of this phase.
fn submit_bid(book: &mut Book, worker: u16, bid: Bid) -> Result<(), AllocError>
    requires worker { IsNumber (length book.old.claims) worker }
    requires held { Holds book.old worker bid.person }
    requires phase { bid.phase ≡ book.old.ask.phase }
    requires fitting { IsFitting book.old bid }
    ensures book { OnOk result (book.new ≡ book_after_bid book.old worker bid) }
    ensures err { OnErr result (book.new ≡ released book.old worker bid.person) }
    ensures free { IsFree book.new }
{
    match book.submit(worker, bid) {
        Ok(_) => Ok(()),
        Err(Refused::TooLow(_)) => Ok(()),
        Err(Refused::Memory) => Err(AllocError),
        Err(Refused::NotClaimed) => unreachable!(),
        Err(Refused::WrongPhase) => unreachable!(),
    }
}

// The offer at a place.
fn next_offer(offers: &[Offer], place: usize) -> Offer
    requires { place < length offers.now }
    ensures { (d : _) → result ≡ slice_index_or offers.now place d }
{
    offers[place]
}

// Submits offers one by one, up to the first that is below the floor. Returns its person.
fn submit_all(book: &mut Book, offers: &[Offer]) -> Result<Option<Person>, AllocError>
    requires { (persons : List ℕ) × HaveOffered book.old persons offers.now }
    ensures submitted { IfOk result (λ below. AreSubmitted book.old offers.now below book.new) }
    ensures book { OnOk result (book.new ≡ book_after_offers offers.now 0 book.old) }
    ensures going { IsGoing book.new }
    ensures goes_on { GoesOn book.old book.new }
{
    for i in 0..offers.len() {
        match next_offer(offers, i) {
            Offer::Bid(bid) => submit_bid(book, i as u16 + 1, bid)?,
            Offer::Below(below) => return Ok(Some(below.person)),
        }
    }
    Ok(None)
}

// One round: all who wait make their offers from one table, and these are submitted one by one, up
// to the first that is below the floor. One of the persons who are alike makes the offer of all.
fn run_shared_round<O: Offering>(
    offering: &mut O,
    similar: &mut SimilarPersons,
    lists: &mut CandidateLists,
    book: &mut Book,
    persons: &mut Vec<Person>,
    offers: &mut Vec<Offer>,
) -> Result<Round, AllocError>
    requires ready { O.ready }
    requires rest { IsAtRest book.old }
    requires similar { AreSimilar book.old.base similar.old }
    requires lists { HaveCandidates book.old.base (prices_of book.old) lists.old }
    ensures round { IfOk result (λ came. IsRound book.old came book.new) }
    ensures persons { OnOk result (persons.new.items ≡ book.old.queue) }
    ensures offers { OnOk result (offers.new.items ≡ waiting_offers book.old) }
    ensures book { OnOk result (IsAfterOffers book.old offers.new.items book.new) }
    ensures going { IsGoing book.new }
    ensures goes_on { GoesOn book.old book.new }
    ensures similar { AreSimilar book.old.base similar.new }
    ensures lists { OnOk result (HaveCandidates book.old.base (prices_of book.new) lists.new) }
{
    claim_all(book, persons)?;
    if persons.is_empty() {
        offers.clear();
        return Ok(Round::Over);
    }
    let ask = book.ask();
    offering.begin(ask, persons.len());
    similar.make(
        offering,
        book.scaled(),
        book.prices(),
        ask,
        persons.as_slice(),
        lists,
        offers,
    )?;
    match submit_all(book, offers.as_slice())? {
        Some(person) => Ok(Round::Halted(person)),
        None => Ok(Round::More),
    }
}

/// The rounds of a problem, one by one: the persons who bid, and their offers. Persons with the
/// same row share a scan of it; no candidates are kept.
///
/// A contract sees the problem, the persons who bid in the last round, and their offers.
#[derive(Drop)]
pub struct Rounds {
    alloc: Global,
    scaled: Arc<Scaled>,
    similar: SimilarPersons,
    persons: Vec<Person>,
    offers: Vec<Offer>,
}

impl Model for Rounds {
    ghost use Rattle.std.specs.Arc.{arc_value};
    ghost use Rattle.rounds.specs.Rounds.{RoundsData};

    ghost Value = { RoundsData };

    ghost use Rattle.rounds.specs.inside.Similar.{AreSimilar};

    ghost view = { λ r. record {
      base = arc_value r.scaled;
      persons = r.persons.items;
      offers = r.offers.items;
    } };

    ghost invariant = { λ r. AreSimilar (arc_value r.scaled) r.similar };
}

impl Rounds {
    /// The rounds of a problem, before the first one. It searches the persons for equal rows.
    ///
    /// # Errors
    /// `AllocError` if memory is refused.
    pub fn new(alloc: Global, scaled: Arc<Scaled>) -> Result<Rounds, AllocError>
        ensures { IfOk result (λ rounds. rounds ≡ no_round_yet (arc_value scaled)) }
    {
        let similar = SimilarPersons::find(alloc, &scaled)?;
        Ok(Rounds {
            alloc,
            scaled,
            similar,
            persons: Vec::new(alloc),
            offers: Vec::new(alloc),
        })
    }

    /// One round over a book of the problem that is at rest. Workers 1, 2, .. claim all who wait,
    /// in the queue's order; these make their offers from the book's prices, and the offers are
    /// submitted in that order. An offer below the floor ends the round, and its person and those
    /// after it stay claimed. After any other round the book is at rest again. No new phase begins
    /// here.
    ///
    /// # Errors
    /// `AllocError` if memory is refused. Nothing says how far the round went: no price is lower
    /// and the book is going, but some persons may still be claimed. `Book::give_up` for each
    /// worker lets these wait again.
    pub fn run_round<O: Offering>(
        &mut self,
        offering: &mut O,
        book: &mut Book,
    ) -> Result<Round, AllocError>
        requires ready { O.ready }
        requires rest { IsAtRest book.old }
        requires problem { book.old.base ≡ self.old.base }
        ensures round { IfOk result (λ came. IsRound book.old came book.new) }
        ensures persons { OnOk result (self.new.persons ≡ book.old.queue) }
        ensures offers { OnOk result (self.new.offers ≡ waiting_offers book.old) }
        ensures book { OnOk result (IsAfterOffers book.old self.new.offers book.new) }
        ensures going { IsGoing book.new }
        ensures goes_on { GoesOn book.old book.new }
        ensures problem { self.new.base ≡ self.old.base }
    {
        let mut lists = CandidateLists::none(self.alloc);
        run_shared_round(
            offering,
            &mut self.similar,
            &mut lists,
            book,
            &mut self.persons,
            &mut self.offers,
        )
    }

    /// The persons who bid in the last round, in their order.
    pub fn persons(&self) -> &[Person]
        ensures { result.now ≡ self.now.persons }
    {
        self.persons.as_slice()
    }

    /// Their offers, in the same order.
    pub fn offers(&self) -> &[Offer]
        ensures { result.now ≡ self.now.offers }
    {
        self.offers.as_slice()
    }
}

// The answer in the last phase, when everybody is assigned.
fn finish(alloc: Global, book: &Book) -> Result<Outcome, AllocError>
    requires rest { IsAtRest book.now }
    requires queue { book.now.queue ≡ [] }
    requires last { is_over book.now ≡ false }
    ensures outcome { IfOk result (IsOutcome book.now.base (Finished (plain_of book.now))) }
    ensures proof { IfOk result (IsProof book.now.base) }
{
    match book.answer(alloc)? {
        Some(certificate) => Ok(Outcome::Best(certificate)),
        None => unreachable!(),
    }
}

// The Hall set of the persons that a person below the floor reaches. The search never finds an
// unowned object, since the floor is exact.
fn halt(alloc: Global, book: &Book, person: Person) -> Result<Outcome, AllocError>
    requires { IsBelowFloor book.now person }
    ensures outcome { IfOk result (IsOutcome book.now.base (Halted person (plain_of book.now))) }
    ensures proof { IfOk result (IsProof book.now.base) }
{
    match refute(alloc, book.scaled(), book.owners(), person)? {
        Search::Hall(hall) => Ok(Outcome::Hall(hall)),
        Search::Path(_) => unreachable!(),
    }
}

// Runs rounds from these prices up to their end.
fn run_rounds<O: Offering>(
    offering: &mut O,
    alloc: Global,
    scaled: Arc<Scaled>,
    prices: Prices,
) -> Result<Outcome, AllocError>
    requires ready { O.ready }
    requires long { length prices ≡ length (arc_value scaled).problem }
    requires low { greatest_of prices ≤ℤ GREATEST_FIRST_PRICE }
    ensures rounds { IfOk result (IsOfRounds (arc_value scaled) prices) }
    ensures proof { IfOk result (IsProof (arc_value scaled)) }
{
    // For the proof only: the prices are a table.
    let _table = prices.as_slice();
    let n = scaled.n();
    let mut similar = SimilarPersons::find(alloc, &scaled)?;
    let mut lists = CandidateLists::new(alloc, &scaled);
    let mut book = Book::open_from(alloc, scaled, prices, n)?;
    let mut persons = Vec::new(alloc);
    let mut offers = Vec::new(alloc);
    'rounds: loop {
        begin_next_if_over(alloc, &mut book)?;
        match run_shared_round(
            offering,
            &mut similar,
            &mut lists,
            &mut book,
            &mut persons,
            &mut offers,
        )? {
            Round::Over => return finish(alloc, &book),
            Round::Halted(person) => return halt(alloc, &book, person),
            Round::More => {}
        }
    }
}

/// Solves by rounds of offers as `solve_rounds_from` does, with `offering` as the maker of each
/// round's offers. The outcome is that of plain rounds for any maker.
///
/// # Errors
/// `Memory` if memory is refused.
pub fn solve_rounds_by<O: Offering>(
    offering: &mut O,
    alloc: Global,
    scaled: Arc<Scaled>,
    prices: Prices,
) -> Result<Outcome, SolveFault>
    requires ready { O.ready }
    requires long { length prices ≡ length (arc_value scaled).problem }
    requires low { greatest_of prices ≤ℤ GREATEST_FIRST_PRICE }
    ensures solved { IfOk result (IsSolvedFrom (arc_value scaled) prices) }
    ensures memory { IfErr result (λ fault. fault ≡ SolveFault.Memory) }
{
    Ok(run_rounds(offering, alloc, scaled, prices)?)
}

/// Solves by rounds of offers that begin at these prices, one for each object and each at most
/// `GREATEST_FIRST_PRICE`. The outcome is that of plain rounds, so it is the same for any number of
/// threads: an optimal assignment with prices that prove it if an assignment exists, and a Hall set
/// otherwise (Bertsekas, A distributed algorithm for the assignment problem, 1979; the rounds are
/// in Jacobi's form).
///
/// It returns, but first prices that are far apart, or a problem without an assignment, may cost
/// very many rounds. A round takes time linear in the pairs that its persons list. It takes memory
/// for the log of raises, and when more persons wait than in the rounds before; a new phase and the
/// end take some too.
///
/// # Errors
/// `Memory` if memory is refused.
pub fn solve_rounds_from(
    rt: &(impl Threads + Sync),
    alloc: Global,
    scaled: Arc<Scaled>,
    prices: Prices,
) -> Result<Outcome, SolveFault>
    requires long { length prices ≡ length (arc_value scaled).problem }
    requires low { greatest_of prices ≤ℤ GREATEST_FIRST_PRICE }
    ensures solved { IfOk result (IsSolvedFrom (arc_value scaled) prices) }
    ensures memory { IfErr result (λ fault. fault ≡ SolveFault.Memory) }
{
    let mut pieces = InPieces {
        rt,
        least: LEAST_PAIRS,
    };
    solve_rounds_by(&mut pieces, alloc, scaled, prices)
}

/// Solves by rounds of offers as `solve_rounds_from` does, with all first prices 0.
///
/// # Errors
/// `Memory` if memory is refused.
///
/// # Example
/// The body of `calling::solve_in_threads`:
/// ```
/// let scaled = Arc::new(alloc, scale(alloc, problem, sense)?)?;
/// match solve_rounds(rt, alloc, scaled) {
///     Ok(outcome) => Ok(outcome),
///     Err(_) => Err(AllocError),
/// }
/// ```
pub fn solve_rounds(
    rt: &(impl Threads + Sync),
    alloc: Global,
    scaled: Arc<Scaled>,
) -> Result<Outcome, SolveFault>
    ensures solved { IfOk result (λ outcome. let s = arc_value scaled in
        IsSolvedFrom s (replicate (length s.problem) (pos 0)) outcome) }
    ensures memory { IfErr result (λ fault. fault ≡ SolveFault.Memory) }
{
    let zeros = Prices::zeros(alloc, scaled.n())?;
    solve_rounds_from(rt, alloc, scaled, zeros)
}

/// Solves by rounds of offers as `solve_rounds_from` does, in the calling thread only, so that it
/// needs no handle. The outcome is the same.
///
/// # Errors
/// `Memory` if memory is refused.
pub fn solve_rounds_alone_from(
    alloc: Global,
    scaled: Arc<Scaled>,
    prices: Prices,
) -> Result<Outcome, SolveFault>
    requires long { length prices ≡ length (arc_value scaled).problem }
    requires low { greatest_of prices ≤ℤ GREATEST_FIRST_PRICE }
    ensures solved { IfOk result (IsSolvedFrom (arc_value scaled) prices) }
    ensures memory { IfErr result (λ fault. fault ≡ SolveFault.Memory) }
{
    solve_rounds_by(&mut Alone, alloc, scaled, prices)
}

/// Solves by rounds of offers in the calling thread only, with all first prices 0.
///
/// # Errors
/// `Memory` if memory is refused.
///
/// # Example
/// The body of `calling::solve_alone`:
/// ```
/// let scaled = Arc::new(alloc, scale(alloc, problem, sense)?)?;
/// match solve_rounds_alone(alloc, scaled) {
///     Ok(outcome) => Ok(outcome),
///     // The one fault of rounds is that memory was refused.
///     Err(_) => Err(AllocError),
/// }
/// ```
pub fn solve_rounds_alone(alloc: Global, scaled: Arc<Scaled>) -> Result<Outcome, SolveFault>
    ensures solved { IfOk result (λ outcome. let s = arc_value scaled in
        IsSolvedFrom s (replicate (length s.problem) (pos 0)) outcome) }
    ensures memory { IfErr result (λ fault. fault ≡ SolveFault.Memory) }
{
    let zeros = Prices::zeros(alloc, scaled.n())?;
    solve_rounds_alone_from(alloc, scaled, zeros)
}
