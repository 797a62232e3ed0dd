// The offers of a round, from one table of prices.
ghost use Rattle.std.specs.Prelude.{◌≡◌, ℕ, ℤ, List, ◌+◌, ◌<◌, ◌≤◌, length, All, IfOk, IfSome, OnOk, slice_index_or};
ghost use Rattle.assign_core.specs.Numbered.{IsNumber};
ghost use Rattle.scaled_values.specs.Scaled.{ScaledProblem};
ghost use Rattle.bidder.specs.declared.offers.Offer.{Offer};
ghost use Rattle.bidder.specs.Offers.{IsAsk, benefits_at, offer_of};
ghost use Rattle.candidates.specs.Candidates.{AreCandidates, HaveCandidates};
ghost use Rattle.rounds.specs.Offers.{AreMade, CanOffer, offers_of};
ghost use Rattle.rounds.specs.inside.Places.{ArePlaced, AreFilled};

use assign_core::{Person, Prices};
use bidder::{Ask, BelowFloor, Offer, make_bid};
use candidates::{CandidateLists, Candidates, make_bid_with};
use rayon::prelude::*;
use scaled_values::{LEAST_PAIRS_IN_PARTS, Scaled};
use std::alloc::{AllocError, Global};
use std::thread::Threads;

/// The least number of listed pairs of a piece. A round with at least four times as many is cut
/// into pieces, each for a thread of its own; the calling thread computes a smaller one. Pieces
/// have equally many persons, so a piece whose persons list less has fewer pairs, and the last
/// piece may be short. A piece takes a millisecond or more: next to other work a round waits for
/// the thread that starts last.
pub const LEAST_PAIRS: usize = LEAST_PAIRS_IN_PARTS;

// The content of a buffer before it is filled.
const NOTHING: Offer = Offer::Below(BelowFloor {
    person: Person(0),
    phase: 0,
});

// The place of an offer in a round that is cut into pieces, with the candidates of its person.
#[derive(Drop)]
struct Place {
    offer: Offer,
    list: Option<Candidates>,
}

// Makes a person's offer, with its candidates if they are there.
fn make_at(place: &mut Place, scaled: &Scaled, prices: &Prices, ask: Ask, person: Person)
    requires person { IsNumber (length scaled.now.problem) person }
    requires table { length prices.now ≡ length scaled.now.problem }
    requires ask { IsAsk scaled.now ask }
    requires list { IfSome place.old.list (AreCandidates (benefits_at scaled.now person) prices.now) }
    ensures offer { place.new.offer ≡ offer_of scaled.now prices.now 0 ask person }
    ensures list { IfSome place.new.list (AreCandidates (benefits_at scaled.now person) prices.now) }
{
    place.offer = match &mut place.list {
        Some(list) => make_bid_with(list, scaled, prices, 0, ask, person),
        None => make_bid(scaled, prices, 0, ask, person),
    };
}

// Makes the offers of the persons from a place on.
fn fill_from(
    scaled: &Scaled,
    prices: &Prices,
    ask: Ask,
    persons: &[Person],
    start: usize,
    places: &mut [Place],
)
    requires within { start + length places.old ≤ length persons.now }
    requires can { CanOffer scaled.now prices.now ask persons.now }
    requires lists { ArePlaced scaled.now prices.now persons.now start places.old }
    ensures lists { ArePlaced scaled.now prices.now persons.now start places.new }
    ensures offers { AreFilled scaled.now prices.now ask persons.now start places.new }
{
    for i in 0..places.len() {
        make_at(&mut places[i], scaled, prices, ask, persons[start + i]);
    }
}

// A place for each person, with the person's candidates.
fn places_of(
    persons: &[Person],
    alloc: Global,
    lists: &mut CandidateLists,
) -> Result<Vec<Place>, AllocError>
    requires persons { All (λ person. 0 < person) persons.now }
    ensures long { IfOk result (λ places. length places.items ≡ length persons.now) }
    ensures lists { (s : ScaledProblem) (prices : List ℤ) → HaveCandidates s prices lists.old
        → HaveCandidates s prices lists.new }
    ensures placed { IfOk result (λ places. (s : ScaledProblem) (prices : List ℤ)
        → HaveCandidates s prices lists.old → ArePlaced s prices persons.now 0 places.items) }
{
    let mut places = Vec::with_capacity(alloc, persons.len())?;
    for i in 0..persons.len() {
        let list = lists.take(persons[i]);
        places.push(Place {
            offer: NOTHING,
            list,
        })?;
    }
    Ok(places)
}

// Gives a person's candidates back.
fn give_back(place: &mut Place, person: Person, lists: &mut CandidateLists) -> Offer
    requires { 0 < person }
    ensures offer { result ≡ place.old.offer }
    ensures lists { (s : ScaledProblem) (prices : List ℤ) → HaveCandidates s prices lists.old
        → IfSome place.old.list (AreCandidates (benefits_at s person) prices)
        → HaveCandidates s prices lists.new }
{
    if let Some(list) = place.list.take() {
        lists.put(person, list);
    }
    place.offer
}

// Gives the candidates back, and hands the offers out.
fn hand_back(
    places: &mut [Place],
    persons: &[Person],
    lists: &mut CandidateLists,
    offers: &mut [Offer],
)
    requires places { length places.old ≡ length persons.now }
    requires offers { length offers.old ≡ length persons.now }
    requires persons { All (λ person. 0 < person) persons.now }
    ensures offers { (k : ℕ) (d : Offer) (e : Place) → k < length persons.now
        → slice_index_or offers.new k d ≡ (slice_index_or places.old k e).offer }
    ensures lists { (s : ScaledProblem) (prices : List ℤ) → HaveCandidates s prices lists.old
        → ArePlaced s prices persons.now 0 places.old → HaveCandidates s prices lists.new }
{
    for i in 0..offers.len() {
        offers[i] = give_back(&mut places[i], persons[i], lists);
    }
}

// The offers of the persons, made by several threads in pieces of this many persons.
fn fill_pieces(
    rt: &(impl Threads + Sync),
    alloc: Global,
    piece: usize,
    scaled: &Scaled,
    prices: &Prices,
    ask: Ask,
    persons: &[Person],
    lists: &mut CandidateLists,
    offers: &mut [Offer],
) -> Result<(), AllocError>
    requires piece { 0 < piece }
    requires long { length offers.old ≡ length persons.now }
    requires can { CanOffer scaled.now prices.now ask persons.now }
    requires lists { HaveCandidates scaled.now prices.now lists.old }
    ensures offers { OnOk result (offers.new ≡ offers_of scaled.now prices.now ask persons.now) }
    ensures lists { HaveCandidates scaled.now prices.now lists.new }
{
    let mut places = places_of(persons, alloc, lists)?;
    par_chunks_mut_for_each(
        rt,
        places.as_mut_slice(),
        piece,
        |start: usize, part: &mut [Place]|
            requires { (start + length part.old ≤ length persons.now)
                × CanOffer scaled.now prices.now ask persons.now
                × ArePlaced scaled.now prices.now persons.now start part.old }
            ensures { (length part.new ≡ length part.old)
                × ArePlaced scaled.entry.now prices.entry.now persons.entry.now start part.new
                × AreFilled scaled.entry.now prices.entry.now ask persons.entry.now start part.new }
        { fill_from(scaled, prices, ask, persons, start, part) },
    );
    hand_back(places.as_mut_slice(), persons, lists, offers);
    Ok(())
}

// The offers of the persons, made by the calling thread.
fn fill_here(
    scaled: &Scaled,
    prices: &Prices,
    ask: Ask,
    persons: &[Person],
    lists: &mut CandidateLists,
    offers: &mut [Offer],
)
    requires long { length offers.old ≡ length persons.now }
    requires can { CanOffer scaled.now prices.now ask persons.now }
    requires lists { HaveCandidates scaled.now prices.now lists.old }
    ensures offers { offers.new ≡ offers_of scaled.now prices.now ask persons.now }
    ensures lists { HaveCandidates scaled.now prices.now lists.new }
{
    for i in 0..offers.len() {
        offers[i] = lists.make_bid(scaled, prices, 0, ask, persons[i]);
    }
}

// The number of pairs that the persons list, at most the greatest `usize`.
fn pairs_of(scaled: &Scaled, persons: &[Person]) -> usize
    requires { All (IsNumber (length scaled.now.problem)) persons.now }
{
    let mut pairs: usize = 0;
    for person in persons {
        pairs = pairs.saturating_add(scaled.problem().row(*person).len());
    }
    pairs
}

// The number of persons of a piece: as many as list `least` pairs or more, if all list equally
// many; all persons if these list less than four times as many.
fn piece_of(persons: usize, pairs: usize, least: usize) -> usize
    ensures { 0 < result }
{
    if pairs / 4 < least {
        return persons.max(1);
    }
    let pieces = pairs / least.max(1);
    persons.div_ceil(pieces.max(1)).max(1)
}

/// Writes the offers of the persons from one table, in their order, into a buffer that is reused.
/// It starts threads if the persons list at least four times `least` pairs, one for a piece of
/// about `least` pairs or more. Rounds keep no versions: the version of each bid is 0.
pub fn make_offers(
    rt: &(impl Threads + Sync),
    least: usize,
    scaled: &Scaled,
    prices: &Prices,
    ask: Ask,
    persons: &[Person],
    lists: &mut CandidateLists,
    offers: &mut Vec<Offer>,
) -> Result<(), AllocError>
    requires can { CanOffer scaled.now prices.now ask persons.now }
    requires lists { HaveCandidates scaled.now prices.now lists.old }
    ensures made { AreMade scaled.now prices.now ask persons.now result offers.new.items }
    ensures lists { HaveCandidates scaled.now prices.now lists.new }
{
    offers.resize(persons.len(), NOTHING)?;
    let piece = piece_of(persons.len(), pairs_of(scaled, persons), least);
    if persons.len() <= piece {
        fill_here(scaled, prices, ask, persons, lists, offers.as_mut_slice());
        return Ok(());
    }
    let alloc = *offers.allocator();
    fill_pieces(
        rt,
        alloc,
        piece,
        scaled,
        prices,
        ask,
        persons,
        lists,
        offers.as_mut_slice(),
    )
}

/// Makes the offers of a round.
pub trait Offering {
    /// What it needs to make them.
    ghost ready: { Type 0 };

    /// Called when a round begins, with the number of persons who wait. One of the persons known to
    /// have the same row makes the offer of all, so `make` may get fewer persons. Does nothing by
    /// default.
    fn begin(&mut self, _ask: Ask, _waiting: usize) {}

    /// Writes the offers of the persons from one table, in their order, into a buffer that is
    /// reused. The candidates of persons may spare scans, and change no offer.
    fn make(
        &mut self,
        scaled: &Scaled,
        prices: &Prices,
        ask: Ask,
        persons: &[Person],
        lists: &mut CandidateLists,
        offers: &mut Vec<Offer>,
    ) -> Result<(), AllocError>
        requires ready { ready }
        requires can { CanOffer scaled.now prices.now ask persons.now }
        requires lists { HaveCandidates scaled.now prices.now lists.old }
        ensures made { AreMade scaled.now prices.now ask persons.now result offers.new.items }
        ensures lists { HaveCandidates scaled.now prices.now lists.new };
}

/// The calling thread makes all offers.
#[derive(Clone, Copy)]
pub struct Alone;

impl Offering for Alone {
    ghost ready = { Unit };

    fn make(
        &mut self,
        scaled: &Scaled,
        prices: &Prices,
        ask: Ask,
        persons: &[Person],
        lists: &mut CandidateLists,
        offers: &mut Vec<Offer>,
    ) -> Result<(), AllocError> {
        offers.resize(persons.len(), NOTHING)?;
        fill_here(scaled, prices, ask, persons, lists, offers.as_mut_slice());
        Ok(())
    }
}

/// Threads make the offers, each those of a piece of about `least` listed pairs or more.
#[derive(Clone, Copy)]
pub struct InPieces<'a, R> {
    pub rt: &'a R,
    pub least: usize,
}

impl<R: Threads + Sync> Offering for InPieces<'_, R> {
    ghost use Rattle.std.specs.Thread.{IsSync};

    ghost ready = { IsSync R.row };

    fn make(
        &mut self,
        scaled: &Scaled,
        prices: &Prices,
        ask: Ask,
        persons: &[Person],
        lists: &mut CandidateLists,
        offers: &mut Vec<Offer>,
    ) -> Result<(), AllocError> {
        make_offers(
            self.rt, self.least, scaled, prices, ask, persons, lists, offers,
        )
    }
}
