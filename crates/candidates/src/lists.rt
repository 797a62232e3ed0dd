// The candidates of all persons.
ghost use Rattle.std.specs.Prelude.{◌≡◌, ℤ, List, [], length, vec_len, ◌<◌, ◌≤◌, All, IfSome, MatchOption};
ghost use Rattle.assign_core.specs.Numbered.{IsNumber};
ghost use Rattle.assign_core.specs.Prices.{IsTable};
ghost use Rattle.assign_core.specs.Rows.{IsProblem};
ghost use Rattle.scaled_values.specs.Scaled.{ScaledProblem};
ghost use Rattle.bidder.specs.BestTwo.{IsBestTwo, best_two};
ghost use Rattle.bidder.specs.Offers.{IsAsk, IsOffer, IsSoundOffer, benefits_at, offer_of};
ghost use Rattle.candidates.specs.Candidates.{AreCandidates, FitAnyRow, HaveCandidates};

use super::list::Candidates;
use assign_core::{Person, Prices};
use bidder::{Ask, BestTwo, Offer, best_of, make_bid, make_bid_of};
use scaled_values::{Row, Scaled};
use std::alloc::Global;
use std::marker::Model;

/// Rows of at most as many pairs have no list, and are read whole each time.
pub const SHORT_ROW: usize = 96;

/// The candidates of persons 1, 2, .., while nobody has taken them.
#[derive(Drop)]
pub struct CandidateLists {
    lists: Vec<Option<Candidates>>,
}

impl Model for CandidateLists {
    ghost use Rattle.std.specs.Prelude.{List, Option};
    ghost use Rattle.candidates.specs.Candidates.{CandidateList};

    ghost Value = { List (Option CandidateList) };

    ghost view = { λ l. l.lists.items };
}

// Makes a person's candidates again, and finds the best two of its row.
fn refill(
    list: &mut Candidates,
    scaled: &Scaled,
    prices: &Prices,
    person: Person,
) -> Option<BestTwo>
    requires person { IsNumber (length scaled.now.problem) person }
    requires table { length prices.now ≡ length scaled.now.problem }
    requires candidates { AreCandidates (benefits_at scaled.now person) prices.now list.old }
    ensures candidates { AreCandidates (benefits_at scaled.now person) prices.now list.new }
    ensures best { MatchOption result (benefits_at scaled.now person ≡ [])
        (IsBestTwo (benefits_at scaled.now person) prices.now) }
    ensures only { result ≡ best_two (benefits_at scaled.now person) prices.now }
{
    match scaled.row(person) {
        Row::Full(benefits) => list.refill_full(benefits, prices),
        Row::Pairs(pairs) => list.refill(pairs, prices),
    }
}

// The best two of a person's row, from its candidates where they show it.
fn best_with(
    list: &mut Candidates,
    scaled: &Scaled,
    prices: &Prices,
    person: Person,
) -> Option<BestTwo>
    requires person { IsNumber (length scaled.now.problem) person }
    requires table { length prices.now ≡ length scaled.now.problem }
    requires candidates { AreCandidates (benefits_at scaled.now person) prices.now list.old }
    ensures candidates { AreCandidates (benefits_at scaled.now person) prices.now list.new }
    ensures best { MatchOption result (benefits_at scaled.now person ≡ [])
        (IsBestTwo (benefits_at scaled.now person) prices.now) }
    ensures only { result ≡ best_two (benefits_at scaled.now person) prices.now }
{
    // For the proof only: the rows are those of a problem.
    let _n = scaled.n();
    if !list.is_waiting() {
        if let Some(best) = list.best_two_listed(prices) {
            list.count_answer();
            return Some(best);
        }
    }
    if list.is_due() {
        return refill(list, scaled, prices, person);
    }
    best_of(scaled, prices, person)
}

/// The offer of a person under a table of prices, as `make_bid` gives it. The person's candidates
/// spare a scan of its row where they show its best two, and are made again where they don't.
pub fn make_bid_with(
    list: &mut Candidates,
    scaled: &Scaled,
    prices: &Prices,
    version: u128,
    ask: Ask,
    person: Person,
) -> Offer
    requires person { IsNumber (length scaled.now.problem) person }
    requires table { length prices.now ≡ length scaled.now.problem }
    requires ask { IsAsk scaled.now ask }
    requires candidates { AreCandidates (benefits_at scaled.now person) prices.now list.old }
    ensures offer { IsOffer scaled.now prices.now version ask person result }
    ensures only { result ≡ offer_of scaled.now prices.now version ask person }
    ensures sound { IsSoundOffer scaled.now ask prices.now result }
    ensures candidates { AreCandidates (benefits_at scaled.now person) prices.now list.new }
{
    let found = best_with(list, scaled, prices, person);
    make_bid_of(scaled, prices, version, ask, person, found)
}

// Whether the person's row is long enough for a list.
fn is_long(scaled: &Scaled, person: Person) -> bool
    requires { IsNumber (length scaled.now.problem) person }
{
    scaled.problem().row(person).len() > SHORT_ROW
}

// Whether any row is long enough for a list.
fn has_long_row(scaled: &Scaled) -> bool {
    for before in 0..scaled.n() {
        if is_long(scaled, Person(before + 1)) {
            return true;
        }
    }
    false
}

// New candidates for a person, or none if its row is short or memory is refused.
fn new_list(alloc: Global, scaled: &Scaled, person: Person) -> Option<Candidates>
    requires { IsNumber (length scaled.now.problem) person }
    ensures { IfSome result FitAnyRow }
{
    if !is_long(scaled, person) {
        return None;
    }
    match Candidates::new(alloc) {
        Ok(list) => Some(list),
        Err(_) => None,
    }
}

// A list for each person with a long row: as many as memory allows. Where all rows are short, no
// session shall touch lists.
fn fill(alloc: Global, scaled: &Scaled, lists: &mut Vec<Option<Candidates>>)
    requires empty { lists.old.items ≡ [] }
    ensures count { vec_len lists.new ≤ length scaled.now.problem }
    ensures each { All (λ list. IfSome list FitAnyRow) lists.new.items }
{
    if !has_long_row(scaled) {
        return;
    }
    for made in 0..scaled.n() {
        if lists
            .push(new_list(alloc, scaled, Person(made + 1)))
            .is_err()
        {
            return;
        }
    }
}

// Whether candidates wait for further bids. They then stay where they are.
fn rests(list: &mut Option<Candidates>) -> bool
    ensures { list.new ≡ list.old }
{
    match list {
        Some(list) => list.rests(),
        None => false,
    }
}

impl CandidateLists {
    /// No lists.
    pub fn none(alloc: Global) -> CandidateLists
        ensures { (s : ScaledProblem) (prices : List ℤ) → HaveCandidates s prices result }
    {
        CandidateLists {
            lists: Vec::new(alloc),
        }
    }

    /// Lists for persons 1, 2, .. of a problem: as many as memory allows.
    pub fn new(alloc: Global, scaled: &Scaled) -> CandidateLists
        ensures { (prices : List ℤ) → IsTable prices → length prices ≡ length scaled.now.problem
            → HaveCandidates scaled.now prices result }
    {
        // For the proof only: the rows are those of a problem.
        let _n = scaled.n();
        let mut lists = Vec::new(alloc);
        fill(alloc, scaled, &mut lists);
        CandidateLists { lists }
    }

    /// Whether there is room for any lists: not where all rows are short.
    pub fn has_room(&self) -> bool {
        !self.lists.is_empty()
    }

    /// Takes a person's candidates, if they are there and don't wait for further bids.
    pub fn take(&mut self, person: Person) -> Option<Candidates>
        requires { 0 < person }
        ensures taken { (s : ScaledProblem) (prices : List ℤ) → HaveCandidates s prices self.old
            → IfSome result (AreCandidates (benefits_at s person) prices) }
        ensures lists { (s : ScaledProblem) (prices : List ℤ) → HaveCandidates s prices self.old
            → HaveCandidates s prices self.new }
    {
        let place = person.place();
        if place >= self.lists.len() {
            return None;
        }
        if rests(&mut self.lists[place]) {
            return None;
        }
        self.lists[place].take()
    }

    /// Puts a person's candidates back.
    pub fn put(&mut self, person: Person, list: Candidates)
        requires { 0 < person }
        ensures { (s : ScaledProblem) (prices : List ℤ) → HaveCandidates s prices self.old
            → AreCandidates (benefits_at s person) prices list → HaveCandidates s prices self.new }
    {
        let place = person.place();
        if place < self.lists.len() {
            self.lists[place] = Some(list);
        }
    }

    /// The offer of a person under a table of prices, as `make_bid` gives it, with the person's
    /// candidates.
    pub fn make_bid(
        &mut self,
        scaled: &Scaled,
        prices: &Prices,
        version: u128,
        ask: Ask,
        person: Person,
    ) -> Offer
        requires person { IsNumber (length scaled.now.problem) person }
        requires table { length prices.now ≡ length scaled.now.problem }
        requires ask { IsAsk scaled.now ask }
        requires lists { HaveCandidates scaled.now prices.now self.old }
        ensures offer { IsOffer scaled.now prices.now version ask person result }
        ensures only { result ≡ offer_of scaled.now prices.now version ask person }
        ensures sound { IsSoundOffer scaled.now ask prices.now result }
        ensures lists { HaveCandidates scaled.now prices.now self.new }
    {
        let Some(mut list) = self.take(person) else {
            return make_bid(scaled, prices, version, ask, person);
        };
        let offer = make_bid_with(&mut list, scaled, prices, version, ask, person);
        self.put(person, list);
        offer
    }
}
