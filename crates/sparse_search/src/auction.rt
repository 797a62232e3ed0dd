// The auction with slackness (Bertsekas 1979), a phase at a time: persons bid from a queue, and a price
// rises by the gap of the two best values and the slackness.
use super::market::Market;
use super::problem::{Pair, Scaled};
use super::row::{Two, two_best};
use search_base::{ArcScans, NOBODY, Valued, at, place_at, put, select};
use std::alloc::{AllocError, Global};

// So few unowned objects that are too dear are left to searches: those who are put out for them fight long.
const FEW_DEARER: usize = 32;

// Beyond this price sums could leave the range.
const HIGHEST_PRICE: i64 = 1 << 60;

/// Persons in the order in which they bid: a ring.
#[derive(Drop)]
pub struct Queue {
    persons: Vec<u32>,
    first: usize,
    next: usize,
    waiting: usize,
}

/// What a phase of the auction goes by.
#[derive(Clone, Copy)]
pub struct Terms {
    pub slackness: i64,
    // How much a price rises, with the slackness, where a person lists a single object.
    pub lone_raise: i64,
}

/// What was read ahead of its use, so that it is in the cache by then. No answer depends on it.
#[derive(Clone, Copy)]
pub struct Ahead {
    pub objects: u32,
}

#[inline(always)]
fn object_at(row: &[Pair], place: usize) -> u32 {
    match row.get(place) {
        Some(pair) => pair.object,
        None => 0,
    }
}

impl Ahead {
    // The beginning, the middle and the end of a row.
    #[inline(always)]
    fn read(&mut self, row: &[Pair]) {
        let (first, last) = (object_at(row, 0), object_at(row, row.len().wrapping_sub(1)));
        self.objects = self.objects ^ first ^ object_at(row, row.len() / 2) ^ last;
    }
}

impl Queue {
    /// The persons without an object, in the order of their numbers.
    pub fn of(alloc: Global, market: &Market) -> Result<Queue, AllocError> {
        let mut persons = market.unassigned(alloc)?;
        let waiting = persons.len();
        let count = market.objects.len();
        persons.resize(count, NOBODY)?;
        Ok(Queue {
            persons,
            first: 0,
            next: if waiting < count { waiting } else { 0 },
            waiting,
        })
    }

    pub fn is_empty(&self) -> bool {
        self.waiting == 0
    }

    #[inline(always)]
    pub fn pop(&mut self) -> Option<u32> {
        if self.waiting == 0 {
            return None;
        }
        let person = self.persons.get(self.first).copied();
        self.waiting = self.waiting.wrapping_sub(1);
        self.first = self.after(self.first);
        person
    }

    #[inline(always)]
    pub fn push(&mut self, person: u32) {
        let place = self.next;
        if place < self.persons.len() {
            self.persons[place] = person;
        }
        self.waiting = self.waiting.wrapping_add(1);
        self.next = self.after(place);
    }

    /// The person after the next one.
    #[inline(always)]
    pub fn second(&self) -> u32 {
        let place = self.after(self.first);
        self.persons.get(place).copied().unwrap_or(NOBODY)
    }

    #[inline(always)]
    fn after(&self, place: usize) -> usize {
        let next = place.wrapping_add(1);
        if next < self.persons.len() { next } else { 0 }
    }
}

// What came of a bid.
#[derive(Clone, Copy)]
enum Came {
    // This person lost the object, or nobody.
    Taken(u32),
    // No object was listed, or its price left the range.
    Failed,
}

// The price rises, and the person gets the object.
#[inline(always)]
fn take(
    prices: &mut [i64],
    owners: &mut [u32],
    objects: &mut [u32],
    person: u32,
    two: Two,
    terms: Terms,
) -> Came {
    let place = two.object as usize;
    if place >= prices.len() || place >= owners.len() {
        return Came::Failed;
    }
    let gap = two.gap().unwrap_or(terms.lone_raise);
    let price = prices[place].wrapping_add(gap.wrapping_add(terms.slackness));
    prices[place] = price;
    let evicted = owners[place];
    owners[place] = person;
    put(objects, evicted, NOBODY);
    put(objects, person, two.object);
    if price > HIGHEST_PRICE {
        return Came::Failed;
    }
    Came::Taken(evicted)
}

/// Bids of those who wait, and of those who lose their objects, at most so many. Returns how many; the
/// greatest number if a bid failed.
pub fn bid_from_queue(
    scaled: Scaled<'_>,
    market: &mut Market,
    queue: &mut Queue,
    terms: Terms,
    most: u64,
    arc_scans: &mut ArcScans,
    ahead: &mut Ahead,
) -> u64 {
    let prices = market.prices.as_mut_slice();
    let owners = market.owners.as_mut_slice();
    let objects = market.objects.as_mut_slice();
    for made in 0..most {
        let Some(person) = queue.pop() else {
            return made;
        };
        ahead.read(scaled.problem.row(queue.second()));
        let row = scaled.problem.row(person);
        arc_scans.add(row.len());
        let two = two_best(row, prices, scaled.shift);
        match take(prices, owners, objects, person, two, terms) {
            Came::Failed => return u64::MAX,
            Came::Taken(NOBODY) => {}
            Came::Taken(evicted) => queue.push(evicted),
        }
        if arc_scans.is_spent() {
            return made + 1;
        }
    }
    most
}

// A price, of which less is better.
#[derive(Clone, Copy)]
struct Price(i64);

impl Valued for Price {
    fn value(&self) -> i64 {
        self.0
    }
}

/// The entry at this place of the sorted prices.
pub fn price_at(alloc: Global, prices: &[i64], place: usize) -> Result<i64, AllocError> {
    let mut sorted = Vec::new(alloc);
    for price in prices {
        sorted.push(Price(*price))?;
    }
    select(sorted.as_mut_slice(), place);
    Ok(sorted.get(place).map_or(0, |price| price.0))
}

// How many unowned objects are dearer than this.
fn count_dearer(market: &Market, price: i64) -> usize {
    let mut count = 0usize;
    for (own, owner) in market.prices.iter().zip(&market.owners) {
        if *owner == NOBODY && *own > price {
            count = count.wrapping_add(1);
        }
    }
    count
}

// A dummy's bid for an object below this price. Returns whether somebody loses it.
fn outbid(market: &mut Market, object: u32, price: i64, raised: i64) -> bool {
    let place = object as usize;
    if place >= market.prices.len() || market.prices[place] >= price {
        return false;
    }
    market.prices[place] = raised;
    let owner = at(market.owners.as_slice(), object);
    market.leave(owner);
    owner != NOBODY
}

/// Fewer persons than objects: dummies, who are assigned by the cheapest objects, bid these up to the
/// price of the next one, if an unowned object is dearer. Their owners wait again. Returns whether
/// somebody does.
pub fn bid_for_dummies(
    alloc: Global,
    market: &mut Market,
    slackness: i64,
) -> Result<bool, AllocError> {
    let dummies = market.owners.len().saturating_sub(market.objects.len());
    let price = price_at(alloc, market.prices.as_slice(), dummies)?;
    let raised = price.wrapping_add(slackness);
    if count_dearer(market, raised) <= FEW_DEARER {
        return Ok(false);
    }
    let mut is_anybody_out = false;
    for k in 0..market.prices.len() {
        is_anybody_out = outbid(market, place_at(k), price, raised) || is_anybody_out;
    }
    Ok(is_anybody_out)
}
