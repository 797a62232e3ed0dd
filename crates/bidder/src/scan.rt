// The best object of a row, and the second value, in one pass.
ghost use Rattle.std.specs.Prelude.{◌≡◌, ℤ, ◌+ℤ◌, ◌<◌, ◌≤◌, ◌+◌, List, [], ◌∷◌, ◌++◌, length, take, All, MatchOption, IsTrue, ◌-ℤ◌, ◌≤ℤ◌};
ghost use Rattle.assign_core.specs.declared.numbers.TheConstants.{MOST_PERSONS};
ghost use Rattle.assign_core.specs.Numbered.{IsNumber};
ghost use Rattle.assign_core.specs.Dense.{row_from};
ghost use Rattle.assign_core.specs.Rows.{Listing};
ghost use Rattle.assign_core.specs.Benefits.{IsBenefit};
ghost use Rattle.assign_core.specs.Prices.{IsNarrow, IsPrice, price_of};
ghost use Rattle.scaled_values.specs.Scaled.{IsBenefitRow};
ghost use Rattle.bidder.specs.declared.skipping.TheConstants.{LANES};
ghost use Rattle.bidder.specs.BestTwo.{IsBestTwo, best_two, greater_of};
ghost use Rattle.bidder.specs.inside.Limits.{IsLimit};

use super::near::narrow_best_two;
use super::skipping::{LANES, none_above};
use assign_core::{Benefit, Object, Price, Prices};

/// The best object of a row under a table of prices. An object's value is its benefit less its
/// price.
#[derive(Clone, Copy, PartialEq, Eq)]
pub struct BestTwo {
    /// The object of the greatest value; the lowest number on a tie.
    pub object: Object,
    /// Its value.
    pub best: i128,
    /// The greatest value of the other objects; `None` if there are no others.
    pub second: Option<i128>,
}

// The best two so far, and a limit in 64 bits: a value up to it changes nothing.
#[derive(Clone, Copy)]
struct Scan {
    found: BestTwo,
    limit: i64,
}

// An object's value.
fn value_of(benefit: Benefit, price: Price) -> i128
    requires benefit { IsBenefit benefit }
    requires price { IsPrice price }
    ensures { result +ℤ price ≡ benefit }
{
    i128::from(benefit) - price
}

// Whether a benefit is above a narrow price by at most the limit.
fn is_within(limit: i64, benefit: Benefit, narrow: i64) -> bool
    requires benefit { IsBenefit benefit }
    requires narrow { IsNarrow narrow }
    ensures { IsTrue result → (benefit -ℤ narrow) ≤ℤ limit }
{
    benefit - narrow <= limit
}

// The limit that a second value sets.
fn limit_of(second: Option<i128>) -> i64
    ensures { IsLimit second result }
{
    let Some(second) = second else {
        return i64::MIN;
    };
    if second < i128::from(i64::MIN) || i128::from(i64::MAX) < second {
        return i64::MIN;
    }
    second as i64
}

// The greater of two values, the second of which may be absent.
fn greater_of(value: i128, other: Option<i128>) -> i128
    ensures { result ≡ greater_of value other }
{
    match other {
        None => value,
        Some(other) => value.max(other),
    }
}

impl BestTwo {
    // The best two of a single object.
    fn only(object: Object, value: i128) -> BestTwo
        ensures { (prices : List ℤ) (benefit : ℤ) → value +ℤ price_of prices object ≡ benefit
            → IsBestTwo ((object, benefit) ∷ []) prices result }
    {
        BestTwo {
            object,
            best: value,
            second: None,
        }
    }

    // The best two with one more object, whose number is above those of the row.
    fn with(self, object: Object, value: i128) -> BestTwo
        ensures { (row : Listing) (prices : List ℤ) (benefit : ℤ) → IsBestTwo row prices self
            → All (λ e. e.0 < object) row → value +ℤ price_of prices object ≡ benefit
            → IsBestTwo (row ++ (object, benefit) ∷ []) prices result }
    {
        if value > self.best {
            BestTwo {
                object,
                best: value,
                second: Some(self.best),
            }
        } else {
            BestTwo {
                second: Some(greater_of(value, self.second)),
                ..self
            }
        }
    }
}

impl Scan {
    fn new(found: BestTwo) -> Scan
        ensures found { result.found ≡ found }
        ensures limit { IsLimit result.found.second result.limit }
    {
        Scan {
            found,
            limit: limit_of(found.second),
        }
    }

    // Reads one more object, whose number is above those of the row. Its narrow price is at most
    // its price, so the test never skips a value above the limit.
    fn read(self, object: Object, benefit: Benefit, prices: &Prices) -> Scan
        requires limit { IsLimit self.found.second self.limit }
        requires object { IsNumber (length prices.now) object }
        requires benefit { IsBenefit benefit }
        ensures found { (row : Listing) → IsBestTwo row prices.now self.found
            → All (λ e. e.0 < object) row
            → IsBestTwo (row ++ (object, benefit) ∷ []) prices.now result.found }
        ensures limit { IsLimit result.found.second result.limit }
    {
        if is_within(self.limit, benefit, prices.narrow()[object.place()]) {
            return self;
        }
        Scan::new(
            self.found
                .with(object, value_of(benefit, prices.price(object))),
        )
    }

    // Reads the objects of a full row from one place to another, after those before them.
    fn read_each(self, benefits: &[Benefit], prices: &Prices, from: usize, to: usize) -> Scan
        requires limit { IsLimit self.found.second self.limit }
        requires long { length benefits.now ≡ length prices.now }
        requires few { length benefits.now ≤ MOST_PERSONS }
        requires benefits { All IsBenefit benefits.now }
        requires from { from ≤ to }
        requires to { to ≤ length benefits.now }
        ensures found { IsBestTwo (row_from 1 (take from benefits.now)) prices.now self.found
            → IsBestTwo (row_from 1 (take to benefits.now)) prices.now result.found }
        ensures limit { IsLimit result.found.second result.limit }
    {
        let mut scan = self;
        for i in from..to {
            scan = scan.read(Object(i as u16 + 1), benefits[i], prices);
        }
        scan
    }

    // Reads a block of objects of a full row, and skips it if no object is above the limit.
    fn read_block(self, benefits: &[Benefit], prices: &Prices, from: usize) -> Scan
        requires limit { IsLimit self.found.second self.limit }
        requires long { length benefits.now ≡ length prices.now }
        requires few { length benefits.now ≤ MOST_PERSONS }
        requires benefits { All IsBenefit benefits.now }
        requires room { from + LANES ≤ length benefits.now }
        ensures found { IsBestTwo (row_from 1 (take from benefits.now)) prices.now self.found
            → IsBestTwo (row_from 1 (take (from + LANES) benefits.now)) prices.now result.found }
        ensures limit { IsLimit result.found.second result.limit }
    {
        if none_above(benefits, prices.narrow(), from, self.limit) {
            return self;
        }
        self.read_each(benefits, prices, from, from + LANES)
    }
}

// The best two of a row of pairs, in 128 bits wherever an object changes them; `None` for an empty
// row.
fn wide_best_two(row: &[(Object, Benefit)], prices: &Prices) -> Option<BestTwo>
    requires { IsBenefitRow (length prices.now) row.now }
    ensures best { MatchOption result (row.now ≡ []) (IsBestTwo row.now prices.now) }
    ensures only { result ≡ best_two row.now prices.now }
{
    if row.is_empty() {
        return None;
    }
    let (object, benefit) = row[0];
    let first = value_of(benefit, prices.price(object));
    let mut scan = Scan::new(BestTwo::only(object, first));
    for i in 1..row.len() {
        let (object, benefit) = row[i];
        scan = scan.read(object, benefit, prices);
    }
    Some(scan.found)
}

/// The best object of a row of pairs, and the second value; `None` for an empty row. It takes no
/// memory, and one pass in 64 bits unless the price of one of the best two is `NARROW_END` or more.
pub fn best_two(row: &[(Object, Benefit)], prices: &Prices) -> Option<BestTwo>
    requires { IsBenefitRow (length prices.now) row.now }
    ensures best { MatchOption result (row.now ≡ []) (IsBestTwo row.now prices.now) }
    ensures only { result ≡ best_two row.now prices.now }
{
    match narrow_best_two(row, prices) {
        Some(found) => Some(found),
        None => wide_best_two(row, prices),
    }
}

/// The best object of a row that lists all objects, given as the benefits of objects 1, 2, .., and
/// the second value, in one pass; `None` for an empty row. It takes no memory.
pub fn best_two_full(benefits: &[Benefit], prices: &Prices) -> Option<BestTwo>
    requires long { length benefits.now ≡ length prices.now }
    requires benefits { All IsBenefit benefits.now }
    ensures best { MatchOption result (benefits.now ≡ [])
        (IsBestTwo (row_from 1 benefits.now) prices.now) }
    ensures only { result ≡ best_two (row_from 1 benefits.now) prices.now }
{
    if benefits.is_empty() {
        return None;
    }
    let first = value_of(benefits[0], prices.as_slice()[0]);
    let start = Scan::new(BestTwo::only(Object(1), first));
    let mut at = benefits.len().min(LANES);
    let mut scan = start.read_each(benefits, prices, 1, at);
    while benefits.len() - at >= LANES {
        scan = scan.read_block(benefits, prices, at);
        at += LANES;
    }
    Some(scan.read_each(benefits, prices, at, benefits.len()).found)
}
