// What a person offers under a table of prices.
ghost use Rattle.std.specs.Prelude.{◌≡◌, ℤ, ◌+ℤ◌, ◌-ℤ◌, ◌≤ℤ◌, [], length, MatchOption};
ghost use Rattle.assign_core.specs.Numbered.{IsNumber};
ghost use Rattle.assign_core.specs.Rows.{IsProblem};
ghost use Rattle.assign_core.specs.Benefits.{IsBenefit};
ghost use Rattle.assign_core.specs.Prices.{price_of};
ghost use Rattle.scaled_values.specs.Limits.{least_floor};
ghost use Rattle.bidder.specs.BestTwo.{IsBestTwo, best_two};
ghost use Rattle.bidder.specs.Offers.{IsAsk, IsOffer, IsSoundOffer, benefits_at, bar, offer_of};

use super::scan::{BestTwo, best_two, best_two_full};
use assign_core::{Object, Person, Price, Prices};
use scaled_values::{Row, Scaled};

/// What a phase asks of a bid.
#[derive(Clone, Copy, PartialEq, Eq)]
pub struct Ask {
    /// The phase's number.
    pub phase: u16,
    /// The amount by which a bid goes beyond the second value, in the unit of benefits.
    pub eps: i64,
    /// The least value at which a person still bids, in the unit of benefits.
    pub floor: i128,
}

/// A bid of a person for an object.
#[derive(Clone, Copy, PartialEq, Eq)]
pub struct Bid {
    pub person: Person,
    pub object: Object,
    /// The price that the person offers, in the unit of benefits.
    pub level: Price,
    /// The phase in which the bid was made.
    pub phase: u16,
    /// The version that the caller gave: that of the table from which the bid was made, or 0 in
    /// rounds, which keep no versions.
    pub version: u128,
}

/// No object that the person lists has a value of at least the floor.
#[derive(Clone, Copy, PartialEq, Eq)]
pub struct BelowFloor {
    pub person: Person,
    /// The phase in which it was found.
    pub phase: u16,
}

/// The offer of a person.
#[derive(Clone, Copy, PartialEq, Eq)]
pub enum Offer {
    Bid(Bid),
    Below(BelowFloor),
}

/// The best two of a person's listed objects.
pub fn best_of(scaled: &Scaled, prices: &Prices, person: Person) -> Option<BestTwo>
    requires person { IsNumber (length scaled.now.problem) person }
    requires table { length prices.now ≡ length scaled.now.problem }
    ensures best { MatchOption result (benefits_at scaled.now person ≡ [])
        (IsBestTwo (benefits_at scaled.now person) prices.now) }
    ensures only { result ≡ best_two (benefits_at scaled.now person) prices.now }
    ensures problem { IsProblem scaled.now.problem }
{
    match scaled.row(person) {
        Row::Full(benefits) => best_two_full(benefits, prices),
        Row::Pairs(pairs) => best_two(pairs, prices),
    }
}

// The benefit of an object: the sum of its value and its price.
fn benefit_of(object: Object, value: i128, prices: &Prices) -> i128
    requires object { IsNumber (length prices.now) object }
    requires benefit { IsBenefit (value +ℤ price_of prices.now object) }
    ensures value { result ≡ value +ℤ price_of prices.now object }
    ensures least { value ≤ℤ result }
{
    value + prices.price(object)
}

// The bar of a bid: the greater of the second value and the floor.
fn bar_of(floor: i128, second: Option<i128>) -> i128
    ensures value { result ≡ bar floor second }
    ensures least { floor ≤ℤ result }
{
    match second {
        None => floor,
        Some(second) => second.max(floor),
    }
}

// The level at which an object with this benefit has the bar less eps as its value.
fn level_at(benefit: i128, bar: i128, eps: i64) -> Price
    requires benefit { IsBenefit benefit }
    requires least { least_floor ≤ℤ bar }
    requires greatest { bar ≤ℤ benefit }
    ensures { result ≡ (benefit -ℤ bar) +ℤ eps }
{
    benefit - bar + i128::from(eps)
}

// The level of a bid for the best object.
fn level_of(best: BestTwo, prices: &Prices, ask: Ask) -> Price
    requires object { IsNumber (length prices.now) best.object }
    requires benefit { IsBenefit (best.best +ℤ price_of prices.now best.object) }
    requires floor { least_floor ≤ℤ ask.floor }
    requires enough { bar ask.floor best.second ≤ℤ best.best }
    ensures { result ≡ ((best.best +ℤ price_of prices.now best.object)
        -ℤ bar ask.floor best.second) +ℤ ask.eps }
{
    let benefit = benefit_of(best.object, best.best, prices);
    let bar = bar_of(ask.floor, best.second);
    level_at(benefit, bar, ask.eps)
}

/// The offer that the best two of a person's row makes, as `make_bid` gives it.
pub fn make_bid_of(
    scaled: &Scaled,
    prices: &Prices,
    version: u128,
    ask: Ask,
    person: Person,
    found: Option<BestTwo>,
) -> Offer
    requires person { IsNumber (length scaled.now.problem) person }
    requires table { length prices.now ≡ length scaled.now.problem }
    requires ask { IsAsk scaled.now ask }
    requires best { MatchOption found (benefits_at scaled.now person ≡ [])
        (IsBestTwo (benefits_at scaled.now person) prices.now) }
    requires only { found ≡ best_two (benefits_at scaled.now person) prices.now }
    ensures offer { IsOffer scaled.now prices.now version ask person result }
    ensures only { result ≡ offer_of scaled.now prices.now version ask person }
    ensures sound { IsSoundOffer scaled.now ask prices.now result }
{
    // For the proof only: the rows are those of a problem.
    let _n = scaled.n();
    let below = BelowFloor {
        person,
        phase: ask.phase,
    };
    let Some(best) = found else {
        return Offer::Below(below);
    };
    if best.best < ask.floor {
        return Offer::Below(below);
    }
    Offer::Bid(Bid {
        person,
        object: best.object,
        level: level_of(best, prices, ask),
        phase: ask.phase,
        version,
    })
}

/// The offer of a person under a table of prices, with this phase's slackness and floor: a bid for
/// its best object. It is `Below` if no listed object has a value of at least the floor. The offer
/// carries the given phase and version.
///
/// The bid of the auction algorithm (Bertsekas, Network Optimization, 1998, section 7.1); the floor
/// stands in for a second value that is absent or lower. The time is linear in the listed objects,
/// and no memory is taken.
pub fn make_bid(scaled: &Scaled, prices: &Prices, version: u128, ask: Ask, person: Person) -> Offer
    requires person { IsNumber (length scaled.now.problem) person }
    requires table { length prices.now ≡ length scaled.now.problem }
    requires ask { IsAsk scaled.now ask }
    ensures offer { IsOffer scaled.now prices.now version ask person result }
    ensures only { result ≡ offer_of scaled.now prices.now version ask person }
    ensures sound { IsSoundOffer scaled.now ask prices.now result }
{
    let found = best_of(scaled, prices, person);
    make_bid_of(scaled, prices, version, ask, person, found)
}
