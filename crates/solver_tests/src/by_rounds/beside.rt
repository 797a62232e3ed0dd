// Rounds compared one by one with the plain transcription.
use super::transcription::{Auction, PlainOffer, Round, auction_of, is_over, next_round};
use super::*;
use assign_core::{Person, Prices};
use bidder::{Ask, Offer};
use candidates::CandidateLists;
use scaled_values::Scaled;

// Makes offers as another maker does, and takes each round in a plain auction too.
#[derive(Drop)]
pub(super) struct Beside<O> {
    alloc: Global,
    offering: O,
    pub auction: Auction,
    // The number of persons who wait in this round.
    waiting: usize,
    // Whether all rounds so far were the same.
    pub same: bool,
}

// Whether an offer of a phase is the plain one.
fn is_offer(phase: u16, offer: Offer, plain: PlainOffer) -> bool {
    let person = plain.person.wrapping_add(1);
    match (offer, plain.bid) {
        (Offer::Bid(bid), Some((object, level))) => {
            bid.person.0 as usize == person
                && bid.object.0 as usize == object.wrapping_add(1)
                && bid.level == level
                && bid.phase == phase
        }
        (Offer::Below(below), None) => { below.person.0 as usize == person && below.phase == phase }
        _ => false,
    }
}

// Whether the offers are those of the persons who wait.
fn are_offers(phase: u16, offers: &[Offer], plain: &[PlainOffer]) -> bool {
    !offers.is_empty()
        && offers.iter().all(|offer| plain.iter().any(|other| is_offer(phase, *offer, *other)))
}

// Whether a round is the plain one.
fn is_round(round: &Round, ask: Ask, prices: &Prices, waiting: usize, offers: &[Offer]) -> bool {
    (round.phase, round.eps, round.floor) == (ask.phase, i128::from(ask.eps), ask.floor)
        && round.prices.as_slice() == prices.as_slice()
        && round.offers.len() == waiting
        && are_offers(round.phase, offers, round.offers.as_slice())
}

impl<O: Offering> Offering for Beside<O> {
    ghost ready = { O.ready };

    fn begin(&mut self, ask: Ask, waiting: usize) {
        self.waiting = waiting;
        self.offering.begin(ask, waiting);
    }

    fn make(
        &mut self,
        scaled: &Scaled,
        prices: &Prices,
        ask: Ask,
        persons: &[Person],
        lists: &mut CandidateLists,
        offers: &mut Vec<Offer>,
    ) -> Result<(), AllocError> {
        self.offering
            .make(scaled, prices, ask, persons, lists, offers)?;
        self.same &= !is_over(&self.auction);
        let round = next_round(self.alloc, &mut self.auction)?;
        self.same &= is_round(&round, ask, prices, self.waiting, offers.as_slice());
        Ok(())
    }
}

// Whether the rounds and the result of a run were those of the plain auction.
fn is_alike<O>(beside: &Beside<O>, seen: &Seen) -> bool {
    let auction = &beside.auction;
    let ended = match (seen, auction.halted) {
        (Seen::Best(_, prices), None) => prices.as_slice() == auction.prices.as_slice(),
        (Seen::Hall(persons, _), Some(halted)) => {
            let halted = u16::try_from(halted.wrapping_add(1)).unwrap_or(0);
            persons.contains(&halted)
        }
        _ => false,
    };
    beside.same && is_over(auction) && ended
}

// The result of rounds with this maker of offers, if each round is that of the plain auction.
pub(super) fn alike<O: Offering + Drop>(
    offering: O,
    alloc: Global,
    n: u16,
    pairs: &[Pair],
    sense: Sense,
    first: &[Price],
) -> Result<Option<Seen>, AllocError>
    requires { O.ready }
{
    let mut beside = Beside {
        alloc,
        offering,
        auction: auction_of(alloc, n, pairs, sense, first)?,
        waiting: 0,
        same: true,
    };
    let seen = solved_by(&mut beside, alloc, n, pairs, sense, first)?;
    Ok(is_alike(&beside, &seen).then_some(seen))
}

// The cost of a run's result, or none without an assignment.
fn cost_seen(pairs: &[Pair], seen: &Seen) -> Option<Cost> {
    match seen {
        Seen::Best(objects, _) => Some(cost_of(pairs, objects.as_slice())),
        Seen::Hall(_, _) => None,
    }
}

// Whether rounds with this maker of offers are those of the plain auction, and, if requested, find
// the cost that a search of all assignments finds.
pub(super) fn agrees<O: Offering + Drop>(
    offering: O,
    alloc: Global,
    n: u16,
    pairs: &[Pair],
    sense: Sense,
    searched: bool,
) -> Result<bool, AllocError>
    requires { O.ready }
{
    let Some(seen) = alike(offering, alloc, n, pairs, sense, &[])? else {
        return Ok(false);
    };
    let cost = cost_seen(pairs, &seen);
    Ok(!searched || cost == best_cost(alloc, n, pairs, sense)?)
}
