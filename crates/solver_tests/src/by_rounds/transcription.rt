// A plain transcription of rounds, in wide numbers and without regard to memory.
use super::*;

// An offer of a person: an object at a level, or none if no object has a value of at least the
// floor.
#[derive(Clone, Copy)]
pub(super) struct PlainOffer {
    pub person: usize,
    pub bid: Option<(usize, i128)>,
}

// A round: what its phase asks, its table, and the offers of all who wait.
#[derive(Drop)]
pub(super) struct Round {
    pub phase: u16,
    pub eps: i128,
    pub floor: i128,
    pub prices: Vec<i128>,
    pub offers: Vec<PlainOffer>,
}

// An auction of n persons: benefits row by row, `None` for a pair that isn't listed.
#[derive(Drop)]
pub(super) struct Auction {
    n: usize,
    benefits: Vec<Option<i128>>,
    least: i128,
    spread: i128,
    pub phase: u16,
    pub eps: i128,
    pub floor: i128,
    pub prices: Vec<i128>,
    owners: Vec<Option<usize>>,
    queue: Vec<usize>,
    // The person without an object worth the floor, which ends the run.
    pub halted: Option<usize>,
}

// A person's offer: an object at a level, if one has a value of at least the floor.
fn bid_of(auction: &Auction, person: usize) -> Option<(usize, i128)> {
    let mut best: Option<(usize, i128)> = None;
    let mut second: Option<i128> = None;
    for j in 0..auction.n {
        let at = person.wrapping_mul(auction.n).wrapping_add(j);
        let Some(benefit) = auction.benefits.get(at).copied().flatten() else {
            continue;
        };
        let price = auction.prices.get(j).copied().unwrap_or(0);
        let value = benefit.wrapping_sub(price);
        match best {
            Some((_, most)) if value <= most => second = second.max(Some(value)),
            Some((_, most)) => {
                second = Some(most);
                best = Some((j, value));
            }
            None => best = Some((j, value)),
        }
    }
    let (object, value) = best?;
    if value < auction.floor {
        return None;
    }
    let bar = second.unwrap_or(auction.floor).max(auction.floor);
    let price = auction.prices.get(object).copied().unwrap_or(0);
    let level = value
        .wrapping_add(price)
        .wrapping_sub(bar)
        .wrapping_add(auction.eps);
    Some((object, level))
}

// Submits a bid, which is accepted if it is high enough.
fn submit(
    auction: &mut Auction,
    person: usize,
    object: usize,
    level: i128,
) -> Result<(), AllocError> {
    let price = auction.prices.get(object).copied().unwrap_or(0);
    if level < price.wrapping_add(auction.eps) {
        auction.queue.push(person)?;
        return Ok(());
    }
    if let Some(place) = auction.prices.get_mut(object) {
        *place = level;
    }
    if let Some(place) = auction.owners.get_mut(object) {
        let before = place.replace(person);
        if let Some(evicted) = before {
            auction.queue.push(evicted)?;
        }
    }
    Ok(())
}

// The offers of all who wait; nobody waits after that.
fn offers_of(alloc: Global, auction: &mut Auction) -> Result<Vec<PlainOffer>, AllocError> {
    let mut offers = Vec::new(alloc);
    for person in auction.queue.iter() {
        offers.push(PlainOffer {
            person: *person,
            bid: bid_of(auction, *person),
        })?;
    }
    auction.queue.clear();
    Ok(offers)
}

// Submits offers one by one. A person without an object worth the floor ends the run.
fn submit_all(auction: &mut Auction, offers: &[PlainOffer]) -> Result<(), AllocError> {
    for offer in offers {
        let Some((object, level)) = offer.bid else {
            auction.halted = Some(offer.person);
            return Ok(());
        };
        submit(auction, offer.person, object, level)?;
    }
    Ok(())
}

// The greatest of some numbers and 0.
fn greatest(numbers: &[i128]) -> i128 {
    let mut most = 0;
    for number in numbers {
        most = most.max(*number);
    }
    most
}

// Begins a phase, in which all persons wait.
fn begin(alloc: Global, auction: &mut Auction) -> Result<(), AllocError> {
    let n = auction.n;
    let steps = (n as i128).wrapping_sub(1);
    auction.phase = auction.phase.wrapping_add(1);
    auction.floor = auction
        .least
        .wrapping_sub(greatest(auction.prices.as_slice()))
        .wrapping_sub(steps.wrapping_mul(auction.spread.wrapping_add(auction.eps)));
    auction.owners = vec![in alloc; None; n]?;
    auction.queue.clear();
    for person in 0..n {
        auction.queue.push(person)?;
    }
    Ok(())
}

// Whether the run is over: a person ended it, or nobody waits in the last phase.
pub(super) fn is_over(auction: &Auction) -> bool {
    auction.halted.is_some() || (auction.queue.is_empty() && auction.eps == 1)
}

// The next round of a run that isn't over, in the next phase if nobody waits in this one.
pub(super) fn next_round(alloc: Global, auction: &mut Auction) -> Result<Round, AllocError> {
    if auction.queue.is_empty() {
        auction.eps = auction.eps.wrapping_div(5).max(1);
        begin(alloc, auction)?;
    }
    let (phase, eps, floor) = (auction.phase, auction.eps, auction.floor);
    let prices = auction.prices.as_slice().to_vec(alloc)?;
    let offers = offers_of(alloc, auction)?;
    submit_all(auction, offers.as_slice())?;
    Ok(Round {
        phase,
        eps,
        floor,
        prices,
        offers,
    })
}

// The first prices of n objects: the given ones, and 0 for the rest.
fn prices_of(alloc: Global, n: u16, first: &[Price]) -> Result<Vec<i128>, AllocError> {
    let mut prices = Vec::new(alloc);
    for i in 0..n {
        prices.push(first.get(i as usize).copied().unwrap_or(0))?;
    }
    Ok(prices)
}

// The auction of these pairs from these prices, in its first phase.
pub(super) fn auction_of(
    alloc: Global,
    n: u16,
    pairs: &[Pair],
    sense: Sense,
    first: &[Price],
) -> Result<Auction, AllocError> {
    let benefits = plain_benefits(alloc, n, pairs, sense)?;
    let (least, spread) = benefit_range(benefits.as_slice());
    let mut auction = Auction {
        n: n as usize,
        benefits,
        least,
        spread,
        phase: 0,
        eps: spread.wrapping_div(5).max(1),
        floor: 0,
        prices: prices_of(alloc, n, first)?,
        owners: Vec::new(alloc),
        queue: Vec::new(alloc),
        halted: None,
    };
    begin(alloc, &mut auction)?;
    Ok(auction)
}
