// Laws of the best two, of offers and of bids.
ghost use Rattle.std.specs.Prelude.{◌≡◌, ℕ, ℤ, pos, ◌+ℤ◌, ◌≤ℤ◌, List, length};
ghost use Rattle.assign_core.specs.Numbered.{IsNumber, renumbered};
ghost use Rattle.assign_core.specs.Rows.{Listing, IsProblem};
ghost use Rattle.assign_core.specs.Prices.{IsBelow, price_of};
ghost use Rattle.assign_core.specs.Slackness.{HasSlack};
ghost use Rattle.scaled_values.specs.Scaled.{ScaledProblem, floor_of, top_of};
ghost use Rattle.bidder.specs.declared.scan.BestTwo.{BestTwo};
ghost use Rattle.bidder.specs.declared.offers.Ask.{Ask};
ghost use Rattle.bidder.specs.declared.offers.Bid.{Bid};
ghost use Rattle.bidder.specs.declared.offers.Offer.{Offer};
ghost use Rattle.bidder.specs.BestTwo.{IsBestTwo};
ghost use Rattle.bidder.specs.Offers.{IsBid, IsOffer, IsSound, benefits_at, offer_of};

/// A row has only one best two under a table of prices.
pub fn best_two_is_determined()
    ensures { (row : Listing) (prices : List ℤ) (first second : BestTwo)
        → IsBestTwo row prices first → IsBestTwo row prices second → first ≡ second }
{}

/// A person has only one offer under a table of prices.
pub fn offer_is_determined()
    ensures { (s : ScaledProblem) (prices : List ℤ) (version : ℕ) (ask : Ask) (person : ℕ)
        (first second : Offer) → IsOffer s prices version ask person first
        → IsOffer s prices version ask person second → first ≡ second }
{}

/// The computed offer is the person's.
pub fn computed_offer_is_the_offer()
    ensures { (s : ScaledProblem) (prices : List ℤ) (version : ℕ) (ask : Ask) (person : ℕ)
        → IsProblem s.problem → IsNumber (length s.problem) person
        → IsOffer s prices version ask person (offer_of s prices version ask person) }
{}

/// A bid is sound for the table that it was made from.
pub fn offered_bid_is_sound()
    ensures { (s : ScaledProblem) (prices : List ℤ) (ask : Ask) (bid : Bid)
        → IsBid s prices ask bid → IsSound s ask prices bid }
{}

/// Prices only rise, so a bid from an old table stays sound (Bertsekas and Castanon, Parallel
/// synchronous and asynchronous implementations of the auction algorithm, 1991).
pub fn sound_bid_stays_sound()
    ensures { (s : ScaledProblem) (ask : Ask) (old today : List ℤ) (bid : Bid)
        → IsBelow old today → IsSound s ask old bid → IsSound s ask today bid }
{}

/// A bid raises the price that it was made from by eps or more.
pub fn offered_bid_is_high()
    ensures { (s : ScaledProblem) (prices : List ℤ) (ask : Ask) (bid : Bid)
        → IsBid s prices ask bid → (price_of prices bid.object +ℤ ask.eps) ≤ℤ bid.level }
{}

/// An accepted sound bid, whose level is now its object's price, gives its person slackness eps at
/// these prices.
pub fn accepted_bid_is_slack()
    ensures { (s : ScaledProblem) (ask : Ask) (prices : List ℤ) (bid : Bid) → IsProblem s.problem
        → pos 0 ≤ℤ ask.eps → length prices ≡ length s.problem → IsSound s ask prices bid
        → HasSlack ask.eps (renumbered prices bid.object bid.level) (benefits_at s bid.person)
        bid.object }
{}

/// The level of a sound bid is at most the top of its phase.
pub fn level_is_at_most_top()
    ensures { (s : ScaledProblem) (start : ℤ) (ask : Ask) (prices : List ℤ) (bid : Bid)
        → IsProblem s.problem → ask.floor ≡ floor_of s start ask.eps → IsSound s ask prices bid
        → bid.level ≤ℤ top_of s start ask.eps }
{}
