//! What a person of the auction offers under a table of prices, and why its bids keep slackness.
#![tactic(auto)]

mod law;
mod near;
mod offers;
mod scan;
mod skipping;

pub use law::{
    accepted_bid_is_slack, best_two_is_determined, computed_offer_is_the_offer,
    level_is_at_most_top, offer_is_determined, offered_bid_is_high, offered_bid_is_sound,
    sound_bid_stays_sound,
};
pub use offers::{Ask, BelowFloor, Bid, Offer, best_of, make_bid, make_bid_of};
pub use scan::{BestTwo, best_two, best_two_full};
pub use skipping::{LANES, none_above};
