// The content of a desk.
ghost use Rattle.std.specs.Prelude.{◌≡◌};
ghost use Rattle.std.specs.Arc.{arc_value};

use super::{Claimed, Desk};
use assign_core::Prices;
use bidder::Offer;
use scaled_values::Scaled;
use std::sync::Arc;

impl Desk {
    /// The problem with its benefits.
    pub fn scaled(&self) -> &Arc<Scaled>
        ensures { arc_value result.now ≡ self.now.base }
    {
        &self.scaled
    }

    /// The worker's number, from 1.
    pub fn number(&self) -> u16
        ensures { result ≡ self.now.known.number }
    {
        self.known.number
    }

    /// The worker's own table of prices.
    pub fn table(&self) -> &Prices
        ensures { result.now ≡ self.now.known.table }
    {
        &self.known.table
    }

    /// The version of the table.
    pub fn version(&self) -> u128
        ensures { result ≡ self.now.known.version }
    {
        self.known.version
    }

    /// The number of the worker's accepted bids, as the desk last learnt it.
    pub fn accepted(&self) -> u128
        ensures { result ≡ self.now.known.accepted }
    {
        self.known.accepted
    }

    /// The worker's claim, as the desk last learnt it.
    pub fn claim(&self) -> Option<Claimed>
        ensures { result ≡ self.now.known.claim }
    {
        self.known.claim
    }

    /// The prepared offer for the worker's claim.
    pub fn offer(&self) -> Option<Offer>
        ensures { result ≡ self.now.offer }
    {
        self.offer
    }

    /// The number of past sessions. It stays at `u64::MAX`.
    pub fn sessions(&self) -> u64
        ensures { result ≡ self.now.sessions }
    {
        self.sessions
    }
}
