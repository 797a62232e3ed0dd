// An assignment with prices that prove it optimal.
use super::assignment::Assignment;
use super::prices::Prices;

/// An assignment with prices. They prove it optimal for a problem in which each person has
/// slackness 1 at these prices.
#[derive(Drop)]
pub struct Certificate {
    pub assignment: Assignment,
    pub prices: Prices,
}
