// How a search ends.
use assign_core::Cost;
use hungarian::HallSet;

/// What a call found.
#[derive(Drop)]
pub enum Found {
    /// The objects and the prices are an assignment with exact prices, so an optimal one, of this
    /// cost.
    Best(Cost),
    /// No assignment exists.
    Hall(HallSet),
    /// The budget is spent. The next call goes on from the prices, the objects and the record.
    Stopped,
}

// How a search ends, before the checker has seen it.
#[derive(Drop)]
pub enum Ended {
    Best,
    Hall(HallSet),
    Stopped,
    Lost,
}
