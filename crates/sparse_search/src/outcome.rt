// What a search found.

/// Persons who together list fewer objects than they are, by places from 0, both rising.
#[derive(Drop)]
pub struct HallSet {
    pub persons: Vec<u32>,
    pub objects: Vec<u32>,
}

/// The end of a search.
#[derive(Drop)]
pub enum Outcome {
    /// Each person has an object, at exact prices.
    Best,
    /// There is no assignment.
    Hall(HallSet),
    /// The budget of arc scans is spent, and the record says where to go on.
    Stopped,
    /// The lists don't fit one another, or sums left the range: nothing was found.
    Lost,
}
