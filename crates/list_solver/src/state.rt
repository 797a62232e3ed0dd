// What a search reads and writes.
use super::record::Record;
use cost_lists::{Object, Price};

/// A price for each object, an object for each person (0: nobody's), and where the search stands.
#[derive(Drop)]
pub struct SearchState {
    pub prices: Vec<Price>,
    pub objects: Vec<Object>,
    pub record: Record,
}

impl SearchState {
    // Whether all prices are 0. A plan without prices saves nothing.
    pub fn has_nothing(&self) -> bool {
        self.prices.iter().all(|price| *price == 0)
    }
}
