// The duals of a search, in the unit of its costs.
use std::alloc::{AllocError, Global};

/// Above each row's number at first.
pub const NO_ROW: i128 = i128::MAX;

/// Where a search stands: at these numbers of rows and prices no reduced cost is below 0, and those of
/// the plan are below two to the power of `shift`.
#[derive(Drop)]
pub struct State {
    pub rows: Vec<i128>,
    pub prices: Vec<i128>,
    pub objects: Vec<u32>,
    pub shift: u32,
    /// The number of one more object, which nobody has in a best plan.
    pub dummy: u32,
}

impl State {
    /// Nobody has anything, and all prices are 0.
    pub fn new(alloc: Global, persons: usize, objects: u32) -> Result<State, AllocError> {
        Ok(State {
            rows: vec![in alloc; 0i128; persons]?,
            prices: vec![in alloc; 0i128; objects as usize]?,
            objects: vec![in alloc; 0u32; persons]?,
            shift: 0,
            dummy: objects.wrapping_add(1),
        })
    }

    /// Twice `n + 1` units of the last level: no best plan has a pair of a greater reduced cost.
    pub fn bound(&self) -> i128 {
        let persons = self.rows.len() as i128;
        persons
            .wrapping_add(1)
            .wrapping_mul(2)
            .wrapping_shl(self.shift)
    }
}
