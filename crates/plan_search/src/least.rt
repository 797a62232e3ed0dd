// The least ones of some costs.
use assign_core::Cost;
use std::alloc::{AllocError, Global};
use std::collections::BinaryHeap;

/// The least costs of those that were added, so many at most.
#[derive(Drop)]
pub struct Least {
    count: usize,
    costs: BinaryHeap<Cost>,
}

impl Least {
    pub fn new(alloc: Global, count: usize) -> Least {
        Least {
            count,
            costs: BinaryHeap::new(alloc),
        }
    }

    /// The greatest one of them, if there are so many.
    pub fn greatest(&self) -> Option<Cost> {
        if self.costs.len() < self.count {
            return None;
        }
        self.costs.peek().copied()
    }

    /// Adds a cost.
    pub fn add(&mut self, cost: Cost) -> Result<(), AllocError> {
        self.costs.push(cost)?;
        if self.costs.len() > self.count {
            let _greatest = self.costs.pop();
        }
        Ok(())
    }
}
