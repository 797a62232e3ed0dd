// Shortest paths from one node (Dijkstra 1959).
use super::values::{set_value, value_at};
use assign_core::Cost;
use std::alloc::{AllocError, Global};
use std::collections::BinaryHeap;

/// How far nodes are from the first one, as far as that is known.
#[derive(Drop)]
pub struct Paths {
    /// `Cost::MAX` where a node wasn't reached.
    distances: Vec<Cost>,
    reached: Vec<usize>,
    /// The nodes that may be next, by their negated distances.
    heap: BinaryHeap<(Cost, usize)>,
}

impl Paths {
    pub fn new(alloc: Global, nodes: usize) -> Result<Paths, AllocError> {
        Ok(Paths {
            distances: vec![in alloc; Cost::MAX; nodes]?,
            reached: Vec::new(alloc),
            heap: BinaryHeap::new(alloc),
        })
    }

    /// How far a node is; `Cost::MAX` if it wasn't reached.
    pub fn distance(&self, node: usize) -> Cost {
        value_at(self.distances.as_slice(), node, 0)
    }

    /// The nodes that were reached.
    pub fn reached(&self) -> &[usize] {
        self.reached.as_slice()
    }

    /// Reaches a node. Returns whether no path to it was as short.
    pub fn reach(&mut self, node: usize, length: Cost) -> Result<bool, AllocError> {
        let before = self.distance(node);
        if length >= before {
            return Ok(false);
        }
        if before == Cost::MAX {
            self.reached.push(node)?;
        }
        set_value(self.distances.as_mut_slice(), node, length);
        self.heap.push((length.wrapping_neg(), node))?;
        Ok(true)
    }

    /// The nearest node that wasn't returned yet, and how far it is.
    pub fn next(&mut self) -> Option<(usize, Cost)> {
        for _ in 0..self.heap.len() {
            let (negated, node) = self.heap.pop()?;
            let length = negated.wrapping_neg();
            if length == self.distance(node) {
                return Some((node, length));
            }
        }
        None
    }

    /// Forgets what was reached.
    pub fn clear(&mut self) {
        for node in self.reached.iter() {
            set_value(self.distances.as_mut_slice(), *node, Cost::MAX);
        }
        self.reached.clear();
        self.heap.clear();
    }
}
