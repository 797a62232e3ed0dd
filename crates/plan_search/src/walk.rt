// A walk over the arcs, depth first, that stops at each cycle.
use super::arcs::Arcs;
use super::values::{set_value, value_at};
use cost_lists::Object;
use std::alloc::{AllocError, Global};

/// Where a walk stands. Its path is a list, so that the stack stays small.
#[derive(Drop)]
pub struct Walk {
    /// The next arc of each node that was entered.
    next: Vec<usize>,
    /// For each node 0, or how many nodes had been left when it was left, itself included.
    left: Vec<i32>,
    /// Which nodes are on the path.
    is_on: Vec<bool>,
    /// The nodes from the first to the last one entered that wasn't left.
    path: Vec<usize>,
    count: i32,
    /// The node at which the next path begins.
    first: usize,
}

impl Walk {
    pub fn new(alloc: Global, nodes: usize) -> Result<Walk, AllocError> {
        Ok(Walk {
            next: vec![in alloc; 0usize; nodes]?,
            left: vec![in alloc; 0i32; nodes]?,
            is_on: vec![in alloc; false; nodes]?,
            path: Vec::with_capacity(alloc, nodes)?,
            count: 0,
            first: 0,
        })
    }

    /// Begins another walk.
    pub fn begin(&mut self) {
        for left in self.left.iter_mut() {
            *left = 0;
        }
        for is_on in self.is_on.iter_mut() {
            *is_on = false;
        }
        self.path.clear();
        self.count = 0;
        self.first = 0;
    }

    /// When a node was left.
    pub fn left(&self, node: usize) -> i32 {
        value_at(self.left.as_slice(), node, 0)
    }

    /// When each node was left.
    pub fn all_left(&self) -> &[i32] {
        self.left.as_slice()
    }

    // The last node of the path.
    fn last(&self) -> Option<usize> {
        self.path.last().copied()
    }

    // Puts a node at the end of the path.
    fn enter(&mut self, arcs: &Arcs, node: usize) -> Result<(), AllocError> {
        self.path.push(node)?;
        set_value(self.is_on.as_mut_slice(), node, true);
        set_value(self.next.as_mut_slice(), node, arcs.start(node));
        Ok(())
    }

    /// Takes the last node off the path.
    pub fn leave(&mut self, node: usize) {
        let _last = self.path.pop();
        self.count = self.count.wrapping_add(1);
        set_value(self.is_on.as_mut_slice(), node, false);
        set_value(self.left.as_mut_slice(), node, self.count);
    }

    // The next arc of a node.
    fn step(&mut self, arcs: &Arcs, node: usize) -> Option<Object> {
        let arc = value_at(self.next.as_slice(), node, 0);
        let object = arcs.object(node, arc)?;
        set_value(self.next.as_mut_slice(), node, arc.wrapping_add(1));
        Some(object)
    }

    // Goes on until all that the path reaches was left, or up to the first arc to a node of the path. Returns
    // whether there is one: it leads on from the last node.
    fn go(&mut self, arcs: &Arcs) -> Result<bool, AllocError> {
        for _ in 0..arcs.size() {
            let Some(node) = self.last() else {
                return Ok(false);
            };
            match self.step(arcs, node) {
                None => self.leave(node),
                Some(object) => {
                    let owner = arcs.owner(object);
                    if value_at(self.is_on.as_slice(), owner, false) {
                        return Ok(true);
                    }
                    if self.left(owner) == 0 {
                        self.enter(arcs, owner)?;
                    }
                }
            }
        }
        Ok(false)
    }

    /// Goes on to the next arc that closes a cycle, and returns the node from which it leads, the last one of the
    /// path; `None` when all nodes were left.
    pub fn next(&mut self, arcs: &Arcs) -> Result<Option<usize>, AllocError> {
        for _ in 0..arcs.nodes().wrapping_add(1) {
            if self.go(arcs)? {
                return Ok(self.last());
            }
            let node = self.first;
            if node >= arcs.nodes() {
                return Ok(None);
            }
            self.first = node.wrapping_add(1);
            if self.left(node) == 0 {
                self.enter(arcs, node)?;
            }
        }
        Ok(None)
    }
}
