// Which nodes lie on cycles together (Tarjan 1972).
use super::arcs::Arcs;
use super::values::{set_value, value_at};
use std::alloc::{AllocError, Global};

/// The strong components of some arcs.
#[derive(Drop)]
pub struct Components {
    /// For each node 0, or one more than the node that its component was found at.
    found_at: Vec<usize>,
    /// How many nodes were entered when each was, and the least of these numbers that it reaches.
    numbers: Vec<usize>,
    lowest: Vec<usize>,
    /// The next arc of each node.
    next: Vec<usize>,
    /// The nodes from the first to the last one entered that wasn't left.
    path: Vec<usize>,
    /// The nodes that are in no component yet.
    open: Vec<usize>,
    /// How many nodes each component has, by the node that it was found at.
    sizes: Vec<usize>,
    count: usize,
}

impl Components {
    fn new(alloc: Global, nodes: usize) -> Result<Components, AllocError> {
        Ok(Components {
            found_at: vec![in alloc; 0usize; nodes]?,
            numbers: vec![in alloc; 0usize; nodes]?,
            lowest: vec![in alloc; 0usize; nodes]?,
            next: vec![in alloc; 0usize; nodes]?,
            path: Vec::with_capacity(alloc, nodes)?,
            open: Vec::with_capacity(alloc, nodes)?,
            sizes: vec![in alloc; 0usize; nodes]?,
            count: 0,
        })
    }

    fn number(&self, node: usize) -> usize {
        value_at(self.numbers.as_slice(), node, 0)
    }

    fn component(&self, node: usize) -> usize {
        value_at(self.found_at.as_slice(), node, 0)
    }

    /// Whether a node lies on a cycle with others.
    pub fn is_live(&self, node: usize) -> bool {
        let place = self.component(node).wrapping_sub(1);
        value_at(self.sizes.as_slice(), place, 0) > 1
    }

    /// Whether two nodes lie on a cycle together.
    pub fn are_joined(&self, node: usize, other: usize) -> bool {
        self.component(node) == self.component(other)
    }

    // Puts a node at the end of the path.
    fn enter(&mut self, arcs: &Arcs, node: usize) -> Result<(), AllocError> {
        self.count = self.count.wrapping_add(1);
        set_value(self.numbers.as_mut_slice(), node, self.count);
        set_value(self.lowest.as_mut_slice(), node, self.count);
        set_value(self.next.as_mut_slice(), node, arcs.start(node));
        self.path.push(node)?;
        self.open.push(node)?;
        Ok(())
    }

    // A node reaches one of this number.
    fn lower(&mut self, node: usize, number: usize) {
        let lowest = value_at(self.lowest.as_slice(), node, 0).min(number);
        set_value(self.lowest.as_mut_slice(), node, lowest);
    }

    // Makes a component of the nodes that were entered since this one.
    fn close(&mut self, node: usize) {
        let mut size = 0usize;
        for _ in 0..self.numbers.len() {
            let Some(last) = self.open.pop() else {
                break;
            };
            set_value(self.found_at.as_mut_slice(), last, node.wrapping_add(1));
            size = size.wrapping_add(1);
            if last == node {
                break;
            }
        }
        set_value(self.sizes.as_mut_slice(), node, size);
    }

    // Takes the last node off the path.
    fn leave(&mut self, node: usize) {
        let _last = self.path.pop();
        let lowest = value_at(self.lowest.as_slice(), node, 0);
        if lowest == self.number(node) {
            self.close(node);
        }
        if let Some(before) = self.path.last().copied() {
            self.lower(before, lowest);
        }
    }

    // Goes along an arc from one node to another.
    fn meet(&mut self, arcs: &Arcs, node: usize, other: usize) -> Result<(), AllocError> {
        if self.number(other) == 0 {
            return self.enter(arcs, other);
        }
        if self.component(other) == 0 {
            self.lower(node, self.number(other));
        }
        Ok(())
    }

    // Walks along all arcs that a node reaches.
    fn walk(&mut self, arcs: &Arcs, first: usize) -> Result<(), AllocError> {
        self.enter(arcs, first)?;
        for _ in 0..arcs.size().wrapping_add(1) {
            let Some(node) = self.path.last().copied() else {
                return Ok(());
            };
            let arc = value_at(self.next.as_slice(), node, 0);
            match arcs.object(node, arc) {
                None => self.leave(node),
                Some(object) => {
                    set_value(self.next.as_mut_slice(), node, arc.wrapping_add(1));
                    self.meet(arcs, node, arcs.owner(object))?;
                }
            }
        }
        Ok(())
    }
}

/// The components of these arcs.
pub fn components_of(alloc: Global, arcs: &Arcs) -> Result<Components, AllocError> {
    let mut components = Components::new(alloc, arcs.nodes())?;
    for node in 0..arcs.nodes() {
        if components.number(node) == 0 {
            components.walk(arcs, node)?;
        }
    }
    Ok(components)
}
