// The least cycle through a node.
use super::arcs::Arcs;
use super::paths::Paths;
use super::values::{set_value, value_at};
use assign_core::Cost;
use cost_lists::Object;
use std::alloc::{AllocError, Global};

/// A search for the least cycle.
#[derive(Drop)]
pub struct Nearest {
    paths: Paths,
    /// The node and the object by which each node was reached.
    from: Vec<(usize, Object)>,
    /// The least weight of an arc into each node.
    entering: Vec<Cost>,
    /// The weight of the least cycle so far, and the objects that its nodes take.
    best: Cost,
    cycle: Vec<(usize, Object)>,
}

impl Nearest {
    /// A search for cycles that weigh less than this.
    pub fn new(alloc: Global, arcs: &Arcs, most: Cost) -> Result<Nearest, AllocError> {
        let mut nearest = Nearest {
            paths: Paths::new(alloc, arcs.nodes())?,
            from: vec![in alloc; (0usize, 0u32); arcs.nodes()]?,
            entering: vec![in alloc; Cost::MAX; arcs.nodes()]?,
            best: most,
            cycle: Vec::new(alloc),
        };
        for node in 0..arcs.nodes() {
            nearest.enter(arcs, node);
        }
        Ok(nearest)
    }

    // The least weights of arcs into nodes, with those from a node.
    fn enter(&mut self, arcs: &Arcs, node: usize) {
        for arc in arcs.start(node)..arcs.start(node.wrapping_add(1)) {
            if let Some(object) = arcs.object(node, arc) {
                let owner = arcs.owner(object);
                let least = value_at(self.entering.as_slice(), owner, 0).min(arcs.weight(arc));
                set_value(self.entering.as_mut_slice(), owner, least);
            }
        }
    }

    /// The weight of the least cycle that was found, or the first one if none was.
    pub fn best(&self) -> Cost {
        self.best
    }

    /// The nodes of the least cycle, and the objects that they take.
    pub fn cycle(&self) -> &[(usize, Object)] {
        self.cycle.as_slice()
    }

    // Keeps the cycle that a node closes by an object.
    fn keep(&mut self, first: usize, node: usize, object: Object) -> Result<(), AllocError> {
        self.cycle.clear();
        self.cycle.push((node, object))?;
        let mut at = node;
        for _ in 0..self.from.len() {
            if at == first {
                return Ok(());
            }
            let step = value_at(self.from.as_slice(), at, (first, 0));
            self.cycle.push(step)?;
            at = step.0;
        }
        Ok(())
    }

    // Looks at the arcs of a node at a distance from the first one. A path is no use that can't
    // come back by less than the least cycle.
    fn look(
        &mut self,
        arcs: &Arcs,
        left: &[i32],
        first: usize,
        (node, length): (usize, Cost),
    ) -> Result<(), AllocError> {
        let back = value_at(self.entering.as_slice(), first, 0);
        for arc in arcs.start(node)..arcs.start(node.wrapping_add(1)) {
            let Some(object) = arcs.object(node, arc) else {
                return Ok(());
            };
            let next = arcs.owner(object);
            let longer = length.saturating_add(arcs.weight(arc));
            if next == first {
                if longer < self.best {
                    self.best = longer;
                    self.keep(first, node, object)?;
                }
            } else if longer.saturating_add(back) < self.best
                && value_at(left, next, 0) == 0
                && self.paths.reach(next, longer)?
            {
                set_value(self.from.as_mut_slice(), next, (node, object));
            }
        }
        Ok(())
    }

    /// Looks for a lesser cycle through a node, along nodes that a walk hasn't left, with so many
    /// looks at most.
    pub fn search(
        &mut self,
        arcs: &Arcs,
        left: &[i32],
        first: usize,
        arc_scans: &mut u64,
    ) -> Result<(), AllocError> {
        self.paths.clear();
        let _is_first = self.paths.reach(first, 0)?;
        for _ in 0..arcs.size() {
            let Some((node, length)) = self.paths.next() else {
                return Ok(());
            };
            if *arc_scans == 0 || length >= self.best {
                return Ok(());
            }
            *arc_scans = arc_scans.saturating_sub(arcs.width(node).saturating_add(1));
            self.look(arcs, left, first, (node, length))?;
        }
        Ok(())
    }
}
