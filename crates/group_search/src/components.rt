// Which vertices reach each other (Tarjan 1972).
use super::graph::Graph;
use super::values::{set_value, value_at};
use std::alloc::{AllocError, Global};

/// The strong components of a graph. They are numbered in the order in which they are found, so no
/// arrow leads to a higher number.
#[derive(Drop)]
pub struct Components {
    /// The number of each vertex, or `NONE` yet, and the vertex at which each number was found.
    pub groups: Vec<u32>,
    pub roots: Vec<u32>,
    /// How many vertices were entered when each was.
    pub orders: Vec<u32>,
    /// The vertex from which each was entered, and the arrow.
    pub parents: Vec<u32>,
    pub entries: Vec<usize>,
    /// The arrow of each vertex on the way to the first one entered that it reaches.
    pub ways: Vec<usize>,
    /// The order of the first vertex entered that each reaches.
    lowest: Vec<u32>,
    /// The next arrow of each vertex.
    next: Vec<usize>,
    /// The vertices from the first to the last one entered that wasn't left.
    path: Vec<u32>,
    /// The vertices that have no number yet.
    open: Vec<u32>,
    count: u32,
    /// How many components were found.
    found: u32,
}

// Stands for no number.
const NONE: u32 = u32::MAX;

impl Components {
    fn new(alloc: Global, vertices: usize) -> Result<Components, AllocError> {
        Ok(Components {
            groups: vec![in alloc; NONE; vertices]?,
            roots: Vec::with_capacity(alloc, vertices)?,
            orders: vec![in alloc; 0u32; vertices]?,
            parents: vec![in alloc; 0u32; vertices]?,
            entries: vec![in alloc; 0usize; vertices]?,
            ways: vec![in alloc; 0usize; vertices]?,
            lowest: vec![in alloc; 0u32; vertices]?,
            next: vec![in alloc; 0usize; vertices]?,
            path: Vec::with_capacity(alloc, vertices)?,
            open: Vec::with_capacity(alloc, vertices)?,
            count: 0,
            found: 0,
        })
    }

    // Enters a vertex from another one, by its next arrow.
    fn enter(&mut self, graph: &Graph, vertex: u32, parent: u32) -> Result<(), AllocError> {
        let at = vertex as usize;
        self.count = self.count.wrapping_add(1);
        set_value(self.orders.as_mut_slice(), at, self.count);
        set_value(self.lowest.as_mut_slice(), at, self.count);
        set_value(self.next.as_mut_slice(), at, graph.start(vertex));
        let entry = value_at(self.next.as_slice(), parent as usize, 0);
        set_value(self.parents.as_mut_slice(), at, parent);
        set_value(self.entries.as_mut_slice(), at, entry);
        self.path.push(vertex)?;
        self.open.push(vertex)?;
        Ok(())
    }

    // Makes a component of the vertices that were entered since this one.
    fn close(&mut self, vertex: u32) -> Result<(), AllocError> {
        let number = self.found;
        for _ in 0..self.orders.len() {
            let Some(last) = self.open.pop() else {
                break;
            };
            set_value(self.groups.as_mut_slice(), last as usize, number);
            if last == vertex {
                break;
            }
        }
        self.found = self.found.wrapping_add(1);
        self.roots.push(vertex)?;
        Ok(())
    }

    // A vertex reaches one that was entered earlier, by an arrow.
    fn lower(&mut self, vertex: u32, lowest: u32, arrow: usize) {
        let at = vertex as usize;
        if lowest < value_at(self.lowest.as_slice(), at, 0) {
            set_value(self.lowest.as_mut_slice(), at, lowest);
            set_value(self.ways.as_mut_slice(), at, arrow);
        }
    }

    // Takes the last vertex off the path.
    fn leave(&mut self, vertex: u32) -> Result<(), AllocError> {
        let _last = self.path.pop();
        let lowest = value_at(self.lowest.as_slice(), vertex as usize, 0);
        if lowest == value_at(self.orders.as_slice(), vertex as usize, 0) {
            self.close(vertex)?;
        }
        if let Some(before) = self.path.last().copied() {
            let arrow = value_at(self.next.as_slice(), before as usize, 0);
            self.lower(before, lowest, arrow);
        }
        Ok(())
    }

    /// Whether all vertices but 0 are in one component.
    pub fn are_joined(&self) -> bool {
        let objects = self.groups.as_slice().get(1..).unwrap_or(&[]);
        objects.iter().all(|group| Some(group) == objects.first())
    }

    // Whether a vertex that was entered has no number yet.
    fn is_open(&self, vertex: u32) -> bool {
        value_at(self.groups.as_slice(), vertex as usize, 0) == NONE
    }

    // Goes along the arrows of a vertex up to one to a vertex that wasn't entered.
    fn go_on(&mut self, graph: &Graph, vertex: u32) -> Option<u32> {
        let at = vertex as usize;
        let mut arrow = value_at(self.next.as_slice(), at, 0);
        let mut fresh = None;
        for other in graph.ends_from(vertex, arrow) {
            let order = value_at(self.orders.as_slice(), *other as usize, 0);
            if order == 0 {
                fresh = Some(*other);
                break;
            }
            if self.is_open(*other) {
                self.lower(vertex, order, arrow);
            }
            arrow = arrow.wrapping_add(1);
        }
        set_value(self.next.as_mut_slice(), at, arrow);
        fresh
    }

    // Walks along all arrows that a vertex reaches: each turn enters a vertex or leaves one.
    fn walk(&mut self, graph: &Graph, first: u32) -> Result<(), AllocError> {
        self.enter(graph, first, first)?;
        for _ in 0..graph.vertices().saturating_mul(2) {
            let Some(vertex) = self.path.last().copied() else {
                return Ok(());
            };
            match self.go_on(graph, vertex) {
                None => self.leave(vertex)?,
                Some(other) => self.enter(graph, other, vertex)?,
            }
        }
        Ok(())
    }
}

/// The components of a graph.
pub fn components_of(alloc: Global, graph: &Graph) -> Result<Components, AllocError> {
    let mut components = Components::new(alloc, graph.vertices())?;
    let mut vertex: u32 = 0;
    for place in 0..graph.vertices() {
        if value_at(components.orders.as_slice(), place, 0) == 0 {
            components.walk(graph, vertex)?;
        }
        vertex = vertex.wrapping_add(1);
    }
    Ok(components)
}
