// Trees of arrows that join each component to its root, by the walk that found it.
use super::components::Components;
use super::graph::Graph;
use super::values::{set_value, value_at};
use std::alloc::{AllocError, Global};

/// For each vertex a neighbour nearer to its root, the place of the pair that shows the arrow
/// between them, and how far away the root is: 0 for the root, and more than the neighbour's.
#[derive(Drop)]
pub struct FoundTree {
    pub neighbours: Vec<u32>,
    pub places: Vec<usize>,
    pub depths: Vec<u32>,
}

// The depth of a vertex that has none yet.
const FAR: u32 = u32::MAX;

impl FoundTree {
    // A tree without neighbours, at these depths but that of roots.
    fn new(alloc: Global, depths: Vec<u32>, roots: &[u32]) -> Result<FoundTree, AllocError> {
        let vertices = depths.len();
        let mut tree = FoundTree {
            neighbours: vec![in alloc; 0u32; vertices]?,
            places: vec![in alloc; 0usize; vertices]?,
            depths,
        };
        for root in roots {
            set_value(tree.depths.as_mut_slice(), *root as usize, 0);
        }
        Ok(tree)
    }

    fn join(&mut self, vertex: usize, neighbour: u32, place: usize) {
        set_value(self.neighbours.as_mut_slice(), vertex, neighbour);
        set_value(self.places.as_mut_slice(), vertex, place);
    }

    fn depth(&self, vertex: u32) -> u32 {
        value_at(self.depths.as_slice(), vertex as usize, 0)
    }

    // Adds the vertices from one on that have no depth, and returns the next one.
    fn follow(&self, way: &mut Vec<u32>, first: u32) -> Result<u32, AllocError> {
        let mut vertex = first;
        for _ in 0..self.depths.len() {
            if self.depth(vertex) != FAR {
                break;
            }
            way.push(vertex)?;
            vertex = value_at(self.neighbours.as_slice(), vertex as usize, 0);
        }
        Ok(vertex)
    }

    // Gives the vertices of a way, from its end on, depths above this one.
    fn sink(&mut self, way: &mut Vec<u32>, above: u32) {
        let mut depth = above;
        for _ in 0..way.len() {
            depth = depth.saturating_add(1);
            if let Some(vertex) = way.pop() {
                set_value(self.depths.as_mut_slice(), vertex as usize, depth);
            }
        }
    }
}

/// The tree of arrows from the roots: those by which vertices were entered.
pub fn tree_from(
    alloc: Global,
    graph: &Graph,
    components: &Components,
) -> Result<FoundTree, AllocError> {
    let depths = Vec::from_slice(alloc, components.orders.as_slice())?;
    let mut tree = FoundTree::new(alloc, depths, components.roots.as_slice())?;
    for vertex in 0..graph.vertices() {
        let parent = value_at(components.parents.as_slice(), vertex, 0);
        let arrow = value_at(components.entries.as_slice(), vertex, 0);
        tree.join(vertex, parent, graph.place(parent, arrow));
    }
    Ok(tree)
}

// Joins each vertex to the next one on its way to one that was entered earlier.
fn join_ways(tree: &mut FoundTree, graph: &Graph, components: &Components) {
    let mut vertex: u32 = 0;
    for at in 0..graph.vertices() {
        let arrow = value_at(components.ways.as_slice(), at, 0);
        tree.join(at, graph.end(arrow), graph.place(vertex, arrow));
        vertex = vertex.wrapping_add(1);
    }
}

/// The tree of arrows towards the roots.
pub fn tree_towards(
    alloc: Global,
    graph: &Graph,
    components: &Components,
) -> Result<FoundTree, AllocError> {
    let depths = vec![in alloc; FAR; graph.vertices()]?;
    let mut tree = FoundTree::new(alloc, depths, components.roots.as_slice())?;
    join_ways(&mut tree, graph, components);
    let mut way = Vec::with_capacity(alloc, graph.vertices())?;
    let mut vertex: u32 = 0;
    for _ in 0..graph.vertices() {
        let last = tree.follow(&mut way, vertex)?;
        let depth = tree.depth(last);
        tree.sink(&mut way, depth);
        vertex = vertex.wrapping_add(1);
    }
    Ok(tree)
}
