// The core of a best plan: the pairs whose reduced cost is below a bound.
mod rows;

use super::values::{place_of, set_value, value_at};
use assign_core::{Cost, Sense};
use cost_lists::{Object, Pairs, Price, Source};
use rows::add_rows;
use std::alloc::{AllocError, Global};

/// Nodes are the persons by their places, and after them one for all objects that nobody owns. From
/// a person arcs go to the owners of the other objects of its core, and weigh the reduced cost;
/// from the last node to each person whose object has a price below the bound, and weigh the price.
#[derive(Drop)]
pub struct Arcs {
    /// Where the arcs of each node begin, and where the last ones end.
    starts: Vec<usize>,
    /// The object of each arc.
    objects: Vec<Object>,
    weights: Vec<Cost>,
    /// The node of each object.
    owners: Vec<usize>,
    /// The least reduced cost of each person that isn't below the bound.
    above: Vec<Cost>,
    /// Whether no row was cut off.
    is_whole: bool,
}

impl Arcs {
    /// How many arcs and nodes there are.
    pub fn size(&self) -> usize {
        self.objects.len().wrapping_add(self.starts.len())
    }

    /// How many nodes there are.
    pub fn nodes(&self) -> usize {
        self.starts.len().wrapping_sub(1)
    }

    /// How many arcs a node has.
    pub fn width(&self, node: usize) -> u64 {
        self.start(node.wrapping_add(1))
            .saturating_sub(self.start(node)) as u64
    }

    /// The object of the arc of a node at a place among all arcs, if the node has it.
    pub fn object(&self, node: usize, arc: usize) -> Option<Object> {
        if arc >= self.start(node.wrapping_add(1)) {
            return None;
        }
        self.objects.get(arc).copied()
    }

    /// The weight of the arc at a place.
    pub fn weight(&self, arc: usize) -> Cost {
        value_at(self.weights.as_slice(), arc, Cost::MAX)
    }

    /// Where the arcs of a node begin, and those of the node before it end.
    pub fn start(&self, node: usize) -> usize {
        value_at(self.starts.as_slice(), node, 0)
    }

    /// The node of an object.
    pub fn owner(&self, object: Object) -> usize {
        value_at(self.owners.as_slice(), place_of(object), 0)
    }

    /// The node of each object by its place.
    pub fn owners(&self) -> &[usize] {
        self.owners.as_slice()
    }

    /// Whether all arcs below the bound are there.
    pub fn is_whole(&self) -> bool {
        self.is_whole
    }

    /// Of the least reduced costs that aren't below the bound one that a half, a third and so on of them
    /// aren't above, by the number of parts; or the least one if that person has none.
    pub fn bound_above(&self, alloc: Global, parts: usize) -> Result<Cost, AllocError> {
        let mut above = Vec::from_slice(alloc, self.above.as_slice())?;
        above.sort_unstable();
        let place = above.len().checked_div(parts).unwrap_or(0);
        let cost = value_at(above.as_slice(), place, Cost::MAX);
        let least = value_at(above.as_slice(), 0, Cost::MAX);
        Ok(if cost == Cost::MAX { least } else { cost })
    }

    /// No arcs of another plan yet.
    pub fn clear(&mut self, objects: &[Object]) {
        self.starts.clear();
        self.objects.clear();
        self.weights.clear();
        set_owners(self.owners.as_mut_slice(), objects);
    }

    /// Adds an arc of the last node that was begun.
    pub fn push(&mut self, object: Object, weight: Cost) -> Result<(), AllocError> {
        self.objects.push(object)?;
        self.weights.push(weight)?;
        Ok(())
    }

    /// Begins the arcs of the next node, or ends the last one's.
    pub fn begin_node(&mut self) -> Result<(), AllocError> {
        self.starts.push(self.objects.len())?;
        Ok(())
    }

    /// No arcs between the same nodes.
    pub fn without(&self, alloc: Global) -> Result<Arcs, AllocError> {
        Ok(Arcs {
            starts: Vec::with_capacity(alloc, self.starts.len())?,
            objects: Vec::new(alloc),
            weights: Vec::new(alloc),
            owners: Vec::from_slice(alloc, self.owners.as_slice())?,
            above: Vec::new(alloc),
            is_whole: self.is_whole,
        })
    }

    // Adds the arcs of a node of a greater core whose weight is below a bound.
    fn add_below(&mut self, all: &Arcs, node: usize, bound: Cost) -> Result<(), AllocError> {
        self.begin_node()?;
        for arc in all.start(node)..all.start(node.wrapping_add(1)) {
            if all.weight(arc) < bound {
                let object = value_at(all.objects.as_slice(), arc, 0);
                self.push(object, all.weight(arc))?;
            }
        }
        Ok(())
    }

    /// The arcs whose weight is below a lower bound.
    pub fn below(&self, alloc: Global, bound: Cost) -> Result<Arcs, AllocError> {
        let mut arcs = self.without(alloc)?;
        for node in 0..self.nodes() {
            arcs.add_below(self, node, bound)?;
        }
        arcs.begin_node()?;
        Ok(arcs)
    }
}

/// The sum of a cost and a price; under Max, of the cost with the other sign.
pub fn sum_of(sense: Sense, cost: Cost, price: Price) -> Cost {
    match sense {
        Sense::Min => price.wrapping_add(cost),
        Sense::Max => price.wrapping_sub(cost),
    }
}

/// The sum of each person's own cost and price.
pub fn own_sums(own: &mut [Cost], objects: &[Object], prices: &[Price]) {
    for (cost, object) in own.iter_mut().zip(objects.iter()) {
        *cost = cost.wrapping_add(value_at(prices, place_of(*object), 0));
    }
}

/// A best plan: its persons' objects with their sums of cost and price, and the prices.
#[derive(Clone, Copy)]
pub struct Best<'a> {
    pub sense: Sense,
    pub sums: &'a [Cost],
    pub objects: &'a [Object],
    pub prices: &'a [Price],
}

// Sets the node of each object; before, all are nobody's.
fn add_owners(owners: &mut [usize], objects: &[Object]) {
    for (node, object) in objects.iter().enumerate() {
        set_value(owners, place_of(*object), node);
    }
}

// Sets the node of each object.
fn set_owners(owners: &mut [usize], objects: &[Object]) {
    for owner in owners.iter_mut() {
        *owner = objects.len();
    }
    add_owners(owners, objects);
}

/// The node of each object.
pub fn owners_of(alloc: Global, objects: &[Object], m: usize) -> Result<Vec<usize>, AllocError> {
    let mut owners = vec![in alloc; objects.len(); m]?;
    add_owners(owners.as_mut_slice(), objects);
    Ok(owners)
}

// The listed pairs whose reduced costs are below the bound, by persons.
fn good_pairs(
    arcs: &mut Arcs,
    alloc: Global,
    best: Best<'_>,
    pairs: Pairs<'_>,
    bound: Cost,
) -> Result<Vec<(usize, Object, Cost)>, AllocError> {
    let mut good = Vec::new(alloc);
    let above = arcs.above.as_mut_slice();
    for (at, cost) in pairs.costs.iter().enumerate() {
        let node = place_of(value_at(pairs.persons, at, 0));
        let object = value_at(pairs.objects, at, 0);
        let sum = sum_of(
            best.sense,
            *cost,
            value_at(best.prices, place_of(object), 0),
        );
        let reduced = sum.wrapping_sub(value_at(best.sums, node, 0));
        if reduced >= bound {
            let least = value_at(above, node, 0).min(reduced);
            set_value(above, node, least);
        } else if object != value_at(best.objects, node, 0) {
            good.push((node, object, reduced))?;
        }
    }
    good.sort_unstable();
    Ok(good)
}

// How many arcs each person has, of pairs by persons.
fn counts_of(
    alloc: Global,
    good: &[(usize, Object, Cost)],
    n: usize,
) -> Result<Vec<usize>, AllocError> {
    let mut counts = vec![in alloc; 0usize; n]?;
    for (node, _, _) in good {
        let count = value_at(counts.as_slice(), *node, 0);
        set_value(counts.as_mut_slice(), *node, count.wrapping_add(1));
    }
    Ok(counts)
}

// The arcs of all persons, of pairs by persons.
fn add_pairs(
    arcs: &mut Arcs,
    counts: &[usize],
    good: &[(usize, Object, Cost)],
) -> Result<(), AllocError> {
    let mut start = 0usize;
    for count in counts {
        arcs.starts.push(start)?;
        start = start.wrapping_add(*count);
    }
    for (_, object, weight) in good {
        arcs.push(*object, *weight)?;
    }
    Ok(())
}

/// The arcs of the last node.
pub fn add_last(arcs: &mut Arcs, best: Best<'_>, bound: Cost) -> Result<(), AllocError> {
    arcs.begin_node()?;
    for object in best.objects {
        let price = value_at(best.prices, place_of(*object), Cost::MAX);
        if price < bound {
            arcs.push(*object, price)?;
        }
    }
    arcs.begin_node()?;
    Ok(())
}

/// No arcs yet of a plan with so many objects, and room for some.
pub fn no_arcs(
    alloc: Global,
    objects: &[Object],
    m: usize,
    room: usize,
) -> Result<Arcs, AllocError> {
    Ok(Arcs {
        starts: Vec::with_capacity(alloc, objects.len().saturating_add(2))?,
        objects: Vec::with_capacity(alloc, room)?,
        weights: Vec::with_capacity(alloc, room)?,
        owners: owners_of(alloc, objects, m)?,
        above: Vec::new(alloc),
        is_whole: true,
    })
}

// How many arcs there is room for at first, for each person.
const USUAL_WIDTH: usize = 4;

/// The core of a best plan below a bound. Rows of costs are cut off after so many arcs.
pub fn core_below(
    alloc: Global,
    source: Source<'_>,
    best: Best<'_>,
    bound: Cost,
    width: usize,
) -> Result<Arcs, AllocError> {
    let n = best.objects.len();
    let room = n.saturating_mul(USUAL_WIDTH);
    let mut arcs = no_arcs(alloc, best.objects, best.prices.len(), room)?;
    match source {
        Source::Dense(costs) => add_rows(&mut arcs, best, costs, bound, width)?,
        Source::Listed(pairs) => {
            arcs.above = vec![in alloc; Cost::MAX; n]?;
            let good = good_pairs(&mut arcs, alloc, best, pairs, bound)?;
            let counts = counts_of(alloc, good.as_slice(), n)?;
            add_pairs(&mut arcs, counts.as_slice(), good.as_slice())?;
        }
    }
    add_last(&mut arcs, best, bound)?;
    Ok(arcs)
}
