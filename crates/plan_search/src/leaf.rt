// The arcs of a plan within its part of a tree of plans.
use super::arcs::{Arcs, Best, add_last};
use super::tree::Tree;
use super::values::{elements, place_of, set_value, value_at};
use assign_core::{Cost, Sense};
use cost_lists::{Object, Price};
use std::alloc::{AllocError, Global};

/// The pairs of a core, and which of them are in a part.
#[derive(Drop)]
pub struct Pairs {
    /// Where the pairs of each person begin, and where the last ones end. A person's own pair by the
    /// given plan comes first.
    starts: Vec<usize>,
    objects: Vec<Object>,
    /// How much dearer each pair is than the sum of the person's own cost and price.
    costs: Vec<Cost>,
    is_closed: Vec<bool>,
    /// Which persons keep their objects in the part.
    is_kept: Vec<bool>,
}

impl Pairs {
    /// The pairs of the core of a best plan whose reduced costs are below a bound.
    pub fn below(
        alloc: Global,
        core: &Arcs,
        best: Best<'_>,
        bound: Cost,
    ) -> Result<Pairs, AllocError> {
        let mut pairs = Pairs {
            starts: Vec::with_capacity(alloc, best.objects.len().saturating_add(1))?,
            objects: Vec::with_capacity(alloc, core.size())?,
            costs: Vec::with_capacity(alloc, core.size())?,
            is_closed: Vec::with_capacity(alloc, core.size())?,
            is_kept: vec![in alloc; false; best.objects.len()]?,
        };
        for (node, object) in best.objects.iter().enumerate() {
            pairs.starts.push(pairs.objects.len())?;
            pairs.push(*object, 0, best.prices)?;
            pairs.add_row(core, node, best.prices, bound)?;
        }
        pairs.starts.push(pairs.objects.len())?;
        Ok(pairs)
    }

    fn push(&mut self, object: Object, weight: Cost, prices: &[Price]) -> Result<(), AllocError> {
        let price = value_at(prices, place_of(object), 0);
        self.objects.push(object)?;
        self.costs.push(weight.wrapping_sub(price))?;
        self.is_closed.push(false)?;
        Ok(())
    }

    // Adds the pairs of a person.
    fn add_row(
        &mut self,
        core: &Arcs,
        node: usize,
        prices: &[Price],
        bound: Cost,
    ) -> Result<(), AllocError> {
        for arc in core.start(node)..core.start(node.wrapping_add(1)) {
            if let Some(object) = core.object(node, arc) {
                if core.weight(arc) < bound {
                    self.push(object, core.weight(arc), prices)?;
                }
            }
        }
        Ok(())
    }

    fn start(&self, person: usize) -> usize {
        value_at(self.starts.as_slice(), person, 0)
    }

    fn object(&self, pair: usize) -> Object {
        value_at(self.objects.as_slice(), pair, 0)
    }

    /// How many pairs there are.
    pub fn size(&self) -> usize {
        self.objects.len()
    }

    /// The objects of a person's pairs, how much dearer each is, and whether it is closed.
    pub fn of(&self, person: usize) -> (&[Object], &[Cost], &[bool]) {
        let (start, end) = (self.start(person), self.start(person.wrapping_add(1)));
        let objects = elements(self.objects.as_slice(), start, end);
        let costs = elements(self.costs.as_slice(), start, end);
        (
            objects,
            costs,
            elements(self.is_closed.as_slice(), start, end),
        )
    }

    /// Whether a person keeps its object.
    pub fn keeps(&self, person: usize) -> bool {
        value_at(self.is_kept.as_slice(), person, true)
    }

    // Closes the pairs of a person and an object.
    fn close(&mut self, person: usize, object: Object) {
        for pair in self.start(person)..self.start(person.wrapping_add(1)) {
            if self.object(pair) == object {
                set_value(self.is_closed.as_mut_slice(), pair, true);
            }
        }
    }

    // Takes all pairs into the part.
    fn clear(&mut self) {
        for is_closed in self.is_closed.iter_mut() {
            *is_closed = false;
        }
        for is_kept in self.is_kept.iter_mut() {
            *is_kept = false;
        }
    }

    // Leaves out the pairs that the children of a plan before another place have.
    fn keep(&mut self, tree: &Tree, place: usize, end: usize) {
        let mut child = tree.last_child(place);
        for _ in 0..tree.persons() {
            if child == 0 {
                break;
            }
            if child < end {
                set_value(self.is_kept.as_mut_slice(), tree.person(child), true);
            }
            child = tree.child_before(child);
        }
    }

    /// Leaves out the pairs that aren't in the part of the plan at a place, as it was when there were so
    /// many plans.
    pub fn restrict(&mut self, tree: &Tree, place: usize, count: usize) {
        self.clear();
        let (mut part, mut end) = (place, count);
        for _ in 0..count {
            self.keep(tree, part, end);
            if part == 0 {
                break;
            }
            let (parent, person) = (tree.parent(part), tree.person(part));
            self.close(person, tree.object(parent, person));
            end = part;
            part = parent;
        }
    }

    // The sum of a person's cost and price by a plan.
    fn own_sum(&self, person: usize, own: Object, prices: &[Price]) -> Cost {
        let (objects, costs, _) = self.of(person);
        for (object, cost) in objects.iter().zip(costs.iter()) {
            if *object == own {
                return cost.wrapping_add(value_at(prices, place_of(own), 0));
            }
        }
        0
    }

    // Adds the arcs of a person below a bound.
    fn add_arcs(
        &self,
        arcs: &mut Arcs,
        person: usize,
        own: Object,
        prices: &[Price],
        bound: Cost,
    ) -> Result<(), AllocError> {
        let (objects, costs, closed) = self.of(person);
        if objects.len() == 1 || self.keeps(person) {
            return Ok(());
        }
        let own_sum = self.own_sum(person, own, prices);
        for ((object, cost), is_closed) in objects.iter().zip(costs.iter()).zip(closed.iter()) {
            let sum = cost.wrapping_add(value_at(prices, place_of(*object), 0));
            let weight = sum.wrapping_sub(own_sum);
            if weight < bound && !*is_closed && *object != own {
                arcs.push(*object, weight)?;
            }
        }
        Ok(())
    }

    /// Sets the arcs of a plan of the part, which the prices prove to be its best one, below a bound.
    pub fn set_arcs(&self, arcs: &mut Arcs, best: Best<'_>, bound: Cost) -> Result<(), AllocError> {
        arcs.clear(best.objects);
        for (person, own) in best.objects.iter().enumerate() {
            arcs.begin_node()?;
            self.add_arcs(arcs, person, *own, best.prices, bound)?;
        }
        add_last(arcs, best, bound)
    }
}

/// A plan of a part, with prices that prove it to be the best one.
#[derive(Clone, Copy)]
pub struct Leaf<'a> {
    pub pairs: &'a Pairs,
    pub objects: &'a [Object],
    pub owners: &'a [usize],
    pub prices: &'a [Price],
}

impl Leaf<'_> {
    /// The sum of a person's own cost and price.
    pub fn own_sum(&self, person: usize) -> Cost {
        let own = value_at(self.objects, person, 0);
        self.pairs.own_sum(person, own, self.prices)
    }

    /// The person of an object by its place, or the number of persons.
    pub fn owner(&self, object: Object) -> usize {
        value_at(self.owners, place_of(object), 0)
    }
}

/// A plan with prices, the costs of which aren't wanted.
pub fn best_of<'a>(objects: &'a [Object], prices: &'a [Price]) -> Best<'a> {
    Best {
        sense: Sense::Min,
        sums: &[],
        objects,
        prices,
    }
}
