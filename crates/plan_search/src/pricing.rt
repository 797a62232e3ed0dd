// Further prices that prove the same plan, by which the arcs into some nodes weigh the margin or
// more.
use super::arcs::{Arcs, Best};
use super::paths::Paths;
use super::values::{place_of, set_value, value_at};
use assign_core::Cost;
use cost_lists::{Object, Price};
use std::alloc::{AllocError, Global};

/// No price rises by more than this for one list.
const MOST_RISE: Cost = 1 << 61;

/// What is known of the next list of prices.
#[derive(Drop)]
pub struct Pricing {
    margin: Cost,
    /// By how much the price of each node's object rises.
    rises: Vec<Cost>,
    /// The nodes that arcs enter by the margin or more.
    is_cut: Vec<bool>,
    /// Paths from the newest of these, that are shorter than the margin.
    paths: Paths,
    cuts: Cost,
    failures: Cost,
}

impl Pricing {
    pub fn new(alloc: Global, nodes: usize) -> Result<Pricing, AllocError> {
        Ok(Pricing {
            margin: 0,
            rises: vec![in alloc; 0i64; nodes]?,
            is_cut: vec![in alloc; false; nodes]?,
            paths: Paths::new(alloc, nodes)?,
            cuts: 0,
            failures: 0,
        })
    }

    /// Whether a cycle was met.
    pub fn met_cycle(&self) -> bool {
        self.cuts != 0 || self.failures != 0
    }

    /// Whether a node was cut.
    pub fn has_cut(&self) -> bool {
        self.cuts != 0
    }

    /// Begins another list.
    pub fn begin(&mut self, margin: Cost) {
        self.margin = margin;
        for rise in self.rises.iter_mut() {
            *rise = 0;
        }
        for cut in self.is_cut.iter_mut() {
            *cut = false;
        }
        self.cuts = 0;
        self.failures = 0;
    }

    fn rise(&self, node: usize) -> Cost {
        value_at(self.rises.as_slice(), node, 0)
    }

    // What an arc of this weight weighs by the new prices.
    fn weight(&self, from: usize, to: usize, weight: Cost) -> Cost {
        weight
            .wrapping_add(self.rise(to))
            .wrapping_sub(self.rise(from))
    }

    // Goes along an arc, and returns whether it doesn't come back by less than the margin. Arcs
    // into cut nodes have the margin to spare.
    fn step(
        &mut self,
        first: usize,
        (from, to): (usize, usize),
        weight: Cost,
    ) -> Result<bool, AllocError> {
        let spare = if value_at(self.is_cut.as_slice(), to, true) {
            self.margin
        } else {
            0
        };
        let weighs = self.weight(from, to, weight).wrapping_sub(spare);
        let longer = self.paths.distance(from).saturating_add(weighs);
        if longer < self.margin && to != first {
            let _is_shorter = self.paths.reach(to, longer)?;
        }
        Ok(longer >= self.margin || to != first)
    }

    // Goes along the open arcs of a person.
    fn go_on(&mut self, open: &Arcs, first: usize, node: usize) -> Result<bool, AllocError> {
        for arc in open.start(node)..open.start(node.wrapping_add(1)) {
            if let Some(object) = open.object(node, arc) {
                if !self.step(first, (node, open.owner(object)), open.weight(arc))? {
                    return Ok(false);
                }
            }
        }
        Ok(true)
    }

    // Goes along the arcs of the last node: no price may fall below 0.
    fn go_on_last(&mut self, best: Best<'_>, first: usize) -> Result<bool, AllocError> {
        let last = best.objects.len();
        for (node, object) in best.objects.iter().enumerate() {
            let price = value_at(best.prices, place_of(*object), 0);
            if !self.step(first, (last, node), price)? {
                return Ok(false);
            }
        }
        Ok(true)
    }

    // How far nodes are from this one, up to the margin; `false` if one comes back by less.
    fn measure(
        &mut self,
        open: &Arcs,
        best: Best<'_>,
        first: usize,
        arc_scans: &mut u64,
    ) -> Result<bool, AllocError> {
        let _is_first = self.paths.reach(first, 0)?;
        for _ in 0..open.size().saturating_add(best.objects.len()) {
            let Some((node, _)) = self.paths.next() else {
                break;
            };
            *arc_scans = arc_scans.saturating_sub(open.width(node).saturating_add(1));
            let goes = if node == best.objects.len() {
                self.go_on_last(best, first)?
            } else {
                self.go_on(open, first, node)?
            };
            if !goes || *arc_scans == 0 {
                return Ok(false);
            }
        }
        Ok(true)
    }

    // Prices rise by how much the paths are shorter than the margin.
    fn raise(&mut self) {
        for node in self.paths.reached() {
            let below = self.margin.wrapping_sub(self.paths.distance(*node));
            let rise = value_at(self.rises.as_slice(), *node, 0).wrapping_add(below);
            set_value(self.rises.as_mut_slice(), *node, rise);
        }
    }

    // Whether another node may be cut: not after more failures than cuts.
    fn may_cut(&self) -> bool {
        let most = self.cuts.wrapping_add(1).saturating_mul(self.margin);
        self.failures <= self.cuts && (self.cuts == 0 || most <= MOST_RISE)
    }

    /// Cuts a node of a cycle, if arcs into all cut nodes can weigh the margin or more at once.
    pub fn cut(
        &mut self,
        open: &Arcs,
        best: Best<'_>,
        node: usize,
        arc_scans: &mut u64,
    ) -> Result<(), AllocError> {
        if self.may_cut() && self.measure(open, best, node, arc_scans)? {
            self.raise();
            set_value(self.is_cut.as_mut_slice(), node, true);
            self.cuts = self.cuts.wrapping_add(1);
        } else {
            self.failures = self.failures.wrapping_add(1);
        }
        self.paths.clear();
        Ok(())
    }

    /// The open arcs that weigh less than the margin by the new prices too.
    pub fn still_open(&self, alloc: Global, open: &Arcs) -> Result<Arcs, AllocError> {
        let mut arcs = open.without(alloc)?;
        for node in 0..open.nodes() {
            arcs.begin_node()?;
            for arc in open.start(node)..open.start(node.wrapping_add(1)) {
                if let Some(object) = open.object(node, arc) {
                    let weight = open.weight(arc);
                    if self.weight(node, open.owner(object), weight) < self.margin {
                        arcs.push(object, weight)?;
                    }
                }
            }
        }
        arcs.begin_node()?;
        Ok(arcs)
    }

    /// Adds the new prices of all objects to a list. The last node's objects have price 0.
    pub fn add_prices(
        &self,
        arcs: &Arcs,
        prices: &[Price],
        others: &mut Vec<Price>,
    ) -> Result<(), AllocError> {
        let last = self.rise(arcs.nodes().wrapping_sub(1));
        let mut object: Object = 0;
        for price in prices {
            object = object.wrapping_add(1);
            let rise = self.rise(arcs.owner(object));
            others.push(price.wrapping_add(rise).wrapping_sub(last))?;
        }
        Ok(())
    }
}
