// What shows that each plan of a tree is the first one of its part, and the next one dear enough.
use super::arcs::{Arcs, Best, no_arcs};
use super::leaf::{Leaf, Pairs, best_of};
use super::order::Order;
use super::raising::Raising;
use super::showing::Showing;
use super::tree::Tree;
use super::values::{elements, value_at};
use assign_core::Cost;
use cost_lists::Price;
use std::alloc::{AllocError, Global};

/// The costs of plans above the first one's, up to the last one's.
#[derive(Clone, Copy)]
pub struct Costs<'a> {
    pub order: &'a Order,
    /// The greatest one, if there are other plans.
    pub most: Option<Cost>,
}

impl Costs<'_> {
    /// How much more the last plan costs than the one at a place.
    pub fn margin(&self, place: usize) -> Cost {
        match self.most {
            Some(most) => most.saturating_sub(self.order.cost(place)),
            None => Cost::MAX,
        }
    }

    // How much more a plan costs than another one.
    fn more(&self, place: usize, other: usize) -> Cost {
        let more = self.order.cost(other);
        more.saturating_sub(self.order.cost(place))
    }
}

/// For each plan prices, and ranks with some further lists of prices.
#[derive(Drop)]
pub struct Proofs {
    pub prices: Vec<Price>,
    pub ranks: Vec<i32>,
    pub lists: Vec<u32>,
    pub others: Vec<Price>,
}

// The prices of the plan at a place.
fn prices_at(prices: &[Price], place: usize, m: usize) -> &[Price] {
    let start = place.wrapping_mul(m);
    elements(prices, start, start.wrapping_add(m))
}

// The prices from the plan at a place on.
fn prices_from(prices: &mut [Price], place: usize, m: usize) -> &mut [Price] {
    let start = place.wrapping_mul(m).min(prices.len());
    let (_, rest) = prices.split_at_mut(start);
    rest
}

impl Proofs {
    // No proofs yet, and room for those of so many plans.
    fn new(alloc: Global, count: usize, m: usize) -> Result<Proofs, AllocError> {
        let room = count.saturating_mul(m);
        Ok(Proofs {
            prices: Vec::with_capacity(alloc, room)?,
            ranks: Vec::with_capacity(alloc, room)?,
            lists: Vec::with_capacity(alloc, count)?,
            others: Vec::new(alloc),
        })
    }

    // Adds the prices of the plan at a place again.
    fn add_prices(&mut self, place: usize, m: usize) -> Result<(), AllocError> {
        let start = place.wrapping_mul(m);
        for at in start..start.wrapping_add(m) {
            self.prices.push(value_at(self.prices.as_slice(), at, 0))?;
        }
        Ok(())
    }

    fn add_no_ranks(&mut self, m: usize) -> Result<(), AllocError> {
        for _ in 0..m {
            self.ranks.push(0)?;
        }
        self.lists.push(0)?;
        Ok(())
    }
}

// A search for the proofs of the plans of a tree.
#[derive(Drop)]
struct Search<'a> {
    tree: &'a Tree,
    costs: Costs<'a>,
    pairs: Pairs,
    arcs: Arcs,
    raising: Raising,
    showing: Showing,
    proofs: Proofs,
    m: usize,
}

impl Search<'_> {
    // Adds the prices of the plan at a place. They are its parent's, raised so that they prove the best
    // plan that leaves out the pair by which the two differ.
    fn raise(&mut self, place: usize, arc_scans: &mut u64) -> Result<(), AllocError> {
        let (parent, first) = (self.tree.parent(place), self.tree.person(place));
        let length = self.costs.more(parent, place);
        self.proofs.add_prices(parent, self.m)?;
        if length == 0 {
            return Ok(());
        }
        let objects = self.tree.plan(parent);
        self.pairs.restrict(self.tree, parent, place);
        self.arcs.clear(objects);
        let leaf = Leaf {
            pairs: &self.pairs,
            objects,
            owners: self.arcs.owners(),
            prices: prices_at(self.proofs.prices.as_slice(), parent, self.m),
        };
        self.raising.search(leaf, first, length, arc_scans)?;
        let prices = prices_from(self.proofs.prices.as_mut_slice(), place, self.m);
        self.raising.raise(prices, objects, first, length);
        Ok(())
    }

    // Adds the ranks of the plan at a place; returns whether there are any.
    fn rank(
        &mut self,
        alloc: Global,
        place: usize,
        arc_scans: &mut u64,
    ) -> Result<bool, AllocError> {
        let margin = self.costs.margin(place);
        if margin == 0 {
            self.proofs.add_no_ranks(self.m)?;
            return Ok(true);
        }
        self.pairs.restrict(self.tree, place, self.tree.count());
        let prices = prices_at(self.proofs.prices.as_slice(), place, self.m);
        let best = best_of(self.tree.plan(place), prices);
        self.pairs.set_arcs(&mut self.arcs, best, margin)?;
        *arc_scans = arc_scans.saturating_sub(self.arcs.size() as u64);
        let (ranks, others) = (&mut self.proofs.ranks, &mut self.proofs.others);
        let count = self
            .showing
            .show(alloc, &self.arcs, best, margin, ranks, others, arc_scans)?;
        let Some(count) = count else {
            return Ok(false);
        };
        self.proofs
            .lists
            .push(u32::try_from(count).unwrap_or(u32::MAX))?;
        Ok(true)
    }

    // Proves all plans; returns whether the arc scans suffice.
    fn prove(&mut self, alloc: Global, arc_scans: &mut u64) -> Result<bool, AllocError> {
        for place in 0..self.tree.count() {
            if place != 0 {
                self.raise(place, arc_scans)?;
            }
            if *arc_scans == 0 || !self.rank(alloc, place, arc_scans)? {
                return Ok(false);
            }
        }
        Ok(true)
    }
}

/// For plans that all cost the same as the best one nothing needs to be shown.
pub fn no_proofs(alloc: Global, count: usize, m: usize) -> Result<Proofs, AllocError> {
    let mut proofs = Proofs::new(alloc, 0, m)?;
    proofs.prices = vec![in alloc; 0i64; count.saturating_mul(m)]?;
    for _ in 0..count {
        proofs.add_no_ranks(m)?;
    }
    Ok(proofs)
}

/// Prices and ranks of all plans of a tree, if the arc scans suffice.
pub fn proofs_of<'a>(
    alloc: Global,
    tree: &'a Tree,
    core: &Arcs,
    best: Best<'_>,
    costs: Costs<'a>,
    arc_scans: &mut u64,
) -> Result<Option<Proofs>, AllocError> {
    let (n, m) = (best.objects.len(), best.prices.len());
    let bound = costs.margin(0).saturating_add(1);
    let mut search = Search {
        tree,
        costs,
        pairs: Pairs::below(alloc, core, best, bound)?,
        arcs: no_arcs(alloc, best.objects, m, core.size())?,
        raising: Raising::new(alloc, n)?,
        showing: Showing::new(alloc, n.saturating_add(1))?,
        proofs: Proofs::new(alloc, tree.count(), m)?,
        m,
    };
    for price in best.prices {
        search.proofs.prices.push(*price)?;
    }
    let is_proved = search.prove(alloc, arc_scans)?;
    let Search { proofs, .. } = search;
    Ok(if is_proved { Some(proofs) } else { None })
}
