// Ranks that show that no cycle of arcs weighs less than a margin.
use super::arcs::{Arcs, Best};
use super::pricing::Pricing;
use super::walk::Walk;
use assign_core::Cost;
use cost_lists::{Object, Price};
use std::alloc::{AllocError, Global};

/// A search for ranks of objects, and for further lists of prices.
#[derive(Drop)]
pub struct Showing {
    walk: Walk,
    pricing: Pricing,
}

// There are so many further prices at most.
const MOST_PRICES: usize = 1 << 24;

impl Showing {
    pub fn new(alloc: Global, nodes: usize) -> Result<Showing, AllocError> {
        Ok(Showing {
            walk: Walk::new(alloc, nodes)?,
            pricing: Pricing::new(alloc, nodes)?,
        })
    }

    // Walks along all open arcs, and cuts a node of each cycle, which the walk leaves then.
    fn cut_all(
        &mut self,
        open: &Arcs,
        best: Best<'_>,
        arc_scans: &mut u64,
    ) -> Result<(), AllocError> {
        self.walk.begin();
        for _ in 0..open.nodes().wrapping_add(1) {
            if *arc_scans == 0 {
                break;
            }
            let Some(last) = self.walk.next(open)? else {
                break;
            };
            self.pricing.cut(open, best, last, arc_scans)?;
            self.walk.leave(last);
        }
        Ok(())
    }

    // Adds the rank of each object: how long its owner was left before the node of unowned objects.
    fn add_ranks(&self, arcs: &Arcs, m: usize, ranks: &mut Vec<i32>) -> Result<(), AllocError> {
        let last = self.walk.left(arcs.nodes().wrapping_sub(1));
        let mut object: Object = 0;
        for _ in 0..m {
            object = object.wrapping_add(1);
            ranks.push(last.wrapping_sub(self.walk.left(arcs.owner(object))))?;
        }
        Ok(())
    }

    /// Adds ranks of the core below a margin, with further lists of prices: each leaves fewer arcs
    /// open, until these have no cycle. Returns how many lists there are, if it finds ranks.
    pub fn show(
        &mut self,
        alloc: Global,
        core: &Arcs,
        best: Best<'_>,
        margin: Cost,
        ranks: &mut Vec<i32>,
        others: &mut Vec<Price>,
        arc_scans: &mut u64,
    ) -> Result<Option<usize>, AllocError> {
        let (m, mut further) = (best.prices.len(), None);
        let most = others.len().saturating_add(MOST_PRICES);
        for count in 0..MOST_PRICES {
            let open = match &further {
                Some(open) => open,
                None => core,
            };
            self.pricing.begin(margin);
            self.cut_all(open, best, arc_scans)?;
            if !self.pricing.met_cycle() && *arc_scans != 0 {
                self.add_ranks(open, m, ranks)?;
                return Ok(Some(count));
            }
            let full = others.len().saturating_add(m) > most;
            if full || !self.pricing.has_cut() || *arc_scans == 0 {
                return Ok(None);
            }
            self.pricing.add_prices(open, best.prices, others)?;
            let still_open = self.pricing.still_open(alloc, open)?;
            further = Some(still_open);
        }
        Ok(None)
    }
}
