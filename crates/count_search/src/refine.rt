// Price refinement (Goldberg): exact prices for the plan of a phase. Labels fall along the edges between
// columns until each edge fits (Bellman and Ford). If the plan isn't best, they fall without end, and the
// phases go on.
use super::auction::Auction;
use super::layout::Layout;
use super::problem::Problem;
use super::repair::Repair;
use super::state::State;
use super::values::{copy_numbers, price_at, set_price};
use search_base::{Reached, place_at};
use std::alloc::{AllocError, Global};

// Labels that look at each pair more often than this fall without end.
const MOST_ARC_SCANS: u64 = 2;

impl Repair {
    // All labels are 0.
    fn begin_labels(&mut self) -> Result<(), AllocError> {
        self.heap.clear();
        for node in 0..self.distances.len() {
            set_price(self.distances.as_mut_slice(), node, 0);
            let object = place_at(node);
            self.heap.push(Reached {
                distance: 0,
                object,
            })?;
        }
        Ok(())
    }

    // The next node whose label fell since its edges were looked at.
    fn next_label(&mut self) -> Option<Reached> {
        for _entry in 0..self.heap.len() {
            let next = self.heap.pop()?;
            if price_at(self.distances.as_slice(), next.object as usize) == next.distance {
                return Some(next);
            }
        }
        None
    }

    fn take_labels(&self, state: &mut State) {
        for (price, label) in state.prices.as_mut_slice().iter_mut().zip(&self.distances) {
            *price = price.wrapping_sub(*label);
        }
    }

    /// Changes prices so that they prove the plan best. Returns whether it found them.
    pub fn refine(&mut self, problem: &Problem<'_>, state: &mut State) -> Result<bool, AllocError> {
        let pairs = problem.columns.len() as u64;
        let most = self
            .arc_scans
            .done
            .saturating_add(pairs.saturating_mul(MOST_ARC_SCANS));
        self.keep_plan(state);
        self.begin_labels()?;
        for _turn in 0..u64::MAX {
            let Some(next) = self.next_label() else {
                self.take_labels(state);
                return Ok(true);
            };
            if self.arc_scans.done > most {
                return Ok(false);
            }
            self.relax(problem, state, next)?;
        }
        Ok(false)
    }
}

impl Auction {
    /// Whether the plan of a phase is best, by exact prices that were found. Otherwise the prices stay as
    /// they were.
    pub fn refine(
        &mut self,
        alloc: Global,
        problem: &Problem<'_>,
        state: &mut State,
        layout: Layout,
    ) -> Result<bool, AllocError> {
        let prices = Vec::from_slice(alloc, state.prices.as_slice())?;
        self.cut_prices(alloc, state, layout)?;
        let mut repair = Repair::new(alloc, problem, state, self.arc_scans)?;
        let is_best = repair.refine(problem, state)?;
        self.arc_scans = repair.arc_scans;
        if !is_best {
            copy_numbers(state.prices.as_mut_slice(), prices.as_slice());
        }
        Ok(is_best)
    }
}
