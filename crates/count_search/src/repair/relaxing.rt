// The edges out of a column: slack, holders' other pairs, tables.
use super::super::edges::{Edge, FREE_EDGE, NO_EDGE, Scan};
use super::super::problem::Problem;
use super::super::state::State;
use super::super::values::{FAR, byte_at, count_at, set_byte};
use super::{Holder, Repair};
use search_base::{NOBODY, Reached, place_at};
use std::alloc::{AllocError, Global};

// No more entries of tables are kept.
const MOST_ENTRIES: u64 = 1 << 24;

// Whether tables of all nodes are no longer than what their holders list.
pub fn are_tables_short(problem: &Problem<'_>, state: &State) -> bool {
    let nodes = state.prices.len() as u64;
    let entries = nodes.saturating_mul(nodes);
    let mut listed = 0u64;
    for row in 0..place_at(problem.row_count()) {
        let pairs = problem.row(row).columns.len() as u64;
        let all = pairs.saturating_mul(u64::from(state.held_of(row)));
        listed = listed.saturating_add(all);
    }
    entries <= listed && entries <= MOST_ENTRIES
}

pub fn no_tables(alloc: Global, count: usize) -> Result<Vec<Vec<Edge>>, AllocError> {
    let mut lists = Vec::new(alloc);
    for _node in 0..count {
        lists.push(Vec::new(alloc))?;
    }
    Ok(lists)
}

impl Repair {
    fn renew_table(
        &mut self,
        problem: &Problem<'_>,
        state: &State,
        node: usize,
    ) -> Result<(), AllocError> {
        if byte_at(self.is_old.as_slice(), node) == 0 {
            return Ok(());
        }
        set_byte(self.is_old.as_mut_slice(), node, 0);
        let nodes = self.edges.len();
        let Some(table) = self.tables.get_mut(node) else {
            return Ok(());
        };
        table.clear();
        table.resize(nodes, NO_EDGE)?;
        let mut scan = Scan {
            problem,
            state,
            groups: &mut self.groups,
            arc_scans: &mut self.arc_scans,
        };
        match self.holders.get(node) {
            Some(holders) => scan.fill_from(table.as_mut_slice(), holders.as_slice()),
            None => scan.fill_outside(table.as_mut_slice()),
        }
        Ok(())
    }

    fn relax_table(&mut self, state: &State, node: usize, base: i64) -> Result<(), AllocError> {
        for other in 0..self.edges.len() {
            let edge = match self.tables.get(node) {
                Some(table) => table.get(other).copied().unwrap_or(NO_EDGE),
                None => NO_EDGE,
            };
            if edge.length < FAR {
                let distance = base
                    .wrapping_add(edge.length)
                    .wrapping_add(state.price(other));
                self.reach(other, distance, place_at(node), edge)?;
            }
        }
        Ok(())
    }

    // Slots that nobody needs: from their column outside, or back.
    fn relax_slack(&mut self, state: &State, node: usize, base: i64) -> Result<(), AllocError> {
        let outside = state.outside();
        if node != outside {
            if count_at(self.slack.as_slice(), node) > 0 {
                let distance = base.wrapping_add(state.price(outside));
                self.reach(outside, distance, place_at(node), FREE_EDGE)?;
            }
            return Ok(());
        }
        for column in 0..outside {
            let most = count_at(self.slack_most.as_slice(), column);
            if count_at(self.slack.as_slice(), column) < most {
                let distance = base.wrapping_add(state.price(column));
                self.reach(column, distance, place_at(node), FREE_EDGE)?;
            }
        }
        Ok(())
    }

    // The edges of a column, by its holders one after another.
    fn relax_holders(
        &mut self,
        problem: &Problem<'_>,
        state: &State,
        node: usize,
        base: i64,
    ) -> Result<(), AllocError> {
        let count = match self.holders.get(node) {
            Some(holders) => holders.len(),
            None => 0,
        };
        for turn in 0..count {
            let holder = match self.holders.get(node) {
                Some(holders) => holders.get(turn).copied(),
                None => None,
            };
            if let Some(holder) = holder {
                self.relax_row(problem, state, holder, node, base)?;
            }
        }
        Ok(())
    }

    fn relax_outside(
        &mut self,
        problem: &Problem<'_>,
        state: &State,
        node: usize,
        base: i64,
    ) -> Result<(), AllocError> {
        for row in 0..place_at(problem.row_count()) {
            if state.held_of(row) < state.most_of(row) {
                let holder = Holder { row, pair: NOBODY };
                self.relax_row(problem, state, holder, node, base)?;
            }
        }
        Ok(())
    }

    // Whether a row may take a pair besides those that it has.
    #[inline(always)]
    fn is_open(&self, state: &State, pair: u32) -> bool {
        if state.is_grouped {
            !self.groups.is_taken(pair as usize)
        } else {
            !state.is_chosen(pair)
        }
    }

    // The edges of one row that leaves a pair.
    fn relax_row(
        &mut self,
        problem: &Problem<'_>,
        state: &State,
        holder: Holder,
        node: usize,
        base: i64,
    ) -> Result<(), AllocError> {
        let row = problem.row(holder.row);
        self.arc_scans.add(row.columns.len());
        let from = problem.cost_of(holder.pair);
        self.groups.set(holder.pair, 0);
        for (k, (column, cost)) in row.columns.iter().zip(row.costs).enumerate() {
            let to = place_at(row.first.wrapping_add(k));
            if to != holder.pair && self.is_open(state, to) {
                let length = cost.wrapping_sub(from);
                let edge = Edge::of(length, holder, to);
                let other = *column as usize;
                let distance = base.wrapping_add(length).wrapping_add(state.price(other));
                self.reach(other, distance, place_at(node), edge)?;
            }
        }
        self.groups.set(holder.pair, 1);
        if holder.pair != NOBODY && state.held_of(holder.row) > state.least_of(holder.row) {
            let length = from.wrapping_neg();
            let outside = state.outside();
            let distance = base.wrapping_add(length).wrapping_add(state.price(outside));
            let edge = Edge::of(length, holder, NOBODY);
            self.reach(outside, distance, place_at(node), edge)?;
        }
        Ok(())
    }

    pub fn relax(
        &mut self,
        problem: &Problem<'_>,
        state: &State,
        reached: Reached,
    ) -> Result<(), AllocError> {
        let node = reached.object as usize;
        let base = reached.distance.wrapping_sub(state.price(node));
        if self.has_tables {
            self.arc_scans.add(self.edges.len());
            self.renew_table(problem, state, node)?;
            self.relax_table(state, node, base)?;
        } else if node == state.outside() {
            self.relax_outside(problem, state, node, base)?;
        } else {
            self.relax_holders(problem, state, node, base)?;
        }
        self.relax_slack(state, node, base)
    }

    // The tables of the columns that a row takes.
    pub fn age_tables(&mut self, problem: &Problem<'_>, state: &State, row: u32) {
        let pairs = problem.row(row);
        for (column, byte) in pairs.columns.iter().zip(state.chosen(pairs)) {
            if *byte != 0 {
                set_byte(self.is_old.as_mut_slice(), *column as usize, 1);
            }
        }
    }
}
