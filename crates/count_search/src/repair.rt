// Exact repair: every row answers the prices, and shortest paths (Dijkstra's) over columns bring what
// columns have too much to where they lack. An edge from a column to another is a row that leaves the
// one and takes the other. A node after the columns stands for staying out and for slots that nobody
// needs.
mod holding;
mod relaxing;

use super::answers::Answers;
use super::edges::{Edge, NO_EDGE};
use super::groups::Groups;
use super::problem::Problem;
use super::state::State;
use super::values::{FAR, byte_at, count_at, price_at, set_byte, set_count, set_price, short};
use holding::no_holders;
use relaxing::{are_tables_short, no_tables};
use search_base::{ArcScans, Heap, NOBODY, Reached, place_at};
use std::alloc::{AllocError, Global};

/// A row that takes a column, and the place of the pair.
#[derive(Clone, Copy)]
pub struct Holder {
    pub row: u32,
    pub pair: u32,
}

/// Who holds which column, how many slots nobody needs, what each node has too much, and the labels of a
/// search.
#[derive(Drop)]
pub struct Repair {
    alloc: Global,
    pub arc_scans: ArcScans,
    groups: Groups,
    pub holders: Vec<Vec<Holder>>,
    // The edges of each column, where tables are kept.
    tables: Vec<Vec<Edge>>,
    is_old: Vec<u8>,
    has_tables: bool,
    slack: Vec<u32>,
    slack_most: Vec<u32>,
    pub excess: Vec<i64>,
    pub distances: Vec<i64>,
    parents: Vec<u32>,
    edges: Vec<Edge>,
    is_done: Vec<u8>,
    pub heap: Heap,
    passed: Vec<u32>,
    // The nearest node that lacks.
    nearest: Reached,
}

/// How a search ended.
#[derive(Clone, Copy)]
pub enum PathEnd {
    /// Nothing was too much.
    Balanced,
    /// One more column has what it lacked.
    Assigned,
    /// What is too much can go nowhere.
    Blocked,
}

/// Gives each row a best answer to the prices. Returns how many had another.
pub fn answer_all(
    alloc: Global,
    problem: &Problem<'_>,
    state: &mut State,
    arc_scans: &mut ArcScans,
) -> Result<u64, AllocError> {
    let mut answers = Answers::new(alloc, problem)?;
    let mut changed = 0u64;
    for row in 0..place_at(problem.row_count()) {
        if !answers.is_best(problem, state, row)? {
            answers.answer(problem, state, row)?;
            changed = changed.wrapping_add(1);
        }
    }
    arc_scans.add(problem.columns.len());
    Ok(changed)
}

impl Repair {
    /// At prices that each row answers.
    pub fn new(
        alloc: Global,
        problem: &Problem<'_>,
        state: &State,
        arc_scans: ArcScans,
    ) -> Result<Repair, AllocError> {
        let columns = state.outside();
        let nodes = columns.saturating_add(1);
        let mut repair = Repair {
            alloc,
            arc_scans,
            groups: Groups::of(alloc, problem, state)?,
            holders: no_holders(alloc, columns)?,
            tables: no_tables(alloc, nodes)?,
            is_old: vec![in alloc; 1u8; nodes]?,
            has_tables: are_tables_short(problem, state),
            slack: vec![in alloc; 0u32; columns]?,
            slack_most: vec![in alloc; 0u32; columns]?,
            excess: vec![in alloc; 0i64; nodes]?,
            distances: vec![in alloc; FAR; nodes]?,
            parents: vec![in alloc; NOBODY; nodes]?,
            edges: vec![in alloc; NO_EDGE; nodes]?,
            is_done: vec![in alloc; 0u8; nodes]?,
            heap: Heap::new(alloc),
            passed: Vec::new(alloc),
            nearest: NO_NODE,
        };
        repair.groups.take_plan(state.plan.as_slice());
        repair.hold_all(problem, state)?;
        repair.balance(state);
        Ok(repair)
    }

    /// Nothing is too much: nobody needs the slots that no row holds.
    pub fn keep_plan(&mut self, state: &State) {
        for column in 0..state.outside() {
            let room = count_at(self.slack_most.as_slice(), column);
            let free = short(self.free_of(state, column));
            set_count(self.slack.as_mut_slice(), column, free.min(room));
        }
        for excess in self.excess.as_mut_slice().iter_mut() {
            *excess = 0;
        }
    }

    // Begins a search from all that have too much. Returns whether any has.
    fn begin(&mut self) -> Result<bool, AllocError> {
        self.heap.clear();
        self.passed.clear();
        self.nearest = NO_NODE;
        let mut is_any = false;
        for node in 0..self.excess.len() {
            set_byte(self.is_done.as_mut_slice(), node, 0);
            set_count(self.parents.as_mut_slice(), node, NOBODY);
            let has_excess = price_at(self.excess.as_slice(), node) > 0;
            let distance = if has_excess { 0 } else { FAR };
            set_price(self.distances.as_mut_slice(), node, distance);
            if has_excess && price_at(self.excess.as_slice(), node) < FAR {
                is_any = true;
                self.heap.push(Reached {
                    distance: 0,
                    object: place_at(node),
                })?;
            }
        }
        Ok(is_any)
    }

    // A way to a node.
    #[inline(always)]
    fn reach(
        &mut self,
        node: usize,
        distance: i64,
        parent: u32,
        edge: Edge,
    ) -> Result<(), AllocError> {
        if distance >= price_at(self.distances.as_slice(), node)
            || distance >= self.nearest.distance
            || byte_at(self.is_done.as_slice(), node) != 0
            || node >= self.edges.len()
        {
            return Ok(());
        }
        set_price(self.distances.as_mut_slice(), node, distance);
        set_count(self.parents.as_mut_slice(), node, parent);
        self.edges[node] = edge;
        let object = place_at(node);
        let reached = Reached { distance, object };
        if price_at(self.excess.as_slice(), node) < 0 {
            self.nearest = reached;
            return Ok(());
        }
        self.heap.push(reached)
    }

    // The next node, nearer than the nearest one that lacks.
    fn next_node(&mut self) -> Option<Reached> {
        for _entry in 0..self.heap.len() {
            let next = self.heap.pop()?;
            if next.distance >= self.nearest.distance {
                return None;
            }
            let node = next.object as usize;
            let is_known = price_at(self.distances.as_slice(), node) == next.distance;
            if is_known && byte_at(self.is_done.as_slice(), node) == 0 {
                set_byte(self.is_done.as_mut_slice(), node, 1);
                return Some(next);
            }
        }
        None
    }

    // Whether a node was passed.
    pub fn is_passed(&self, node: usize) -> bool {
        byte_at(self.is_done.as_slice(), node) != 0
    }

    fn search(&mut self, problem: &Problem<'_>, state: &State) -> Result<(), AllocError> {
        for _node in 0..self.excess.len() {
            let Some(next) = self.next_node() else {
                return Ok(());
            };
            self.passed.push(next.object)?;
            self.relax(problem, state, next)?;
        }
        Ok(())
    }

    // Prices of passed nodes rise up to that of the nearest that lacks.
    fn raise_prices(&self, state: &mut State) {
        for node in &self.passed {
            let place = *node as usize;
            let distance = price_at(self.distances.as_slice(), place);
            let raise = self.nearest.distance.wrapping_sub(distance);
            let price = state.price(place).wrapping_add(raise);
            set_price(state.prices.as_mut_slice(), place, price);
        }
    }

    /// One shortest path from what is too much to what lacks.
    pub fn augment(
        &mut self,
        problem: &Problem<'_>,
        state: &mut State,
    ) -> Result<PathEnd, AllocError> {
        if !self.begin()? {
            return Ok(PathEnd::Balanced);
        }
        self.search(problem, state)?;
        if self.nearest.object == NOBODY {
            return Ok(PathEnd::Blocked);
        }
        self.raise_prices(state);
        self.take_path(problem, state)?;
        Ok(PathEnd::Assigned)
    }

    fn take_path(&mut self, problem: &Problem<'_>, state: &mut State) -> Result<(), AllocError> {
        let mut node = self.nearest.object as usize;
        self.add_excess(node, 1);
        for _step in 0..self.edges.len() {
            let parent = count_at(self.parents.as_slice(), node);
            if parent == NOBODY || node >= self.edges.len() {
                break;
            }
            let edge = self.edges[node];
            if edge.row == NOBODY {
                self.move_slack(state, parent as usize, node);
            } else {
                self.move_row(problem, state, edge, parent as usize, node)?;
            }
            node = parent as usize;
        }
        self.add_excess(node, -1);
        Ok(())
    }

    fn add_excess(&mut self, node: usize, more: i64) {
        let excess = price_at(self.excess.as_slice(), node).wrapping_add(more);
        set_price(self.excess.as_mut_slice(), node, excess);
    }

    fn move_slack(&mut self, state: &State, from: usize, to: usize) {
        if from == state.outside() {
            let slack = count_at(self.slack.as_slice(), to);
            set_count(self.slack.as_mut_slice(), to, slack.wrapping_add(1));
        } else {
            let slack = count_at(self.slack.as_slice(), from);
            set_count(self.slack.as_mut_slice(), from, slack.wrapping_sub(1));
        }
    }

    // A row leaves a pair and takes another.
    fn move_row(
        &mut self,
        problem: &Problem<'_>,
        state: &mut State,
        edge: Edge,
        from: usize,
        to: usize,
    ) -> Result<(), AllocError> {
        let row = edge.row;
        let had_room = state.held_of(row) < state.most_of(row);
        if edge.from != NOBODY {
            state.release(row, edge.from);
            self.groups.set(edge.from, 0);
            self.leave(from, edge.from);
            set_byte(self.is_old.as_mut_slice(), from, 1);
        }
        if edge.to != NOBODY {
            state.choose(row, edge.to);
            self.groups.set(edge.to, 1);
            self.hold(to, Holder { row, pair: edge.to })?;
        }
        if had_room || state.held_of(row) < state.most_of(row) {
            set_byte(self.is_old.as_mut_slice(), state.outside(), 1);
        }
        self.age_tables(problem, state, row);
        Ok(())
    }
}

const NO_NODE: Reached = Reached {
    distance: FAR,
    object: NOBODY,
};
