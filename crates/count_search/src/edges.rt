// Edges between columns: a row that leaves one and takes another, and what that costs.
use super::groups::Groups;
use super::problem::{Problem, Row};
use super::repair::Holder;
use super::state::State;
use super::values::FAR;
use search_base::{ArcScans, NOBODY, place_at};

/// The row leaves a pair, or takes one more (`NOBODY`), and takes another, or none (`NOBODY`).
#[derive(Clone, Copy)]
pub struct Edge {
    pub length: i64,
    pub row: u32,
    pub from: u32,
    pub to: u32,
}

pub const NO_EDGE: Edge = Edge {
    length: FAR,
    row: NOBODY,
    from: NOBODY,
    to: NOBODY,
};

/// A slot that nobody needs changes sides.
pub const FREE_EDGE: Edge = Edge {
    length: 0,
    row: NOBODY,
    from: NOBODY,
    to: NOBODY,
};

impl Edge {
    pub fn of(length: i64, holder: Holder, to: u32) -> Edge {
        Edge {
            length,
            row: holder.row,
            from: holder.pair,
            to,
        }
    }
}

/// What the edges of a table are read from.
#[derive(Drop)]
pub struct Scan<'a, 'b> {
    pub problem: &'a Problem<'b>,
    pub state: &'a State,
    pub groups: &'a mut Groups,
    pub arc_scans: &'a mut ArcScans,
}

#[inline(always)]
fn improve(table: &mut [Edge], node: usize, edge: Edge) {
    if node < table.len() && edge.length < table[node].length {
        table[node] = edge;
    }
}

// The edges of a row that takes no other pair.
fn fill_lone(table: &mut [Edge], row: Row<'_>, holder: Holder, cost: i64) {
    for (k, (column, other)) in row.columns.iter().zip(row.costs).enumerate() {
        let to = place_at(row.first.wrapping_add(k));
        if to != holder.pair {
            let edge = Edge::of(other.wrapping_sub(cost), holder, to);
            improve(table, *column as usize, edge);
        }
    }
}

// The edges of a row to pairs whose byte is 0.
fn fill_open(table: &mut [Edge], row: Row<'_>, bytes: &[u8], holder: Holder, cost: i64) {
    let pairs = row.columns.iter().zip(row.costs).zip(bytes);
    for (k, ((column, other), byte)) in pairs.enumerate() {
        let to = place_at(row.first.wrapping_add(k));
        if *byte == 0 && to != holder.pair {
            let edge = Edge::of(other.wrapping_sub(cost), holder, to);
            improve(table, *column as usize, edge);
        }
    }
}

impl Scan<'_, '_> {
    fn fill_row(&mut self, table: &mut [Edge], holder: Holder) {
        let row = self.problem.row(holder.row);
        self.arc_scans.add(row.columns.len());
        let cost = self.problem.cost_of(holder.pair);
        let held = self.state.held_of(holder.row);
        let own = u32::from(holder.pair != NOBODY);
        if held <= own {
            fill_lone(table, row, holder, cost);
        } else {
            self.groups.set(holder.pair, 0);
            let closed = self.groups.closed(self.state, row);
            fill_open(table, row, closed, holder, cost);
            self.groups.set(holder.pair, 1);
        }
        if holder.pair != NOBODY && held > self.state.least_of(holder.row) {
            let edge = Edge::of(cost.wrapping_neg(), holder, NOBODY);
            improve(table, self.state.outside(), edge);
        }
    }

    /// The least edges of a column.
    pub fn fill_from(&mut self, table: &mut [Edge], holders: &[Holder]) {
        for holder in holders {
            self.fill_row(table, *holder);
        }
    }

    /// The least edges of rows that may take one more.
    pub fn fill_outside(&mut self, table: &mut [Edge]) {
        for row in 0..place_at(self.problem.row_count()) {
            if self.state.held_of(row) < self.state.most_of(row) {
                self.fill_row(table, Holder { row, pair: NOBODY });
            }
        }
    }
}
