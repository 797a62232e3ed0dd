// The first one of the best plans of a part, in the order of their columns.
use super::inner::Inner;
use super::part::Part;
use super::values::{set_value, value_at};
use std::alloc::{AllocError, Global};

/// A search along the pairs of reduced weight 0: from the holder of a column that a first row is to take,
/// to a row that can take the one that the first gives up.
#[derive(Drop)]
pub struct Earliest {
    /// For how many rows was searched, and for which of them each row was met last.
    count: usize,
    met: Vec<usize>,
    /// The same of the rows that can take its column.
    takers: Vec<usize>,
    /// Rows whose pairs weren't looked at yet.
    ahead: Vec<usize>,
    /// The row that takes the column of each row that was met, and this column.
    from: Vec<usize>,
    by: Vec<usize>,
}

impl Earliest {
    pub fn new(alloc: Global, inner: &Inner) -> Result<Earliest, AllocError> {
        let rows = inner.rows().wrapping_add(1);
        Ok(Earliest {
            count: 0,
            met: vec![in alloc; 0usize; rows]?,
            takers: vec![in alloc; 0usize; rows]?,
            ahead: Vec::new(alloc),
            from: vec![in alloc; 0usize; rows]?,
            by: vec![in alloc; 0usize; rows]?,
        })
    }

    // Begins with the rows that can take the column of a first one; returns whether there are any.
    fn begin(&mut self, inner: &Inner, part: &Part, first: usize) -> bool {
        let (own, mut is_wanted) = (part.column(first), false);
        self.count = self.count.wrapping_add(1);
        for place in inner.taker_start(own)..inner.taker_start(own.wrapping_add(1)) {
            let (row, pair) = inner.taker(place);
            if row > first && part.reduced(inner, row, pair) == 0 {
                set_value(self.takers.as_mut_slice(), row, self.count);
                is_wanted = true;
            }
        }
        is_wanted
    }

    fn has_met(&self, row: usize) -> bool {
        value_at(self.met.as_slice(), row, 0) == self.count
    }

    // Meets the row whose column another one takes; returns whether it can take that of the first.
    fn meet(&mut self, row: usize, from: usize, column: usize) -> Result<bool, AllocError> {
        set_value(self.met.as_mut_slice(), row, self.count);
        set_value(self.from.as_mut_slice(), row, from);
        set_value(self.by.as_mut_slice(), row, column);
        self.ahead.push(row)?;
        Ok(value_at(self.takers.as_slice(), row, 0) == self.count)
    }

    // Looks at the pairs of a row that must give up a column. Returns a row that can take that of the first.
    fn look(
        &mut self,
        inner: &Inner,
        part: &Part,
        first: usize,
        row: usize,
    ) -> Result<Option<usize>, AllocError> {
        let value = part.value(row);
        let (columns, weights) = inner.pairs(row);
        for (column, weight) in columns.iter().zip(weights.iter()) {
            let holder = part.holder(*column);
            let is_next = holder > first && part.sum(*column, *weight) == value;
            if is_next && !self.has_met(holder) && self.meet(holder, row, *column)? {
                return Ok(Some(holder));
            }
        }
        Ok(None)
    }

    // The row that takes the column of the first one, if this can take a column.
    fn search(
        &mut self,
        inner: &Inner,
        part: &Part,
        first: usize,
        column: usize,
        arc_scans: &mut u64,
    ) -> Result<Option<usize>, AllocError> {
        let holder = part.holder(column);
        if self.has_met(holder) {
            return Ok(None);
        }
        self.ahead.clear();
        if self.meet(holder, first, column)? {
            return Ok(Some(holder));
        }
        for _ in 0..inner.rows().wrapping_add(1) {
            let Some(row) = self.ahead.pop() else {
                return Ok(None);
            };
            let width = inner.end(row).saturating_sub(inner.start(row));
            *arc_scans = arc_scans.saturating_sub(width as u64);
            let last = self.look(inner, part, first, row)?;
            if last.is_some() {
                return Ok(last);
            }
        }
        Ok(None)
    }

    // Gives the columns of a way to those that take them, from the row that takes that of the first.
    fn give(&self, part: &mut Part, first: usize, last: usize) {
        let (mut row, mut column) = (last, part.column(first));
        for _ in 0..self.from.len() {
            part.give(row, column);
            if row == first {
                break;
            }
            column = value_at(self.by.as_slice(), row, 0);
            row = value_at(self.from.as_slice(), row, first);
        }
    }

    // Gives a row the first column that it can have, if the rows before keep theirs.
    fn improve(
        &mut self,
        inner: &Inner,
        part: &mut Part,
        row: usize,
        arc_scans: &mut u64,
    ) -> Result<(), AllocError> {
        let (own, value, mut is_begun) = (part.column(row), part.value(row), false);
        let (columns, weights) = inner.pairs(row);
        for (column, weight) in columns.iter().zip(weights.iter()) {
            if *column >= own {
                return Ok(());
            }
            if part.sum(*column, *weight) == value && part.allows(row, *column) {
                if !is_begun && !self.begin(inner, part, row) {
                    return Ok(());
                }
                is_begun = true;
                if let Some(last) = self.search(inner, part, row, *column, arc_scans)? {
                    self.give(part, row, last);
                    return Ok(());
                }
            }
        }
        Ok(())
    }

    /// Makes the plan of a part the first one of those that cost as little.
    pub fn improve_all(
        &mut self,
        inner: &Inner,
        part: &mut Part,
        arc_scans: &mut u64,
    ) -> Result<(), AllocError> {
        for row in part.first()..inner.rows() {
            *arc_scans = arc_scans.saturating_sub(1);
            if *arc_scans == 0 {
                return Ok(());
            }
            self.improve(inner, part, row, arc_scans)?;
        }
        Ok(())
    }
}
