// The least dear way for a row to give up its column.
use super::inner::Inner;
use super::part::Part;
use super::paths::Paths;
use super::values::{set_value, value_at};
use assign_core::Cost;
use std::alloc::{AllocError, Global};

/// A search along the pairs of a part.
#[derive(Drop)]
pub struct Cheapest {
    /// How far each column is from the row; the row's own one without the least weight that leads there.
    paths: Paths,
    least_back: Cost,
    /// The row by which each column was reached, and the column by which each row was.
    from: Vec<usize>,
    via: Vec<usize>,
}

// The least reduced weight by which a row after this one takes its column.
fn least_back(inner: &Inner, part: &Part, first: usize) -> Cost {
    let (own, mut least) = (part.column(first), Cost::MAX);
    for place in inner.taker_start(own)..inner.taker_start(own.wrapping_add(1)) {
        let (row, pair) = inner.taker(place);
        if row > first {
            least = least.min(part.reduced(inner, row, pair));
        }
    }
    least
}

impl Cheapest {
    pub fn new(alloc: Global, inner: &Inner) -> Result<Cheapest, AllocError> {
        Ok(Cheapest {
            paths: Paths::new(alloc, inner.columns())?,
            from: vec![in alloc; 0usize; inner.columns()]?,
            via: vec![in alloc; 0usize; inner.rows().wrapping_add(1)]?,
            least_back: 0,
        })
    }

    // Looks at the pairs of a row at a distance from the first one, up to this length.
    fn look(
        &mut self,
        inner: &Inner,
        part: &Part,
        first: usize,
        (row, length): (usize, Cost),
        most: Cost,
    ) -> Result<(), AllocError> {
        let (own, before) = (part.column(row), length.saturating_sub(part.value(row)));
        let end = part.column(first);
        let (columns, weights) = inner.pairs(row);
        for (column, weight) in columns.iter().zip(weights.iter()) {
            let mut longer = before.saturating_add(part.sum(*column, *weight));
            if *column == end {
                longer = longer.saturating_sub(self.least_back);
            }
            if longer <= most
                && *column != own
                && part.holder(*column) >= first
                && (row != first || part.allows(first, *column))
                && self.paths.reach(*column, longer)?
            {
                set_value(self.from.as_mut_slice(), *column, row);
            }
        }
        Ok(())
    }

    /// How much more the best plan costs than this one of those in which a row gives up its column, and the
    /// rows before keep theirs, if that is at most so much.
    pub fn search(
        &mut self,
        inner: &Inner,
        part: &Part,
        first: usize,
        most: Cost,
        arc_scans: &mut u64,
    ) -> Result<Option<Cost>, AllocError> {
        let (own, last) = (part.column(first), inner.rows());
        let mut is_nobody_met = false;
        self.least_back = least_back(inner, part, first);
        let most = most.saturating_sub(self.least_back);
        self.look(inner, part, first, (first, 0), most)?;
        for _ in 0..inner.size().wrapping_add(1) {
            let Some((column, length)) = self.paths.next() else {
                return Ok(None);
            };
            if column == own {
                return Ok(Some(length.saturating_add(self.least_back)));
            }
            let holder = part.holder(column);
            if holder != last || !is_nobody_met {
                is_nobody_met = is_nobody_met || holder == last;
                set_value(self.via.as_mut_slice(), holder, column);
                let width = inner.end(holder).saturating_sub(inner.start(holder));
                *arc_scans = arc_scans.saturating_sub(width as u64);
                self.look(inner, part, first, (holder, length), most)?;
            }
        }
        Ok(None)
    }

    // Raises values and prices, and lowers that of the row's own column, so that the pairs of the way have
    // the reduced weight 0.
    fn raise(&self, part: &mut Part, last: usize, first: usize, own: usize) {
        let (mut of_nobody, length) = (0, self.paths.distance(own));
        part.raise_value(first, length);
        part.raise_price(own, self.least_back.wrapping_neg());
        for column in self.paths.reached() {
            let rise = length.saturating_sub(self.paths.distance(*column));
            let holder = part.holder(*column);
            if rise > 0 && holder == last {
                of_nobody = of_nobody.max(rise);
            } else if rise > 0 {
                part.raise_value(holder, rise);
            }
            part.raise_price(*column, rise.max(0));
        }
        part.raise_value(last, of_nobody);
    }

    // Gives each row of the way to a column what it was reached by.
    fn give(&self, part: &mut Part, first: usize, own: usize) {
        let mut column = own;
        for _ in 0..self.via.len() {
            let row = value_at(self.from.as_slice(), column, first);
            part.give(row, column);
            if row == first {
                return;
            }
            column = value_at(self.via.as_slice(), row, own);
        }
    }

    /// The part of the plans that a search was through, with the best one, which costs so much more.
    pub fn split(
        &self,
        alloc: Global,
        inner: &Inner,
        part: &Part,
        first: usize,
        length: Cost,
    ) -> Result<Part, AllocError> {
        let (mut other, own) = (part.split(alloc, first)?, part.column(first));
        other.add_cost(length);
        self.raise(&mut other, inner.rows(), first, own);
        self.give(&mut other, first, own);
        Ok(other)
    }

    /// Forgets a search.
    pub fn clear(&mut self) {
        self.paths.clear();
    }
}
