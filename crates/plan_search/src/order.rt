// The first plans of a core in the order of their costs, and of their columns where these are the
// same (Murty 1968; with inherited prices, and parts that wait by bounds: Miller, Stone and Cox
// 1997).
use super::cheapest::Cheapest;
use super::earliest::Earliest;
use super::inner::Inner;
use super::least::Least;
use super::part::Part;
use super::queue::{Entry, Queue, Stage};
use super::values::{set_value, value_at};
use assign_core::Cost;
use std::alloc::{AllocError, Global};

/// A search for the first plans.
#[derive(Drop)]
pub struct Order {
    parts: Vec<Part>,
    queue: Queue,
    /// The parts whose plans are in order.
    found: Vec<usize>,
    /// How many plans are wanted, and the greatest cost that one may have.
    count: usize,
    most: Cost,
    /// The least costs of plans that are known, up to that number.
    costs: Least,
    /// The rows by which parts may be split further, of each part in their order, after bounds on the costs
    /// of what that gives, negated, and numbers that fall in the order of the first columns; and before
    /// these columns.
    splits: Vec<(Cost, usize, usize, usize)>,
    /// The least reduced weight of a pair of each column, of the rows after one; and that of each of these
    /// rows with a column that isn't its own.
    entering: Vec<Cost>,
    leaving: Vec<Cost>,
    cheapest: Cheapest,
    earliest: Earliest,
}

impl Order {
    fn new(alloc: Global, inner: &Inner, count: usize, most: Cost) -> Result<Order, AllocError> {
        Ok(Order {
            parts: Vec::new(alloc),
            queue: Queue::new(alloc),
            found: Vec::new(alloc),
            count,
            most,
            costs: Least::new(alloc, count),
            splits: Vec::new(alloc),
            entering: vec![in alloc; Cost::MAX; inner.columns()]?,
            leaving: vec![in alloc; Cost::MAX; inner.rows().wrapping_add(1)]?,
            cheapest: Cheapest::new(alloc, inner)?,
            earliest: Earliest::new(alloc, inner)?,
        })
    }

    /// How many plans were found.
    pub fn found(&self) -> usize {
        self.found.len()
    }

    /// How much more the plan at a place in the order costs than the given one.
    pub fn cost(&self, place: usize) -> Cost {
        let part = value_at(self.found.as_slice(), place, 0);
        match self.parts.get(part) {
            Some(part) => part.cost(),
            None => 0,
        }
    }

    /// The column of a row by the plan at a place in the order.
    pub fn column(&self, place: usize, row: usize) -> usize {
        let part = value_at(self.found.as_slice(), place, 0);
        match self.parts.get(part) {
            Some(part) => part.column(row),
            None => usize::MAX,
        }
    }

    // Keeps the cost of a plan, so that no dearer one is looked for than so many are wanted.
    fn know(&mut self, cost: Cost) -> Result<(), AllocError> {
        self.costs.add(cost)?;
        if let Some(greatest) = self.costs.greatest() {
            self.most = greatest.min(self.most);
        }
        Ok(())
    }

    fn push(
        &mut self,
        cost: Cost,
        stage: Stage,
        (part, row): (usize, usize),
        (known, next): (usize, Option<usize>),
    ) -> Result<(), AllocError> {
        let entry = Entry {
            cost,
            stage,
            part,
            row,
            known,
            next,
        };
        self.queue.push(self.parts.as_slice(), entry)
    }

    // Looks for the best plan of a split.
    fn solve(
        &mut self,
        alloc: Global,
        inner: &Inner,
        entry: Entry,
        arc_scans: &mut u64,
    ) -> Result<(), AllocError> {
        let Some(part) = self.parts.get(entry.part) else {
            return Ok(());
        };
        let (row, most) = (entry.row, self.most.saturating_sub(part.cost()));
        let made = match self.cheapest.search(inner, part, row, most, arc_scans)? {
            None => None,
            Some(length) => {
                let next = first_within(part, inner, row, (part.column(row), length));
                let part = self.cheapest.split(alloc, inner, part, row, length)?;
                Some((part, next))
            }
        };
        self.cheapest.clear();
        match made {
            None => Ok(()),
            Some((part, next)) => self.add_part(part, row, next),
        }
    }

    // Adds a part. In so many rows its first plan has the columns of this one.
    fn add_part(
        &mut self,
        part: Part,
        known: usize,
        next: Option<usize>,
    ) -> Result<(), AllocError> {
        let (cost, place) = (part.cost(), self.parts.len());
        self.know(cost)?;
        self.parts.push(part)?;
        self.push(cost, Stage::Known, (place, 0), (known, next))
    }

    // Finds the first one of the best plans of a part.
    fn improve(
        &mut self,
        inner: &Inner,
        entry: Entry,
        arc_scans: &mut u64,
    ) -> Result<(), AllocError> {
        *arc_scans = arc_scans.saturating_sub(inner.columns() as u64);
        if let Some(part) = self.parts.get_mut(entry.part) {
            self.earliest.improve_all(inner, part, arc_scans)?;
        }
        self.push(
            entry.cost,
            Stage::First,
            (entry.part, 0),
            (inner.rows(), None),
        )
    }

    // What plans cost more at least that differ from a part's first in this row, and the first column that
    // the row has in one at this bound. From now on the row can take columns.
    fn enter(&mut self, inner: &Inner, part: usize, row: usize) -> (Cost, usize) {
        let (mut least, mut next, mut leaving) = (Cost::MAX, usize::MAX, Cost::MAX);
        let Some(part) = self.parts.get(part) else {
            return (least, next);
        };
        let (own, value) = (part.column(row), part.value(row));
        let entering_own = value_at(self.entering.as_slice(), own, Cost::MAX);
        let (columns, weights) = inner.pairs(row);
        for (column, weight) in columns.iter().zip(weights.iter()) {
            let holder = part.holder(*column);
            if holder != row {
                let reduced = part.sum(*column, *weight).saturating_sub(value);
                let entering = value_at(self.entering.as_slice(), *column, 0).min(reduced);
                set_value(self.entering.as_mut_slice(), *column, entering);
                if holder >= part.first() {
                    leaving = leaving.min(reduced);
                }
                let more = value_at(self.leaving.as_slice(), holder, 0).max(entering_own);
                let bound = reduced.saturating_add(more);
                if bound < least && part.allows(row, *column) {
                    least = bound;
                    next = *column;
                }
            }
        }
        set_value(self.leaving.as_mut_slice(), row, leaving);
        (least, next)
    }

    // Bounds the costs of the plans that differ from one first in this row.
    fn bound(&mut self, inner: &Inner, place: usize, row: usize) -> Result<(), AllocError> {
        let (least, next) = self.enter(inner, place, row);
        let Some(part) = self.parts.get(place) else {
            return Ok(());
        };
        let cost = least.saturating_add(part.cost());
        if cost > self.most {
            return Ok(());
        }
        let number = if least > 0 && next < part.column(row) {
            inner.rows().wrapping_mul(2).wrapping_sub(row)
        } else {
            row
        };
        self.splits.push((cost.wrapping_neg(), number, row, next))?;
        Ok(())
    }

    // Adds the next part of the plans that differ from one.
    fn add_split(&mut self, place: usize) -> Result<(), AllocError> {
        let Some(part) = self.parts.get_mut(place) else {
            return Ok(());
        };
        let Some(split) = part.next_split() else {
            return Ok(());
        };
        let (negated, _, row, next) = value_at(self.splits.as_slice(), split, (0, 0, 0, 0));
        let cost = negated.wrapping_neg();
        self.push(cost, Stage::Bound, (place, row), (row, Some(next)))
    }

    // Bounds the costs of all splits of a part from below. At first only nobody can take a column.
    fn bound_all(&mut self, inner: &Inner, place: usize, first: usize) -> Result<(), AllocError> {
        for least in self.entering.iter_mut() {
            *least = Cost::MAX;
        }
        let start = self.splits.len();
        let _nobody = self.enter(inner, place, inner.rows());
        let mut row = inner.rows();
        for _ in first..inner.rows() {
            row = row.wrapping_sub(1);
            self.bound(inner, place, row)?;
        }
        let end = self.splits.len();
        let (_, splits) = self.splits.as_mut_slice().split_at_mut(start.min(end));
        splits.sort_unstable();
        if let Some(part) = self.parts.get_mut(place) {
            part.set_splits(start, end);
        }
        Ok(())
    }

    // Puts a plan into the order, and splits its part.
    fn hand_out(
        &mut self,
        inner: &Inner,
        entry: Entry,
        arc_scans: &mut u64,
    ) -> Result<(), AllocError> {
        self.found.push(entry.part)?;
        let first = match self.parts.get(entry.part) {
            Some(part) => part.first(),
            None => inner.rows(),
        };
        if self.found.len() >= self.count {
            return Ok(());
        }
        self.bound_all(inner, entry.part, first)?;
        let looks = inner.size().saturating_sub(inner.start(first));
        *arc_scans = arc_scans.saturating_sub(looks as u64);
        self.add_split(entry.part)
    }

    // Goes on with the first entry; returns whether there is one.
    fn step(
        &mut self,
        alloc: Global,
        inner: &Inner,
        arc_scans: &mut u64,
    ) -> Result<bool, AllocError> {
        let Some(entry) = self.queue.pop(self.parts.as_slice()) else {
            return Ok(false);
        };
        if entry.cost > self.most {
            return Ok(false);
        }
        *arc_scans = arc_scans.saturating_sub(1);
        match entry.stage {
            Stage::Bound => {
                self.add_split(entry.part)?;
                self.solve(alloc, inner, entry, arc_scans)?;
            }
            Stage::Known => self.improve(inner, entry, arc_scans)?,
            Stage::First => self.hand_out(inner, entry, arc_scans)?,
        }
        Ok(true)
    }
}

// The first column but one that a row may take by a pair of at most a reduced weight.
fn first_within(
    part: &Part,
    inner: &Inner,
    row: usize,
    (other, most): (usize, Cost),
) -> Option<usize> {
    let most = most.saturating_add(part.value(row));
    let (columns, weights) = inner.pairs(row);
    for (column, weight) in columns.iter().zip(weights.iter()) {
        let is_within = part.sum(*column, *weight) <= most;
        if is_within && *column != other && part.allows(row, *column) {
            return Some(*column);
        }
    }
    None
}

/// The first plans of a core, up to a number and a cost.
pub fn order_of(
    alloc: Global,
    inner: &Inner,
    count: usize,
    most: Cost,
    arc_scans: &mut u64,
) -> Result<Order, AllocError> {
    let mut order = Order::new(alloc, inner, count, most)?;
    order.add_part(Part::whole(alloc, inner)?, 0, None)?;
    for _ in 0..u64::MAX {
        if *arc_scans == 0 || order.found() >= count || !order.step(alloc, inner, arc_scans)? {
            break;
        }
    }
    Ok(order)
}
