// The persons and objects of a core that can change places.
use super::arcs::Arcs;
use super::components::{Components, components_of};
use super::values::{elements, place_of, set_value, value_at};
use assign_core::Cost;
use cost_lists::Object;
use std::alloc::{AllocError, Global};

/// Rows are the persons that lie on cycles of a core, in their order, and after them one that stands
/// for nobody. Columns are the objects that these own, and those that nobody owns and they list, in
/// their order. A row's own pair, of weight 0, is among its pairs.
#[derive(Drop)]
pub struct Inner {
    /// The place of the person of each row.
    persons: Vec<usize>,
    /// The object of each column.
    objects: Vec<Object>,
    /// Where the pairs of each row begin, and where the last ones end.
    starts: Vec<usize>,
    /// The column of each pair: in a person's row they rise.
    columns: Vec<usize>,
    weights: Vec<Cost>,
    /// The own column of each row, and the row that owns each column, by the given plan.
    own: Vec<usize>,
    owners: Vec<usize>,
    /// Where the rows that list each column begin, and these with the places of their pairs.
    taker_starts: Vec<usize>,
    takers: Vec<(usize, usize)>,
}

impl Inner {
    /// How many rows there are, without that of nobody. It has this place.
    pub fn rows(&self) -> usize {
        self.persons.len()
    }

    /// How many columns there are.
    pub fn columns(&self) -> usize {
        self.objects.len()
    }

    /// How many pairs there are.
    pub fn size(&self) -> usize {
        self.columns.len()
    }

    /// Where the pairs of a row begin, and those of the row before it end.
    pub fn start(&self, row: usize) -> usize {
        value_at(self.starts.as_slice(), row, 0)
    }

    /// The places of the pairs of a row.
    pub fn end(&self, row: usize) -> usize {
        self.start(row.wrapping_add(1))
    }

    /// The columns and the weights of the pairs of a row.
    pub fn pairs(&self, row: usize) -> (&[usize], &[Cost]) {
        let (start, end) = (self.start(row), self.end(row));
        let columns = elements(self.columns.as_slice(), start, end);
        (columns, elements(self.weights.as_slice(), start, end))
    }

    /// The column of the pair at a place.
    pub fn column(&self, pair: usize) -> usize {
        value_at(self.columns.as_slice(), pair, 0)
    }

    /// The weight of the pair at a place.
    pub fn weight(&self, pair: usize) -> Cost {
        value_at(self.weights.as_slice(), pair, Cost::MAX)
    }

    /// The place of the person of a row.
    pub fn person(&self, row: usize) -> usize {
        value_at(self.persons.as_slice(), row, usize::MAX)
    }

    /// The object of a column.
    pub fn object(&self, column: usize) -> Object {
        value_at(self.objects.as_slice(), column, 0)
    }

    /// Where the rows that list a column begin.
    pub fn taker_start(&self, column: usize) -> usize {
        value_at(self.taker_starts.as_slice(), column, 0)
    }

    /// A row that lists a column, and the place of the pair.
    pub fn taker(&self, place: usize) -> (usize, usize) {
        value_at(self.takers.as_slice(), place, (0, usize::MAX))
    }

    /// The own column of each row.
    pub fn own(&self) -> &[usize] {
        self.own.as_slice()
    }

    /// The row that owns each column.
    pub fn owners(&self) -> &[usize] {
        self.owners.as_slice()
    }

    fn push(&mut self, column: usize, weight: Cost) -> Result<(), AllocError> {
        self.columns.push(column)?;
        self.weights.push(weight)?;
        Ok(())
    }

    // Adds up how many rows list each column, into where these rows end.
    fn count_takers(&mut self) -> Result<(), AllocError> {
        for _ in 0..self.objects.len().wrapping_add(1) {
            self.taker_starts.push(0)?;
        }
        let starts = self.taker_starts.as_mut_slice();
        for column in self.columns.iter() {
            let count = value_at(starts, *column, 0);
            set_value(starts, *column, count.wrapping_add(1));
        }
        let mut sum = 0usize;
        for start in starts.iter_mut() {
            sum = sum.wrapping_add(*start);
            *start = sum;
        }
        Ok(())
    }

    // Puts a row before those that list its columns.
    fn put_taker(&mut self, row: usize) {
        for pair in self.start(row)..self.end(row) {
            let column = self.column(pair);
            let place = self.taker_start(column).wrapping_sub(1);
            set_value(self.taker_starts.as_mut_slice(), column, place);
            set_value(self.takers.as_mut_slice(), place, (row, pair));
        }
    }

    // Lists the rows of each column.
    fn add_takers(&mut self, alloc: Global) -> Result<(), AllocError> {
        self.count_takers()?;
        self.takers = vec![in alloc; (0usize, 0usize); self.size()]?;
        for row in 0..self.rows().wrapping_add(1) {
            self.put_taker(row);
        }
        Ok(())
    }
}

// A core, the components of its nodes, the given plan, and for each object its column.
#[derive(Drop)]
struct Making<'a> {
    arcs: &'a Arcs,
    components: Components,
    objects: &'a [Object],
    columns: Vec<usize>,
}

// Marks an object that has no column yet.
const MARKED: usize = 0;

const UNMARKED: usize = usize::MAX;

impl Making<'_> {
    fn own(&self, node: usize) -> Object {
        value_at(self.objects, node, 0)
    }

    fn column(&self, object: Object) -> usize {
        value_at(self.columns.as_slice(), place_of(object), UNMARKED)
    }

    // The object of an arc, if it lies on a cycle.
    fn joined(&self, node: usize, arc: usize) -> Option<Object> {
        let object = self.arcs.object(node, arc)?;
        if self.components.are_joined(node, self.arcs.owner(object)) {
            Some(object)
        } else {
            None
        }
    }

    // Marks the objects of a row.
    fn mark(&mut self, node: usize) {
        let own = self.own(node);
        set_value(self.columns.as_mut_slice(), place_of(own), MARKED);
        for arc in self.arcs.start(node)..self.arcs.start(node.wrapping_add(1)) {
            if let Some(object) = self.joined(node, arc) {
                set_value(self.columns.as_mut_slice(), place_of(object), MARKED);
            }
        }
    }

    // Marks the objects of all rows, and adds the rows.
    fn add_rows(&mut self, inner: &mut Inner) -> Result<(), AllocError> {
        for node in 0..self.objects.len() {
            if self.components.is_live(node) {
                self.mark(node);
                inner.persons.push(node)?;
            }
        }
        Ok(())
    }

    // Gives each marked object a column.
    fn add_columns(&mut self, inner: &mut Inner) -> Result<(), AllocError> {
        let mut object: Object = 0;
        for column in self.columns.iter_mut() {
            object = object.wrapping_add(1);
            if *column != UNMARKED {
                *column = inner.objects.len();
                inner.objects.push(object)?;
                inner.owners.push(usize::MAX)?;
            }
        }
        Ok(())
    }

    // Adds the pairs of a person's row. Of several pairs of one object the first one counts.
    fn add_pairs(&self, inner: &mut Inner, node: usize) -> Result<(), AllocError> {
        let own = self.own(node);
        let (mut before, mut is_own_due) = (0, true);
        for arc in self.arcs.start(node)..self.arcs.start(node.wrapping_add(1)) {
            if let Some(object) = self.joined(node, arc) {
                if is_own_due && object > own {
                    inner.push(self.column(own), 0)?;
                    is_own_due = false;
                }
                if object != before {
                    inner.push(self.column(object), self.arcs.weight(arc))?;
                    before = object;
                }
            }
        }
        if is_own_due {
            inner.push(self.column(own), 0)?;
        }
        Ok(())
    }

    // Adds the pairs of all persons' rows.
    fn add_all(&self, inner: &mut Inner) -> Result<(), AllocError> {
        for row in 0..inner.persons.len() {
            inner.starts.push(inner.columns.len())?;
            let node = inner.person(row);
            self.add_pairs(inner, node)?;
            let column = self.column(self.own(node));
            inner.own.push(column)?;
            set_value(inner.owners.as_mut_slice(), column, row);
        }
        Ok(())
    }

    // Adds the pairs of the row of nobody with objects of others.
    fn add_taken(&self, inner: &mut Inner, last: usize) -> Result<(), AllocError> {
        for arc in self.arcs.start(last)..self.arcs.start(last.wrapping_add(1)) {
            if let Some(object) = self.joined(last, arc) {
                inner.push(self.column(object), self.arcs.weight(arc))?;
            }
        }
        Ok(())
    }

    // Adds its pairs with its own objects.
    fn add_unowned(&self, inner: &mut Inner) -> Result<(), AllocError> {
        let last = inner.persons.len();
        for column in 0..inner.objects.len() {
            if value_at(inner.owners.as_slice(), column, 0) > last {
                set_value(inner.owners.as_mut_slice(), column, last);
                inner.push(column, 0)?;
            }
        }
        Ok(())
    }
}

/// What can change places in the core of a best plan.
pub fn inner_of(
    alloc: Global,
    arcs: &Arcs,
    objects: &[Object],
    m: usize,
) -> Result<Inner, AllocError> {
    let mut inner = Inner {
        persons: Vec::new(alloc),
        objects: Vec::new(alloc),
        starts: Vec::new(alloc),
        columns: Vec::with_capacity(alloc, arcs.size())?,
        weights: Vec::with_capacity(alloc, arcs.size())?,
        own: Vec::new(alloc),
        owners: Vec::new(alloc),
        taker_starts: Vec::new(alloc),
        takers: Vec::new(alloc),
    };
    let mut making = Making {
        arcs,
        components: components_of(alloc, arcs)?,
        objects,
        columns: vec![in alloc; UNMARKED; m]?,
    };
    making.add_rows(&mut inner)?;
    making.add_columns(&mut inner)?;
    making.add_all(&mut inner)?;
    inner.starts.push(inner.columns.len())?;
    making.add_taken(&mut inner, objects.len())?;
    making.add_unowned(&mut inner)?;
    inner.starts.push(inner.columns.len())?;
    inner.add_takers(alloc)?;
    Ok(inner)
}
