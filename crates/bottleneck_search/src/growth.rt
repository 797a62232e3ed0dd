// A matching that grows by one person at a time, up to a threshold that is raised where it has to be
// (Derigs and Zimmermann 1978).
use super::found::{Found, made_of, set_of};
use super::rows::{Rows, is_any_below, turned};
use super::steps::Table;
use assign_core::Cost;
use search_base::{ArcScans, NOBODY, at, is_unowned, place_at, put};
use sparse_search::Pair;
use std::alloc::{AllocError, Global};

// So many costs of a row are looked at together.
const TOGETHER: usize = 16;

// Stands for the least cost of a labelled object: no cost is below it.
const LABELLED: Cost = Cost::MIN;

/// How a matching ended.
#[derive(Clone, Copy, PartialEq, Eq)]
pub enum Grown {
    /// Each person has an object.
    Full,
    /// The arc scans are spent.
    Stopped,
    /// A person reaches no object.
    Blocked,
}

/// A matching, and the paths that are looked for.
#[derive(Drop)]
pub struct Growth {
    pub objects: Vec<u32>,
    owners: Vec<u32>,
    // The least cost of each object among labelled persons, and who has it.
    least: Vec<Cost>,
    from: Vec<u32>,
    // Persons without objects, and owners of labelled objects.
    labelled: Vec<u32>,
    pub threshold: Cost,
    // Who was labelled when the threshold was raised: these persons list fewer objects below it.
    short_persons: Vec<u32>,
    short_objects: Vec<u32>,
}

impl Growth {
    /// Begins from those of these objects that nobody else has and that their persons list.
    pub fn begin(
        alloc: Global,
        table: Table<'_>,
        objects: &[u32],
        threshold: Cost,
    ) -> Result<Growth, AllocError> {
        let mut growth = Growth {
            objects: vec![in alloc; NOBODY; objects.len()]?,
            owners: vec![in alloc; NOBODY; table.objects()]?,
            least: vec![in alloc; Cost::MAX; table.objects()]?,
            from: vec![in alloc; NOBODY; table.objects()]?,
            labelled: Vec::new(alloc),
            threshold,
            short_persons: Vec::new(alloc),
            short_objects: Vec::new(alloc),
        };
        for (k, object) in objects.iter().enumerate() {
            let person = place_at(k);
            if is_unowned(growth.owners.as_slice(), *object)
                && table.cost(person, *object) < Cost::MAX
            {
                growth.give(*object, person);
            }
        }
        Ok(growth)
    }

    fn give(&mut self, object: u32, person: u32) {
        put(self.owners.as_mut_slice(), object, person);
        put(self.objects.as_mut_slice(), person, object);
    }

    fn is_full(&self) -> bool {
        self.objects.iter().all(|object| *object != NOBODY)
    }

    // Labels the persons without objects alone.
    fn begin_path(&mut self) -> Result<(), AllocError> {
        for least in self.least.as_mut_slice().iter_mut() {
            *least = Cost::MAX;
        }
        self.begin_labels()
    }

    fn begin_labels(&mut self) -> Result<(), AllocError> {
        self.labelled.clear();
        for (k, object) in self.objects.iter().enumerate() {
            if *object == NOBODY {
                self.labelled.push(place_at(k))?;
            }
        }
        Ok(())
    }

    // Labels an object and its owner. Whether it has none.
    fn label(&mut self, object: u32) -> Result<bool, AllocError> {
        if let Some(least) = self.least.get_mut(object as usize) {
            *least = LABELLED;
        }
        let owner = at(self.owners.as_slice(), object);
        if owner == NOBODY {
            return Ok(true);
        }
        self.labelled.push(owner)?;
        Ok(false)
    }

    // Takes note of a labelled person's pair. Whether it leads to an object without an owner.
    fn see(&mut self, person: u32, object: u32, cost: Cost) -> Result<bool, AllocError> {
        let Some(least) = self.least.get_mut(object as usize) else {
            return Ok(false);
        };
        if cost >= *least {
            return Ok(false);
        }
        *least = cost;
        put(self.from.as_mut_slice(), object, person);
        if cost > self.threshold {
            return Ok(false);
        }
        self.label(object)
    }

    // The pairs of some costs of a row, of which the first is that of an object.
    fn scan_part(
        &mut self,
        person: u32,
        costs: &[Cost],
        flip: Cost,
        first: usize,
    ) -> Result<u32, AllocError> {
        for (k, cost) in costs.iter().enumerate() {
            let object = place_at(first.wrapping_add(k));
            if self.see(person, object, turned(*cost, flip))? {
                return Ok(object);
            }
        }
        Ok(NOBODY)
    }

    fn scan_row(&mut self, rows: Rows<'_>, person: u32) -> Result<u32, AllocError> {
        let (mut rest, mut first) = (rows.row(person), 0usize);
        for _ in 0..rest.len() {
            if rest.is_empty() {
                return Ok(NOBODY);
            }
            let (part, others) = rest.split_at(TOGETHER.min(rest.len()));
            let end = first.wrapping_add(part.len());
            let least = self.least.get(first..end).unwrap_or(&[]);
            if is_any_below(part, rows.flip, least) {
                let object = self.scan_part(person, part, rows.flip, first)?;
                if object != NOBODY {
                    return Ok(object);
                }
            }
            (rest, first) = (others, end);
        }
        Ok(NOBODY)
    }

    fn scan_pairs(&mut self, row: &[Pair], person: u32) -> Result<u32, AllocError> {
        for pair in row {
            if self.see(person, pair.object, pair.cost)? {
                return Ok(pair.object);
            }
        }
        Ok(NOBODY)
    }

    // Looks at a person's pairs, up to one that leads to an object without an owner.
    fn scan(
        &mut self,
        table: Table<'_>,
        person: u32,
        arc_scans: &mut ArcScans,
    ) -> Result<u32, AllocError> {
        match table {
            Table::Rows(rows) => {
                arc_scans.add(rows.objects);
                self.scan_row(rows, person)
            }
            Table::Pairs(problem) => {
                let row = problem.row(person);
                arc_scans.add(row.len());
                self.scan_pairs(row, person)
            }
        }
    }

    // Keeps who is labelled: persons, rising, and objects.
    fn keep_short(&mut self) -> Result<(), AllocError> {
        self.short_persons.clear();
        self.short_persons
            .extend_from_slice(self.labelled.as_slice())?;
        self.short_objects.clear();
        for (k, least) in self.least.iter().enumerate() {
            if *least == LABELLED {
                self.short_objects.push(place_at(k))?;
            }
        }
        Ok(())
    }

    // The least cost from labelled persons to others' objects.
    fn least_out(&self) -> Cost {
        let mut next = Cost::MAX;
        for least in self.least.iter() {
            if *least != LABELLED {
                next = next.min(*least);
            }
        }
        next
    }

    // Labels the objects that a new threshold reaches, up to one without an owner.
    fn label_reached(&mut self) -> Result<u32, AllocError> {
        for k in 0..self.least.len() {
            let least = self.least.get(k).copied().unwrap_or(LABELLED);
            if least != LABELLED && least <= self.threshold && self.label(place_at(k))? {
                return Ok(place_at(k));
            }
        }
        Ok(NOBODY)
    }

    // Raises the threshold until it reaches an object. One without an owner, if there is one.
    fn raise(&mut self) -> Result<u32, AllocError> {
        let next = self.least_out();
        if next == Cost::MAX {
            return Ok(NOBODY);
        }
        self.keep_short()?;
        self.threshold = next;
        self.label_reached()
    }

    // The last object of a path from a person without one, which has no owner.
    fn find_path(&mut self, table: Table<'_>, arc_scans: &mut ArcScans) -> Result<u32, AllocError> {
        self.begin_path()?;
        let mut turn = 0usize;
        for _ in 0..self.objects.len().saturating_mul(2).saturating_add(1) {
            let found = match self.labelled.get(turn).copied() {
                Some(person) => {
                    turn = turn.wrapping_add(1);
                    self.scan(table, person, arc_scans)?
                }
                None => self.raise()?,
            };
            if found != NOBODY {
                return Ok(found);
            }
        }
        Ok(NOBODY)
    }

    // Gives each object of a path to the person that it was reached from.
    fn take_path(&mut self, last: u32) {
        let mut object = last;
        for _ in 0..self.objects.len() {
            let person = at(self.from.as_slice(), object);
            let before = at(self.objects.as_slice(), person);
            self.give(object, person);
            if before == NOBODY {
                return;
            }
            object = before;
        }
    }

    /// Whether the persons show that no plan has a better worst pair than this matching.
    pub fn is_shown(&self, table: Table<'_>) -> bool {
        let mut worst = Cost::MIN;
        for (k, object) in self.objects.iter().enumerate() {
            worst = worst.max(table.cost(place_at(k), *object));
        }
        worst <= self.threshold && self.short_persons.len() > self.short_objects.len()
    }

    /// The plan, and who shows it.
    pub fn found(self) -> Found {
        let mut short_persons = self.short_persons;
        short_persons.as_mut_slice().sort_unstable();
        made_of(self.objects, set_of(short_persons, self.short_objects))
    }

    /// Grows until each person has an object or the arc scans are spent, but by one person at least.
    pub fn grow(
        &mut self,
        table: Table<'_>,
        arc_scans: &mut ArcScans,
    ) -> Result<Grown, AllocError> {
        for turn in 0..self.objects.len().saturating_add(1) {
            if self.is_full() {
                return Ok(Grown::Full);
            }
            if turn > 0 && arc_scans.is_spent() {
                return Ok(Grown::Stopped);
            }
            let last = self.find_path(table, arc_scans)?;
            if last == NOBODY {
                return Ok(Grown::Blocked);
            }
            self.take_path(last);
        }
        Ok(Grown::Blocked)
    }
}
