// Of all plans over tight pairs one that changes fewest persons, by alternating cycles. A pair costs 1 if it isn't
// kept, and potentials show that no plan is cheaper. Nobody vouches for what is found here.
use super::tight::Tight;
use cost_lists::{Object, Person};
use search_base::{NOBODY, at, place_at, put};
use std::alloc::{AllocError, Global};

// Who takes what no person has, where the price is 0.
const DUMMY: u32 = u32::MAX - 1;

/// Tight pairs, rising by persons, with the place where each person's begin.
#[derive(Clone, Copy)]
pub struct Rows<'a> {
    pub starts: &'a [usize],
    pub pairs: &'a [Tight],
}

impl<'a> Rows<'a> {
    fn of(self, person: u32) -> &'a [Tight] {
        let from = self.starts.get(person as usize).copied();
        let to = self.starts.get((person as usize).wrapping_add(1)).copied();
        let (from, to) = (from.unwrap_or(0), to.unwrap_or(0));
        self.pairs.get(from..to).unwrap_or(&[])
    }

    fn has(self, person: u32, object: u32) -> bool {
        self.of(person).iter().any(|pair| pair.object == object)
    }
}

/// Where each person's pairs begin, and the end of the last one's.
pub fn starts_of(alloc: Global, n: usize, pairs: &[Tight]) -> Result<Vec<usize>, AllocError> {
    let mut starts = vec![in alloc; 0usize; n.wrapping_add(1)]?;
    let mut end = 0usize;
    for pair in pairs {
        end = end.wrapping_add(1);
        if let Some(start) = starts.get_mut((pair.person as usize).wrapping_add(1)) {
            *start = end;
        }
    }
    Ok(starts)
}

/// A plan over tight pairs, by places from 0, with potentials.
#[derive(Drop)]
pub struct Cycles<'a> {
    rows: Rows<'a>,
    /// The kept objects, by numbers from 1.
    kept: &'a [Object],
    /// The objects whose price is 0, if there are more objects than persons.
    unpriced: &'a [u32],
    pub objects: Vec<Object>,
    owners: Vec<Person>,
    // What a person's own pair costs with its object's potential.
    levels: Vec<i64>,
    potentials: Vec<i64>,
    // The potential of objects that nobody has.
    base: i64,
    // The objects that this search reached, in their order, and the persons before them.
    reached: Vec<u32>,
    before: Vec<u32>,
    marks: Vec<u32>,
    mark: u32,
    // The object without an owner by which the dummies were reached.
    spare: u32,
    // How many pairs may still be read.
    left: usize,
}

fn enter_owners(objects: &[Object], owners: &mut [Person]) {
    for (person, object) in objects.iter().enumerate() {
        put(owners, *object, place_at(person));
    }
}

// What the own pairs cost.
fn enter_levels(objects: &[Object], kept: &[Object], levels: &mut [i64]) {
    for ((level, object), kept) in levels.iter_mut().zip(objects).zip(kept) {
        *level = i64::from(object.wrapping_add(1) != *kept);
    }
}

fn number_at(numbers: &[i64], place: u32) -> i64 {
    numbers.get(place as usize).copied().unwrap_or(0)
}

fn add_to(numbers: &mut [i64], place: u32, more: i64) {
    if let Some(number) = numbers.get_mut(place as usize) {
        *number = number.wrapping_add(more);
    }
}

impl<'a> Cycles<'a> {
    /// A plan that begins, which may read so many pairs.
    pub fn new(
        alloc: Global,
        rows: Rows<'a>,
        kept: &'a [Object],
        unpriced: &'a [u32],
        objects: Vec<Object>,
        m: usize,
        left: usize,
    ) -> Result<Cycles<'a>, AllocError> {
        let mut owners = vec![in alloc; NOBODY; m]?;
        enter_owners(objects.as_slice(), owners.as_mut_slice());
        let mut levels = vec![in alloc; 0i64; objects.len()]?;
        enter_levels(objects.as_slice(), kept, levels.as_mut_slice());
        Ok(Cycles {
            rows,
            kept,
            unpriced,
            objects,
            owners,
            levels,
            potentials: vec![in alloc; 0i64; m]?,
            base: 0,
            reached: Vec::new(alloc),
            before: vec![in alloc; NOBODY; m]?,
            marks: vec![in alloc; 0u32; m]?,
            mark: 0,
            spare: NOBODY,
            left,
        })
    }

    /// The potential of an object, less that of objects that nobody has.
    pub fn potential(&self, object: u32) -> i64 {
        number_at(self.potentials.as_slice(), object).wrapping_sub(self.base)
    }

    fn is_reached(&self, object: u32) -> bool {
        self.marks.get(object as usize).copied() == Some(self.mark)
    }

    fn reach(&mut self, object: u32, from: u32) -> Result<(), AllocError> {
        if !self.is_reached(object) {
            put(self.marks.as_mut_slice(), object, self.mark);
            put(self.before.as_mut_slice(), object, from);
            self.reached.push(object)?;
        }
        Ok(())
    }

    // Reaches the objects that a person can have for the same.
    fn scan_person(&mut self, person: u32) -> Result<(), AllocError> {
        let (row, kept) = (self.rows.of(person), at(self.kept, person));
        let level = number_at(self.levels.as_slice(), person);
        self.left = self.left.saturating_sub(row.len());
        for pair in row {
            let cost = i64::from(pair.object.wrapping_add(1) != kept);
            let potential = number_at(self.potentials.as_slice(), pair.object);
            if potential.wrapping_add(cost) == level {
                self.reach(pair.object, person)?;
            }
        }
        Ok(())
    }

    // Reaches the objects that the dummies can have for the same, where they give up this one.
    fn scan_dummies(&mut self, object: u32) -> Result<(), AllocError> {
        self.spare = object;
        for other in self.unpriced {
            if number_at(self.potentials.as_slice(), *other) == self.base {
                self.reach(*other, DUMMY)?;
            }
        }
        Ok(())
    }

    // Searches a way that costs nothing from a person's kept object to its own one.
    fn is_cycle(&mut self, person: u32, kept: u32, own: u32) -> Result<bool, AllocError> {
        self.reached.clear();
        self.mark = self.mark.wrapping_add(1);
        self.spare = NOBODY;
        self.reach(kept, person)?;
        for k in 0..self.potentials.len() {
            let Some(object) = self.reached.get(k).copied() else {
                return Ok(false);
            };
            let owner = at(self.owners.as_slice(), object);
            if owner != NOBODY {
                self.scan_person(owner)?;
            } else if self.spare == NOBODY {
                self.scan_dummies(object)?;
            }
            if self.is_reached(own) {
                return Ok(true);
            }
        }
        Ok(false)
    }

    // Raises the potentials of what was reached, and the levels of the owners.
    fn raise(&mut self) {
        for object in &self.reached {
            add_to(self.potentials.as_mut_slice(), *object, 1);
            let owner = at(self.owners.as_slice(), *object);
            add_to(self.levels.as_mut_slice(), owner, 1);
        }
        if self.spare != NOBODY {
            self.base = self.base.wrapping_add(1);
        }
    }

    // Gives the objects on the way to those who reached them, from a person's own object back to its kept one.
    fn exchange(&mut self, person: u32, own: u32) {
        let mut object = own;
        for _ in 0..self.potentials.len() {
            let from = at(self.before.as_slice(), object);
            if from == DUMMY {
                put(self.owners.as_mut_slice(), object, NOBODY);
                object = self.spare;
            } else {
                let former = at(self.objects.as_slice(), from);
                put(self.objects.as_mut_slice(), from, object);
                put(self.owners.as_mut_slice(), object, from);
                object = former;
            }
            if from == person {
                return;
            }
        }
    }

    // Lets a person have its kept object, if the pair is tight and no plan that has it costs more; else raises
    // potentials until they show that each does. Returns whether it is done before too many pairs are read.
    fn settle(&mut self, person: u32) -> Result<bool, AllocError> {
        let kept = at(self.kept, person).wrapping_sub(1);
        let own = at(self.objects.as_slice(), person);
        if kept == own || !self.rows.has(person, kept) {
            return Ok(true);
        }
        for _ in 0..=self.objects.len() {
            let potential = number_at(self.potentials.as_slice(), kept);
            if number_at(self.levels.as_slice(), person) <= potential {
                return Ok(true);
            }
            if self.is_cycle(person, kept, own)? {
                self.exchange(person, own);
                if let Some(level) = self.levels.get_mut(person as usize) {
                    *level = potential;
                }
                return Ok(true);
            }
            self.raise();
            if self.left == 0 {
                return Ok(false);
            }
        }
        Ok(false)
    }

    /// Settles all persons. Returns whether it is done before too many pairs are read.
    pub fn settle_all(&mut self) -> Result<bool, AllocError> {
        for person in 0..self.objects.len() {
            if !self.settle(place_at(person))? {
                return Ok(false);
            }
        }
        Ok(true)
    }
}
