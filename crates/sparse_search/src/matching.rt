// Matchings of as many persons as possible, costs aside (Hopcroft and Karp 1973), and Hall sets.
use super::outcome::HallSet;
use super::problem::{Pair, SparseProblem};
use search_base::{ArcScans, NOBODY, at, is_unowned, place_at, put};
use std::alloc::{AllocError, Global};

/// Who has which object, and the layers of the search in breadth.
#[derive(Drop)]
pub struct Matching {
    pub owners: Vec<u32>,
    pub objects: Vec<u32>,
    // The layer of each person, from 0 for those without an object; `NOBODY`: none.
    layers: Vec<u32>,
    // The next pair of each row.
    next: Vec<u32>,
    // The persons by layers.
    order: Vec<u32>,
    path: Vec<u32>,
    // The layer from which an unowned object is reached.
    last_layer: u32,
}

/// What is known about a matching.
#[derive(Clone, Copy)]
pub enum Known {
    /// Each person has an object.
    Full,
    /// This person can't get an object unless another loses one.
    Blocked(u32),
    /// Nothing so far.
    Open,
}

fn first_unowned(row: &[Pair], owners: &[u32]) -> u32 {
    for pair in row {
        if is_unowned(owners, pair.object) {
            return pair.object;
        }
    }
    NOBODY
}

fn lists(row: &[Pair], object: u32) -> bool {
    row.iter().any(|pair| pair.object == object)
}

impl Matching {
    /// Begins from those of these objects that their persons list.
    pub fn begin(
        alloc: Global,
        problem: SparseProblem<'_>,
        first: &[u32],
        arc_scans: &mut ArcScans,
    ) -> Result<Matching, AllocError> {
        let persons = problem.persons();
        let mut matching = Matching {
            owners: vec![in alloc; NOBODY; problem.objects]?,
            objects: vec![in alloc; NOBODY; persons]?,
            layers: vec![in alloc; NOBODY; persons]?,
            next: vec![in alloc; 0u32; persons]?,
            order: Vec::new(alloc),
            path: Vec::new(alloc),
            last_layer: NOBODY,
        };
        matching.take_listed(problem, first);
        matching.take_unowned(problem, arc_scans);
        Ok(matching)
    }

    fn take_listed(&mut self, problem: SparseProblem<'_>, first: &[u32]) {
        for (k, object) in first.iter().enumerate() {
            let person = place_at(k);
            let is_free = is_unowned(self.owners.as_slice(), *object);
            if is_free && lists(problem.row(person), *object) {
                self.give(*object, person);
            }
        }
    }

    fn take_unowned(&mut self, problem: SparseProblem<'_>, arc_scans: &mut ArcScans) {
        for person in 0..place_at(problem.persons()) {
            if at(self.objects.as_slice(), person) == NOBODY {
                let row = problem.row(person);
                arc_scans.add(row.len());
                let object = first_unowned(row, self.owners.as_slice());
                if object != NOBODY {
                    self.give(object, person);
                }
            }
        }
    }

    fn give(&mut self, object: u32, person: u32) {
        put(self.owners.as_mut_slice(), object, person);
        put(self.objects.as_mut_slice(), person, object);
    }

    // The first layer: the persons without an object.
    fn begin_layers(&mut self) -> Result<(), AllocError> {
        self.order.clear();
        self.last_layer = NOBODY;
        for k in 0..self.layers.len() {
            let person = place_at(k);
            put(self.next.as_mut_slice(), person, 0);
            let is_free = at(self.objects.as_slice(), person) == NOBODY;
            self.layers[k] = if is_free { 0 } else { NOBODY };
            if is_free {
                self.order.push(person)?;
            }
        }
        Ok(())
    }

    // Puts the owners of a person's objects into the next layer, unless one is unowned.
    fn spread_from(&mut self, row: &[Pair], layer: u32) -> Result<(), AllocError> {
        for pair in row {
            if is_unowned(self.owners.as_slice(), pair.object) {
                self.last_layer = layer;
                return Ok(());
            }
            let owner = at(self.owners.as_slice(), pair.object);
            if owner != NOBODY && at(self.layers.as_slice(), owner) == NOBODY {
                put(self.layers.as_mut_slice(), owner, layer.wrapping_add(1));
                self.order.push(owner)?;
            }
        }
        Ok(())
    }

    // The search in breadth, up to the layer from which an unowned object is reached.
    fn set_layers(
        &mut self,
        problem: SparseProblem<'_>,
        arc_scans: &mut ArcScans,
    ) -> Result<(), AllocError> {
        self.begin_layers()?;
        for turn in 0..self.layers.len() {
            let Some(person) = self.order.get(turn).copied() else {
                return Ok(());
            };
            let layer = at(self.layers.as_slice(), person);
            if layer >= self.last_layer {
                return Ok(());
            }
            let row = problem.row(person);
            arc_scans.add(row.len());
            self.spread_from(row, layer)?;
        }
        Ok(())
    }

    // The next unowned object of a row, or the owner in the next layer. Returns the pair's place.
    fn look_on(&self, row: &[Pair], person: u32) -> Step {
        let layer = at(self.layers.as_slice(), person).wrapping_add(1);
        let from = at(self.next.as_slice(), person) as usize;
        for (k, pair) in row.iter().enumerate().skip(from) {
            if is_unowned(self.owners.as_slice(), pair.object) {
                return Step::Unowned(pair.object);
            }
            let owner = at(self.owners.as_slice(), pair.object);
            if owner != NOBODY
                && layer <= self.last_layer
                && at(self.layers.as_slice(), owner) == layer
            {
                return Step::Owner(owner, place_at(k.wrapping_add(1)));
            }
        }
        Step::None
    }

    fn take_path(&mut self, last: u32) {
        let mut object = last;
        for person in self.path.iter().rev() {
            let before = at(self.objects.as_slice(), *person);
            put(self.owners.as_mut_slice(), object, *person);
            put(self.objects.as_mut_slice(), *person, object);
            object = before;
        }
    }

    // The search in depth along layers from a person. Returns whether it got an object.
    fn augment(
        &mut self,
        problem: SparseProblem<'_>,
        first: u32,
        arc_scans: &mut ArcScans,
    ) -> Result<bool, AllocError> {
        self.path.clear();
        self.path.push(first)?;
        for _step in 0..self.layers.len().saturating_mul(2).saturating_add(1) {
            let Some(person) = self.path.last().copied() else {
                return Ok(false);
            };
            let row = problem.row(person);
            arc_scans.add(1);
            match self.look_on(row, person) {
                Step::Unowned(object) => {
                    self.take_path(object);
                    return Ok(true);
                }
                Step::Owner(owner, next) => {
                    put(self.next.as_mut_slice(), person, next);
                    self.path.push(owner)?;
                }
                Step::None => {
                    arc_scans.add(row.len());
                    put(self.layers.as_mut_slice(), person, NOBODY);
                    let _ = self.path.pop();
                }
            }
        }
        Ok(false)
    }

    // One phase: disjoint shortest paths, while arc scans are left, but at least one if one is needed.
    fn improve(
        &mut self,
        problem: SparseProblem<'_>,
        is_needed: bool,
        arc_scans: &mut ArcScans,
    ) -> Result<(), AllocError> {
        let mut is_needed = is_needed;
        for person in 0..place_at(problem.persons()) {
            if arc_scans.is_spent() && !is_needed {
                return Ok(());
            }
            if at(self.objects.as_slice(), person) == NOBODY {
                is_needed = !self.augment(problem, person, arc_scans)? && is_needed;
            }
        }
        Ok(())
    }

    fn first_without(&self) -> u32 {
        for (k, object) in self.objects.iter().enumerate() {
            if *object == NOBODY {
                return place_at(k);
            }
        }
        NOBODY
    }

    /// Phases until no more persons can have objects, or the arc scans are spent. A call that begins with
    /// these assigns at least one person.
    pub fn grow(
        &mut self,
        problem: SparseProblem<'_>,
        is_fresh: bool,
        arc_scans: &mut ArcScans,
    ) -> Result<Known, AllocError> {
        for _phase in 0..problem.persons().saturating_add(1) {
            let person = self.first_without();
            if person == NOBODY {
                return Ok(Known::Full);
            }
            self.set_layers(problem, arc_scans)?;
            if self.last_layer == NOBODY {
                return Ok(Known::Blocked(person));
            }
            self.improve(problem, is_fresh, arc_scans)?;
            if arc_scans.is_spent() {
                return Ok(Known::Open);
            }
        }
        Ok(Known::Open)
    }

    /// A blocked person, and those that it can put out in turn.
    pub fn blocked_persons(
        &mut self,
        problem: SparseProblem<'_>,
        first: u32,
    ) -> Result<(), AllocError> {
        self.order.clear();
        self.order.push(first)?;
        for layer in self.layers.as_mut_slice().iter_mut() {
            *layer = NOBODY;
        }
        put(self.layers.as_mut_slice(), first, 0);
        self.spread_all(problem)
    }

    fn spread_all(&mut self, problem: SparseProblem<'_>) -> Result<(), AllocError> {
        for turn in 0..self.layers.len() {
            let Some(person) = self.order.get(turn).copied() else {
                return Ok(());
            };
            self.spread_from(problem.row(person), 0)?;
        }
        Ok(())
    }

    pub fn persons(&self) -> &[u32] {
        self.order.as_slice()
    }
}

// The next step of a search in depth.
enum Step {
    Unowned(u32),
    // The owner and the place after the pair.
    Owner(u32, u32),
    None,
}

fn mark(marks: &mut [bool], place: u32) {
    if (place as usize) < marks.len() {
        marks[place as usize] = true;
    }
}

fn mark_row(row: &[Pair], marks: &mut [bool]) {
    for pair in row {
        mark(marks, pair.object);
    }
}

// The marked places, rising.
fn marked(alloc: Global, marks: &[bool]) -> Result<Vec<u32>, AllocError> {
    let mut places = Vec::new(alloc);
    for (k, is_marked) in marks.iter().enumerate() {
        if *is_marked {
            places.push(place_at(k))?;
        }
    }
    Ok(places)
}

/// These persons and the objects that they list.
pub fn hall_set(
    alloc: Global,
    problem: SparseProblem<'_>,
    persons: &[u32],
) -> Result<HallSet, AllocError> {
    let mut is_member = vec![in alloc; false; problem.persons()]?;
    let mut is_listed = vec![in alloc; false; problem.objects]?;
    for person in persons {
        mark(is_member.as_mut_slice(), *person);
        mark_row(problem.row(*person), is_listed.as_mut_slice());
    }
    Ok(HallSet {
        persons: marked(alloc, is_member.as_slice())?,
        objects: marked(alloc, is_listed.as_slice())?,
    })
}
