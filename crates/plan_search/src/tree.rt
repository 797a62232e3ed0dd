// The first plans in order, as a tree: each falls into a part of its own.
use super::values::{place_of, set_value, value_at};
use cost_lists::{Object, Person};
use std::alloc::{AllocError, Global};

/// Each plan but the first has an earlier one as its parent, and a person at which the two differ.
/// It takes from the parent's part all plans that don't give this person the parent's object.
#[derive(Drop)]
pub struct Tree {
    /// How many persons each plan has.
    n: usize,
    count: usize,
    plans: Vec<Object>,
    parents: Vec<u32>,
    persons: Vec<Person>,
    /// The last child of each plan, and the child of the same parent before each; 0 for none. A plan
    /// has at most `n` children.
    last: Vec<usize>,
    before: Vec<usize>,
}

impl Tree {
    pub fn new(alloc: Global, n: usize) -> Tree {
        Tree {
            n,
            count: 0,
            plans: Vec::new(alloc),
            parents: Vec::new(alloc),
            persons: Vec::new(alloc),
            last: Vec::new(alloc),
            before: Vec::new(alloc),
        }
    }

    /// How many persons each plan has.
    pub fn persons(&self) -> usize {
        self.n
    }

    /// How many plans there are.
    pub fn count(&self) -> usize {
        self.count
    }

    /// The objects of the plan at a place.
    pub fn plan(&self, place: usize) -> &[Object] {
        let plans = self.plans.as_slice();
        let (_, rest) = plans.split_at(place.wrapping_mul(self.n).min(plans.len()));
        let (plan, _) = rest.split_at(self.n.min(rest.len()));
        plan
    }

    /// The object of the person at a place by the plan at another one.
    pub fn object(&self, place: usize, person: usize) -> Object {
        let at = place.wrapping_mul(self.n).wrapping_add(person);
        value_at(self.plans.as_slice(), at, 0)
    }

    /// The place of the parent of the plan at a place.
    pub fn parent(&self, place: usize) -> usize {
        value_at(self.parents.as_slice(), place, 0) as usize
    }

    /// The place of the person at which the plan at a place differs from its parent.
    pub fn person(&self, place: usize) -> usize {
        place_of(value_at(self.persons.as_slice(), place, 0))
    }

    /// The last child of the plan at a place, or 0.
    pub fn last_child(&self, place: usize) -> usize {
        value_at(self.last.as_slice(), place, 0)
    }

    /// The child of the same parent before the plan at a place, or 0.
    pub fn child_before(&self, place: usize) -> usize {
        value_at(self.before.as_slice(), place, 0)
    }

    // The first child that takes a plan from the part of the plan at a place, or 0.
    fn child_with(&self, place: usize, plan: &[Object]) -> usize {
        let (mut child, mut found) = (self.last_child(place), 0);
        for _ in 0..self.n {
            if child == 0 {
                break;
            }
            let person = self.person(child);
            if value_at(plan, person, 0) != self.object(place, person) {
                found = child;
            }
            child = self.child_before(child);
        }
        found
    }

    // The place of the plan into whose part a plan falls.
    fn leaf_of(&self, plan: &[Object]) -> usize {
        let mut leaf = 0;
        for _ in 0..self.count {
            let child = self.child_with(leaf, plan);
            if child == 0 {
                break;
            }
            leaf = child;
        }
        leaf
    }

    // Adds the next plan, of which the parent and a person are known.
    fn push(&mut self, plan: &[Object], parent: usize, person: Person) -> Result<(), AllocError> {
        let before = self.last_child(parent);
        self.parents.push(u32::try_from(parent).unwrap_or(0))?;
        self.persons.push(person)?;
        self.before.push(before)?;
        self.last.push(0)?;
        if self.count != 0 {
            set_value(self.last.as_mut_slice(), parent, self.count);
        }
        for object in plan {
            self.plans.push(*object)?;
        }
        self.count = self.count.wrapping_add(1);
        Ok(())
    }

    /// Adds the next plan.
    pub fn add(&mut self, plan: &[Object]) -> Result<(), AllocError> {
        if self.count == 0 {
            return self.push(plan, 0, 0);
        }
        let leaf = self.leaf_of(plan);
        let person = first_other(self.plan(leaf), plan);
        self.push(plan, leaf, person)
    }

    /// Its lists: the plans, their parents and the persons.
    pub fn into_lists(self) -> (Vec<Object>, Vec<u32>, Vec<Person>) {
        let Tree {
            n: _,
            count: _,
            plans,
            parents,
            persons,
            last: _,
            before: _,
        } = self;
        (plans, parents, persons)
    }
}

// The first person at which two plans differ.
fn first_other(plan: &[Object], other: &[Object]) -> Person {
    let mut person: Person = 0;
    for (object, another) in plan.iter().zip(other.iter()) {
        person = person.wrapping_add(1);
        if *object != *another {
            return person;
        }
    }
    person
}
