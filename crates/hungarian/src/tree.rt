// The alternating paths from one person, as far as they were searched.
ghost use Rattle.std.specs.Prelude.{◌≡◌, [], ◌∷◌, pos, replicate, IfOk};

use assign_core::Cost;
use cost_lists::Person;
use std::alloc::{AllocError, Global};

// A path's cost is that of its steps to objects, less that of its steps from objects to owners. Each
// list has a place for each number, and a place 0.
#[derive(Drop)]
pub struct Tree {
    // the cost of the best path to each object that has a predecessor
    pub to_objects: Vec<Cost>,
    // the person before each object on this path; 0: none was found
    pub predecessors: Vec<Person>,
    // when each object was scanned, from 1; 0: not yet
    pub ranks: Vec<u32>,
    // the cost of the path to each scanned person
    pub to_persons: Vec<Cost>,
    // the scanned persons; each but the first has the object whose rank is the person's place
    pub persons: Vec<Person>,
}

impl Tree {
    // The tree of one person alone, with `n` and `m` places for persons and objects.
    pub fn new(alloc: Global, n: usize, m: usize, person: Person) -> Result<Tree, AllocError>
        ensures to_objects { IfOk result (λ t. t.to_objects.items ≡ replicate m (pos 0)) }
        ensures predecessors { IfOk result (λ t. t.predecessors.items ≡ replicate m 0) }
        ensures ranks { IfOk result (λ t. t.ranks.items ≡ replicate m 0) }
        ensures to_persons { IfOk result (λ t. t.to_persons.items ≡ replicate n (pos 0)) }
        ensures persons { IfOk result (λ t. t.persons.items ≡ person ∷ []) }
    {
        let mut persons = Vec::new(alloc);
        persons.push(person)?;
        Ok(Tree {
            to_objects: vec![in alloc; 0i64; m]?,
            predecessors: vec![in alloc; 0u32; m]?,
            ranks: vec![in alloc; 0u32; m]?,
            to_persons: vec![in alloc; 0i64; n]?,
            persons,
        })
    }
}
