// The prices and the matching so far.
ghost use Rattle.std.specs.Prelude.{◌≡◌, ◌+◌, pos, replicate, IfOk};
ghost use Rattle.cost_lists.specs.ListedCosts.{IsCount};

use cost_lists::{Object, Person, Price};
use std::alloc::{AllocError, Global};

// A price and an owner for each object, and an object for each person. 0 is nobody's number: each
// list has a place 0, which stays 0.
#[derive(Drop)]
pub struct Plan {
    pub prices: Vec<Price>,
    pub owners: Vec<Person>,
    pub objects: Vec<Object>,
}

impl Plan {
    // Nobody has an object, and all prices are 0.
    pub fn new(alloc: Global, n: Person, m: Object) -> Result<Plan, AllocError>
        requires persons { IsCount n }
        requires objects { IsCount m }
        ensures prices { IfOk result (λ p. p.prices.items ≡ replicate (m + 1) (pos 0)) }
        ensures owners { IfOk result (λ p. p.owners.items ≡ replicate (m + 1) 0) }
        ensures objects { IfOk result (λ p. p.objects.items ≡ replicate (n + 1) 0) }
    {
        Ok(Plan {
            prices: vec![in alloc; 0i64; m as usize + 1]?,
            owners: vec![in alloc; 0u32; m as usize + 1]?,
            objects: vec![in alloc; 0u32; n as usize + 1]?,
        })
    }
}
