// The answer of a book in which everybody is assigned in the last phase.
ghost use Rattle.std.specs.Prelude.{◌≡◌, ◌≤◌, ℕ, Some, IfOk, length};
ghost use Rattle.assign_core.specs.Matching.{owner_of};
ghost use Rattle.assign_core.specs.Numbered.{IsNumber, numbered};
ghost use Rattle.auction_book.specs.Answers.{IsAnswered};
ghost use Rattle.auction_book.specs.Free.{IsFree};

use super::Book;
use assign_core::{Assignment, Certificate, MOST_PERSONS, Object, Person};
use std::alloc::{AllocError, Global};

// The object that each person owns, and any object for a person without one.
fn objects_of(alloc: Global, owners: &[Option<Person>]) -> Result<Vec<Object>, AllocError>
    requires few { length owners.now ≤ MOST_PERSONS }
    requires within { (i j : ℕ) → owner_of owners.now j ≡ Some i → IsNumber (length owners.now) i }
    requires apart { (i j k : ℕ) → owner_of owners.now j ≡ Some i → owner_of owners.now k ≡ Some i → j ≡ k }
    ensures long { IfOk result (λ objects. length objects.items ≡ length owners.now) }
    ensures owned { IfOk result (λ objects. (i j : ℕ) → owner_of owners.now j ≡ Some i
        → numbered objects.items i 0 ≡ j) }
{
    let mut objects: Vec<Object> = vec![in alloc; Object(1); owners.len()]?;
    for place in 0..owners.len() {
        if let Some(person) = owners[place] {
            objects[person.place()] = Object(place as u16 + 1);
        }
    }
    Ok(objects)
}

impl Book {
    /// The assignment of the owners with the current prices, which prove it optimal: an answer
    /// exactly where everybody is assigned in the last phase. The time is linear in n.
    ///
    /// # Errors
    /// `AllocError` if memory is refused.
    pub fn answer(&self, alloc: Global) -> Result<Option<Certificate>, AllocError>
        ensures answer { IfOk result (λ answer. IsAnswered self.now answer) }
    {
        self.invariant();
        if !self.is_done() {
            return Ok(None);
        }
        let objects = objects_of(alloc, self.owners())?;
        let prices = self.prices().copy(alloc)?;
        Ok(Some(Certificate {
            assignment: Assignment::new(objects),
            prices,
        }))
    }
}
