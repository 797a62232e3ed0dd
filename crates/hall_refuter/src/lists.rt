// Marks, and the rising lists of the marked numbers.
ghost use Rattle.std.specs.Prelude.{◌≡◌, ℕ, ◌≤◌, ◌↔◌, IfOk, length, map, All};
ghost use Rattle.assign_core.specs.Numbered.{IsNumber, IsMarked};
ghost use Rattle.hall_refuter.specs.inside.Found.{IsAmongFirst, marked_from};

use super::reach::Found;
use assign_core::{MOST_PERSONS, Numbered};
use std::alloc::{AllocError, Global};

// Marks for the persons found, among all persons.
pub fn marks_of(alloc: Global, n: u16, found: &[Found]) -> Result<Vec<bool>, AllocError>
    requires { All (λ f. IsNumber n f.person) found.now }
    ensures long { IfOk result (λ marks. length marks.items ≡ n) }
    ensures marked { IfOk result (λ marks. (x : ℕ) → IsMarked marks.items x
        ↔ IsAmongFirst found.now x (length found.now)) }
{
    let mut marks = vec![in alloc; false; n as usize]?;
    for one in found {
        marks[one.person.place()] = true;
    }
    Ok(marks)
}

// The persons or objects with a marked number, rising.
pub fn marked<T: Numbered>(alloc: Global, marks: &[bool]) -> Result<Vec<T>, AllocError>
    requires { length marks.now ≤ MOST_PERSONS }
    ensures { IfOk result (λ all. map T.number_of all.items ≡ marked_from 1 marks.now) }
{
    let mut all = Vec::new(alloc);
    for (i, mark) in marks.iter().enumerate() {
        if *mark {
            all.push(T::with_number(i as u16 + 1))?;
        }
    }
    Ok(all)
}
