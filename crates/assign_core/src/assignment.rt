// An assignment: an object for each person.
ghost use Rattle.std.specs.Prelude.{◌≡◌, ℕ, List, IfOk, nat_eq};
ghost use Rattle.std.specs.List.{IsDistinct};

use super::numbers::Object;
use std::alloc::{AllocError, Global};
use std::marker::Model;

/// The objects of persons 1, 2, .., all different.
#[derive(Drop)]
pub struct Assignment {
    objects: Vec<Object>,
}

impl Model for Assignment {
    ghost Value = { List ℕ };

    ghost view = { λ a. a.objects.items };

    ghost invariant = { λ a. IsDistinct nat_eq a.objects.items };
}

impl Assignment {
    /// The assignment that gives these objects to persons 1, 2, .., in this order.
    pub fn new(objects: Vec<Object>) -> Assignment
        requires { IsDistinct nat_eq objects.items }
        ensures { result ≡ objects.items }
    {
        Assignment { objects }
    }

    /// The objects of persons 1, 2, ..
    pub fn objects(&self) -> &[Object]
        ensures objects { result.now ≡ self.now }
        ensures apart { IsDistinct nat_eq self.now }
    {
        self.objects.as_slice()
    }

    /// A copy of this assignment.
    ///
    /// # Errors
    /// `AllocError` if memory is refused.
    pub fn copy(&self, alloc: Global) -> Result<Assignment, AllocError>
        ensures { IfOk result (λ copy. copy ≡ self.now) }
    {
        let objects = self.objects.as_slice().to_vec(alloc)?;
        Ok(Assignment { objects })
    }
}
