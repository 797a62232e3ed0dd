// Hall sets, and why they rule out an assignment.
ghost use Rattle.std.specs.Prelude.{◌≡◌, ℕ, List, Option, None, Some, Bool, IsTrue, IfOk};
ghost use Rattle.std.specs.List.Sorted.{IsStrictlyIncreasing};
ghost use Rattle.assign_core.specs.Rows.{Listing, IsListed};
ghost use Rattle.assign_core.specs.Matching.{owner_of};
ghost use Rattle.assign_core.specs.Assignment.{IsAssignment};
ghost use Rattle.assign_core.specs.Hall.{HallLists, IsHallSet, IsInOrder};
ghost use Rattle.assign_core.specs.Reach.{IsBlocked, IsPath, IsReached};

use super::numbers::{Object, Person};
use std::alloc::{AllocError, Global};
use std::marker::Model;

/// A list of persons and a list of objects, both rising. If the objects are all that these persons
/// list, and are fewer than the persons, no assignment exists (P. Hall, On representatives of
/// subsets, 1935).
#[derive(Drop)]
pub struct HallSet {
    persons: Vec<Person>,
    objects: Vec<Object>,
}

impl Model for HallSet {
    ghost Value = { HallLists };

    ghost view = { λ h. record { persons = h.persons.items; objects = h.objects.items } };

    ghost invariant = { λ h. IsInOrder (record { persons = h.persons.items; objects = h.objects.items }) };
}

impl HallSet {
    /// The Hall set of these persons and objects. Both lists rise.
    pub fn new(persons: Vec<Person>, objects: Vec<Object>) -> HallSet
        requires persons { IsStrictlyIncreasing persons.items }
        requires objects { IsStrictlyIncreasing objects.items }
        ensures persons { result.persons ≡ persons.items }
        ensures objects { result.objects ≡ objects.items }
    {
        HallSet { persons, objects }
    }

    /// The persons, rising.
    pub fn persons(&self) -> &[Person]
        ensures persons { result.now ≡ self.now.persons }
        ensures rise { IsStrictlyIncreasing self.now.persons }
    {
        self.persons.as_slice()
    }

    /// The objects, rising.
    pub fn objects(&self) -> &[Object]
        ensures objects { result.now ≡ self.now.objects }
        ensures rise { IsStrictlyIncreasing self.now.objects }
    {
        self.objects.as_slice()
    }

    /// A copy of this Hall set.
    ///
    /// # Errors
    /// `AllocError` if memory is refused.
    pub fn copy(&self, alloc: Global) -> Result<HallSet, AllocError>
        ensures { IfOk result (λ copy. copy ≡ self.now) }
    {
        let persons = self.persons.as_slice().to_vec(alloc)?;
        let objects = self.objects.as_slice().to_vec(alloc)?;
        Ok(HallSet { persons, objects })
    }
}

/// If a Hall set exists, no assignment exists: its persons would need different objects out of
/// fewer (P. Hall, On representatives of subsets, 1935: the easy half).
pub fn hall_set_forbids()
    ensures { (rows : List Listing) (persons objects xs : List ℕ)
        → IsHallSet rows persons objects → IsAssignment rows xs → ⊥ }
{}

/// The persons that alternating walks reach from a person are the least set that contains this
/// person and, for each object that a member lists, the object's owner.
pub fn reach_is_least()
    ensures itself { (rows : List Listing) (owners : List (Option ℕ)) (i : ℕ)
        → IsReached rows owners i i }
    ensures on { (rows : List Listing) (owners : List (Option ℕ)) (i x j v : ℕ)
        → IsReached rows owners i x
        → IsListed rows x j → owner_of owners j ≡ Some v → IsReached rows owners i v }
    ensures least { (rows : List Listing) (owners : List (Option ℕ)) (members : ℕ → Bool) (i x : ℕ)
        → IsTrue (members i)
        → ((y j v : ℕ) → IsTrue (members y) → IsListed rows y j → owner_of owners j ≡ Some v
        → IsTrue (members v))
        → IsReached rows owners i x → IsTrue (members x) }
{}

/// If an alternating path leads from a person to an unowned object, some reached person lists an
/// unowned object.
pub fn paths_are_open()
    ensures { (rows : List Listing) (owners : List (Option ℕ)) (i : ℕ) (js : List ℕ)
        → IsPath rows owners i js → IsBlocked rows owners i → ⊥ }
{}
