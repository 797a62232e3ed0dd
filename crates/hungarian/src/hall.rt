// Where no unowned object is labelled, the scanned persons and objects are a Hall set.
ghost use Rattle.std.specs.Prelude.{◌≡◌, ℕ, ◌<◌, ◌≤◌, ◌+◌, ◌^◌, ◌↔◌, ◌++◌, [], ◌∷◌, true, false, IsTrue, Contains, length, IfOk};
ghost use Rattle.std.specs.List.Sorted.{IsStrictlyIncreasing};
ghost use Rattle.hungarian.specs.inside.Plans.{at};
ghost use Rattle.hungarian.specs.inside.Trees.{IsScanned};
ghost use Rattle.hungarian.specs.inside.Stored.{AreScanned};

use super::outcome::HallSet;
use cost_lists::{Object, Person};
use std::alloc::{AllocError, Global};

// Adds a number to a list, if it is chosen.
fn push_chosen(numbers: &mut Vec<u32>, number: usize, is_chosen: bool) -> Result<(), AllocError>
    requires { number < 2 ^ 32 }
    ensures yes { IfOk result (λ _. is_chosen ≡ true
        → numbers.new.items ≡ numbers.old.items ++ number ∷ []) }
    ensures no { IfOk result (λ _. is_chosen ≡ false → numbers.new.items ≡ numbers.old.items) }
{
    if is_chosen {
        numbers.push(number as u32)?;
    }
    Ok(())
}

// Whether an object has a rank.
fn is_ranked(rank: u32) -> bool
    ensures { IsTrue result ↔ (0 < rank) }
{
    rank != 0
}

// The objects that are scanned.
fn scanned_objects(alloc: Global, ranks: &[u32]) -> Result<Vec<Object>, AllocError>
    requires { length ranks.now ≤ 2 ^ 22 + 1 }
    ensures rise { IfOk result (λ all. IsStrictlyIncreasing all.items) }
    ensures each { IfOk result (λ all. (j : ℕ) → Contains all.items j
        ↔ (j < length ranks.now) × (0 < at ranks.now j)) }
{
    let mut numbers = Vec::new(alloc);
    for j in 0..ranks.len() {
        let is_chosen = is_ranked(ranks[j]);
        push_chosen(&mut numbers, j, is_chosen)?;
    }
    Ok(numbers)
}

// Whether a person is the first, or its object is scanned.
fn is_scanned(ranks: &[u32], objects: &[Object], first: Person, person: usize) -> bool
    requires person { person < length objects.now }
    requires within { (i : ℕ) → at objects.now i < length ranks.now }
    ensures { IsTrue result ↔ IsScanned first (at objects.now) (at ranks.now) person }
{
    person == first as usize || ranks[objects[person] as usize] != 0
}

// The persons whose object is scanned, and the first person.
fn scanned_persons(
    alloc: Global,
    ranks: &[u32],
    objects: &[Object],
    first: Person,
) -> Result<Vec<Person>, AllocError>
    requires few { length objects.now ≤ 2 ^ 22 + 1 }
    requires within { (i : ℕ) → at objects.now i < length ranks.now }
    ensures rise { IfOk result (λ all. IsStrictlyIncreasing all.items) }
    ensures each { IfOk result (λ all. (i : ℕ) → Contains all.items i
        ↔ (i < length objects.now) × IsScanned first (at objects.now) (at ranks.now) i) }
{
    let mut numbers = Vec::new(alloc);
    for i in 0..objects.len() {
        let is_chosen = is_scanned(ranks, objects, first, i);
        push_chosen(&mut numbers, i, is_chosen)?;
    }
    Ok(numbers)
}

pub fn hall_set(
    alloc: Global,
    ranks: &[u32],
    objects: &[Object],
    first: Person,
) -> Result<HallSet, AllocError>
    requires persons { length objects.now ≤ 2 ^ 22 + 1 }
    requires objects { length ranks.now ≤ 2 ^ 22 + 1 }
    requires within { (i : ℕ) → at objects.now i < length ranks.now }
    ensures { IfOk result (λ set. AreScanned first ranks.now objects.now
        set.persons.items set.objects.items) }
{
    Ok(HallSet {
        persons: scanned_persons(alloc, ranks, objects, first)?,
        objects: scanned_objects(alloc, ranks)?,
    })
}
