// The objects of a plan.
ghost use Rattle.std.specs.Prelude.{◌≡◌, ◌↔◌, ◌<◌, ◌*◌, ◌^◌, ℕ, All, IsTrue, MatchOption, length};
ghost use Rattle.std.specs.Prelude.{nat_eq};
ghost use Rattle.std.specs.List.{IsDistinct};
ghost use Rattle.assign_core.specs.Numbered.{IsMarked, IsNumber};
ghost use Rattle.dual_checker.specs.Faults.{IsFirst};
ghost use Rattle.double_checker.specs.Verdicts.{IsGivenBefore};
ghost use Rattle.double_checker.specs.inside.Plans.{AreOwn, IsFirstNotOwn, IsOwn, MarksJust};

use super::numbers::is_number;
use cost_lists::{Object, Person};

// Whether the person at a place has one of m objects, at a finite cost.
fn is_own(costs: &[f64], objects: &[Object], m: usize, place: usize) -> bool
    requires long { length costs.now ≡ length objects.now * m }
    requires place { place < length objects.now }
    ensures { IsTrue result ↔ IsOwn m costs.now objects.now place }
{
    let object = objects[place] as usize;
    if object == 0 || object > m {
        return false;
    }
    is_number(costs[place * m + (object - 1)])
}

// The first person that doesn't have one of m objects at a finite cost.
pub fn first_unlisted(costs: &[f64], objects: &[Object], m: usize) -> Option<Person>
    requires long { length costs.now ≡ length objects.now * m }
    requires few { length objects.now < 2 ^ 32 }
    ensures { MatchOption result (AreOwn m costs.now objects.now)
        (λ i. IsFirstNotOwn m costs.now objects.now i) }
{
    for i in 0..objects.len() {
        if !is_own(costs, objects, m, i) {
            return Some(i as u32 + 1);
        }
    }
    None
}

// Takes all marks away.
pub fn clear(marks: &mut [bool])
    ensures { (j : ℕ) → ¬ IsMarked marks.new j }
{
    for k in 0..marks.len() {
        marks[k] = false;
    }
}

// The first person whose object a person before it has. Marks the objects; none is marked at first.
pub fn first_given_before(owned: &mut [bool], objects: &[Object]) -> Option<Person>
    requires clear { (j : ℕ) → ¬ IsMarked owned.old j }
    requires within { All (IsNumber (length owned.old)) objects.now }
    requires few { length objects.now < 2 ^ 32 }
    ensures { MatchOption result
        (IsDistinct nat_eq objects.now × MarksJust owned.new objects.now)
        (λ i. IsFirst (IsGivenBefore objects.now) (length objects.now) i) }
{
    for i in 0..objects.len() {
        let place = objects[i] as usize - 1;
        if owned[place] {
            return Some(i as u32 + 1);
        }
        owned[place] = true;
    }
    None
}
