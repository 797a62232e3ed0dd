// Marks for persons and objects, and the first numbers without one.
ghost use Rattle.std.specs.Prelude.{◌↔◌, ◌≤◌, ℕ, IsTrue, length, MatchOption};
ghost use Rattle.assign_core.specs.Numbered.{IsNumber, IsMarked};
ghost use Rattle.dual_checker.specs.Faults.{IsFirst};
ghost use Rattle.dual_checker.specs.HallMarks.{AddsMarks};
ghost use Rattle.cost_lists.specs.Source.{ArePairs};
ghost use Rattle.exact_checker.specs.inside.Marked.{IsListedByMarked, IsMissing};

use super::pairs::earlier;
use cost_lists::{GREATEST_NUMBER, Object, Pairs, Person};

// Marks each number.
pub fn mark_each(marks: &mut [bool])
    ensures { (j : ℕ) → IsMarked marks.new j ↔ IsNumber (length marks.old) j }
{
    for mark in marks.iter_mut() {
        *mark = true;
    }
}

// The lowest number without a mark.
pub fn lowest_unmarked(marks: &[bool]) -> Option<u32>
    requires { length marks.now ≤ GREATEST_NUMBER }
    ensures { MatchOption result ((j : ℕ) → IsNumber (length marks.now) j → IsMarked marks.now j)
        (λ j. IsFirst (λ k. ¬ IsMarked marks.now k) (length marks.now) j) }
{
    for (i, mark) in marks.iter().enumerate() {
        if !*mark {
            return Some(i as u32 + 1);
        }
    }
    None
}

// Marks the objects that marked persons list, of listed pairs.
pub fn mark_listed(listed: &mut [bool], pairs: Pairs<'_>, chosen: &[bool])
    requires pairs { ArePairs (length chosen.now) (length listed.old) pairs }
    ensures { AddsMarks listed.old (IsListedByMarked pairs.entry chosen.now) listed.new }
{
    for k in 0..pairs.persons.len() {
        if chosen[pairs.persons[k] as usize - 1] {
            listed[pairs.objects[k] as usize - 1] = true;
        }
    }
}

// Whether a marked person lists an object without a mark, by their marks.
fn is_missing(chosen: bool, named: bool) -> bool
    ensures { IsTrue result ↔ (IsTrue chosen × ¬ IsTrue named) }
{
    chosen && !named
}

// The lowest marked person that lists an object without a mark, and the lowest object of this kind,
// of listed pairs.
pub fn first_missing(pairs: Pairs<'_>, chosen: &[bool], named: &[bool]) -> Option<(Person, Object)>
    requires { ArePairs (length chosen.now) (length named.now) pairs }
    ensures { MatchOption result ((i j : ℕ) → ¬ IsMissing pairs.entry chosen.now named.now i j)
        (λ p. IsFirst (λ i. (j : ℕ) × IsMissing pairs.entry chosen.now named.now i j)
        (length chosen.now) p.0
        × IsFirst (IsMissing pairs.entry chosen.now named.now p.0) (length named.now) p.1) }
{
    let mut first = None;
    for k in 0..pairs.persons.len() {
        let (person, object) = (pairs.persons[k], pairs.objects[k]);
        if is_missing(chosen[person as usize - 1], named[object as usize - 1]) {
            first = Some(earlier(first, person, object));
        }
    }
    first
}
