// Marks for numbers, and the first numbers without one.
ghost use Rattle.std.specs.Prelude.{ℕ, length, All, Contains, MatchOption};
ghost use Rattle.std.specs.List.Sorted.{IsStrictlyIncreasing};
ghost use Rattle.assign_core.specs.Numbered.{IsNumber, IsMarked};
ghost use Rattle.dual_checker.specs.Faults.{IsFirst};
ghost use Rattle.dual_checker.specs.HallMarks.{AddsMarks};

use super::placed::Placed;

/// Marks these numbers.
pub fn mark_numbers<T: Placed>(marks: &mut [bool], given: &[T])
    requires { All (IsNumber (length marks.old)) (T.numbers_of given.now) }
    ensures { AddsMarks marks.old (Contains (T.numbers_of given.now)) marks.new }
{
    for one in given {
        marks[one.place()] = true;
    }
}

/// The lowest of these numbers without a mark.
pub fn first_unmarked<T: Placed>(given: &[T], marks: &[bool]) -> Option<T>
    requires within { All (IsNumber (length marks.now)) (T.numbers_of given.now) }
    requires rise { IsStrictlyIncreasing (T.numbers_of given.now) }
    ensures { MatchOption result
        ((j : ℕ) → Contains (T.numbers_of given.now) j → IsMarked marks.now j)
        (λ x. IsFirst (λ k. Contains (T.numbers_of given.now) k × ¬ IsMarked marks.now k)
        (length marks.now) (T.number_of x)) }
{
    for one in given {
        if !marks[one.place()] {
            return Some(*one);
        }
    }
    None
}
