// How often each number is given.
ghost use Rattle.std.specs.Prelude.{◌≡◌, ℕ, ◌<◌, ◌≤◌, ◌^◌, length, All, MatchOption, nat_eq, replicate};
ghost use Rattle.std.specs.List.{IsDistinct};
ghost use Rattle.assign_core.specs.Numbered.{IsNumber, numbered};
ghost use Rattle.dual_checker.specs.Counts.{AreCounts};
ghost use Rattle.dual_checker.specs.Faults.{IsFirst, IsGivenTwice};

use super::placed::Placed;

// Counts how often each number is given. The counts are 0 at first.
fn count_given<T: Placed>(counts: &mut [u32], given: &[T])
    requires zero { counts.old ≡ replicate (length counts.old) 0 }
    requires few { length given.now < 2 ^ 32 }
    requires within { All (IsNumber (length counts.old)) (T.numbers_of given.now) }
    ensures { AreCounts counts.new (T.numbers_of given.now) }
{
    for one in given {
        counts[one.place()] += 1;
    }
}

// The lowest number that is counted more than once.
fn first_over_one(counts: &[u32]) -> Option<u32>
    requires { length counts.now < 2 ^ 32 }
    ensures { MatchOption result
        ((j : ℕ) → IsNumber (length counts.now) j → numbered counts.now j 0 ≤ 1)
        (λ j. IsFirst (λ k. 1 < numbered counts.now k 0) (length counts.now) j) }
{
    for (i, count) in counts.iter().enumerate() {
        if *count > 1 {
            return Some(i as u32 + 1);
        }
    }
    None
}

/// The lowest number that is given twice, and how often each is given. The counts are 0 at first.
pub fn first_given_twice<T: Placed>(counts: &mut [u32], given: &[T]) -> Option<u32>
    requires zero { counts.old ≡ replicate (length counts.old) 0 }
    requires few { length given.now < 2 ^ 32 }
    requires most { length counts.old < 2 ^ 32 }
    requires within { All (IsNumber (length counts.old)) (T.numbers_of given.now) }
    ensures first { MatchOption result (IsDistinct nat_eq (T.numbers_of given.now))
        (λ j. IsFirst (IsGivenTwice (T.numbers_of given.now)) (length counts.old) j) }
    ensures counts { AreCounts counts.new (T.numbers_of given.now) }
{
    count_given(counts, given);
    first_over_one(counts)
}
