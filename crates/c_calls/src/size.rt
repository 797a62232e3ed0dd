// The sense and the size of what a caller gives.
ghost use Rattle.std.specs.Prelude.{◌≡◌, ◌*◌, ◌↔◌, IsTrue, All, MatchOption};
ghost use Rattle.cost_lists.specs.ListedCosts.{IsCount};
ghost use Rattle.c_calls.specs.Sizes.{sense_of};

use assign_core::Sense;
use cost_lists::{GREATEST_NUMBER, Object, Person};

/// The sense and the size of a given problem.
#[derive(Clone, Copy)]
pub struct Shape {
    pub sense: Sense,
    /// The number of persons.
    pub n: Person,
    /// The number of objects.
    pub m: Object,
}

/// The sense with this number.
pub fn sense_by(number: u32) -> Option<Sense>
    ensures { result ≡ sense_of number }
{
    match number {
        0 => Some(Sense::Min),
        1 => Some(Sense::Max),
        _ => None,
    }
}

/// The number of persons or objects, if a problem may have this many.
pub fn size_by(n: usize) -> Option<u32>
    ensures { MatchOption result (¬ IsCount n) (λ size. (size ≡ n) × IsCount n) }
{
    if n == 0 || n > GREATEST_NUMBER as usize {
        return None;
    }
    Some(n as u32)
}

/// Whether all these lengths are `n`.
pub fn are_all(lengths: &[usize], n: usize) -> bool
    ensures { IsTrue result ↔ All (λ k. k ≡ n) lengths.now }
{
    lengths.iter().all(|length| *length == n)
}

/// The number of pairs of this many persons and objects.
pub fn pairs_of(n: usize, m: usize) -> usize
    requires persons { IsCount n }
    requires objects { IsCount m }
    ensures { result ≡ n * m }
{
    n * m
}
