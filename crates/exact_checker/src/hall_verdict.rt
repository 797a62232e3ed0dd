// The checker's verdict on a Hall set.
ghost use Rattle.exact_checker.specs.HallVerdicts.{ClosedVerdictsShow, HallVerdictsDiffer};

use cost_lists::{Object, Person};

/// The verdict on a list of persons and a list of objects: the first of these that applies. A
/// number is named if it is in its list.
#[derive(Clone, Copy, PartialEq, Eq)]
pub enum HallVerdict {
    /// Some number isn't from 1 to the number of persons, or of objects.
    Range,
    /// One of the lists isn't strictly rising.
    Order,
    /// The lowest named person that lists an unnamed object, and its lowest unnamed object.
    Missing(Person, Object),
    /// The lowest named object that none of the named persons lists.
    Extra(Object),
    /// There are at least as many objects as persons.
    Count,
    /// The lists are a Hall set.
    Yes,
}

/// At most one verdict holds of costs and two lists.
pub fn one_hall_verdict()
    ensures { HallVerdictsDiffer }
{}

/// After `Extra`, `Count` or `Yes` the named persons list no unnamed object: a block of a greater
/// problem shows this of the persons that lie in it.
pub fn closed_verdicts()
    ensures { ClosedVerdictsShow }
{}
