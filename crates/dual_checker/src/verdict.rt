// The checker's verdict.
ghost use Rattle.dual_checker.specs.Verdicts.{VerdictsDiffer};

use assign_core::{Object, Person};

/// The verdict on a list with an object for each person, and a list with a price for each object: the
/// first of these that applies.
#[derive(Clone, Copy, PartialEq, Eq)]
pub enum Verdict {
    /// The length of a list isn't the number of persons, or of objects.
    Length,
    /// The lowest person that doesn't list its object.
    Unlisted(Person),
    /// The lowest object that is given twice.
    Twice(Object),
    /// The lowest object whose price isn't at least 0 and below `PRICE_END`.
    PriceRange(Object),
    /// The lowest person without slackness 1, and the lowest object that it lists whose value to it
    /// is over 1 above that of its own.
    Slack(Person, Object),
    /// The lists are a certificate.
    Yes,
}

/// At most one verdict holds of a problem, a sense and two lists.
pub fn one_verdict()
    ensures { VerdictsDiffer }
{}
