// The checker's verdict.
ghost use Rattle.exact_checker.specs.Verdicts.{VerdictsDiffer};

use cost_lists::{Object, Person};

/// The verdict on an object for each person and a price for each object: the first of these that
/// applies.
#[derive(Clone, Copy, PartialEq, Eq)]
pub enum Verdict {
    /// The length of a list isn't the number of persons, or of objects.
    Length,
    /// The lowest person that doesn't list its object.
    Unlisted(Person),
    /// The lowest object that is given twice.
    Twice(Object),
    /// The lowest object whose price isn't from 0 to `GREATEST_PRICE`.
    PriceRange(Object),
    /// The lowest person for which a listed object is better, with its price, than its own, and the
    /// lowest object of this kind.
    Slack(Person, Object),
    /// The lowest object that nobody owns and whose price isn't 0.
    Overpriced(Object),
    /// The lists are an assignment with exact prices.
    Yes,
}

/// At most one verdict holds of costs and two lists.
pub fn one_verdict()
    ensures { VerdictsDiffer }
{}
