// The checker's verdict.
use cost_lists::{Object, Person};

/// The verdict on an object for each person and a price for each object: the first of these that
/// applies.
#[derive(Clone, Copy, PartialEq, Eq)]
pub enum Verdict {
    /// The length of a list isn't what the numbers of persons and of objects ask for.
    Length,
    /// The place, from 0, of the first double that is no cost.
    Cost(usize),
    /// The lowest person whose object isn't there, or is forbidden to it.
    Unlisted(Person),
    /// The lowest person whose object a person before it has.
    Twice(Person),
    /// The lowest object whose price isn't finite.
    Price(Object),
    /// The prices don't prove the plan best, or the numbers that a person compares are too far
    /// apart in size for it to be decided.
    Undecided,
    /// The plan is best: each person's own object is a choice of its row at these prices, and the
    /// unowned objects have the least price.
    Best {
        /// Each other object that a person lists is worse by more than the margin, which is above 0
        /// and at least 2^-52 of the size of each cost. No other plan is as good.
        by_margin: bool,
    },
}
