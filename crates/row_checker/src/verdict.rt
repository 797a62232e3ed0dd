// What a tree shows.

/// The first fault of a tree, in the order of its numbers. Places count from 0.
#[derive(Clone, Copy, PartialEq, Eq)]
pub enum Fault {
    /// The leaf at this place doesn't show that no plan meets all rows.
    NotShown(usize),
    /// In the leaf at this place the absolute values of all products come to 2^127 or more.
    TooGreat(usize),
    /// The split at this place has `MOST_DEPTH` splits above it.
    TooDeep(usize),
    /// No whole node stands at this place, or the tree ended before it.
    Shape(usize),
    /// The number at this place names a row that isn't there.
    Row(usize),
    /// The number at this place names a variable that isn't there.
    Variable(usize),
}

/// How the tree below a place ends.
#[derive(Clone, Copy, PartialEq, Eq)]
pub enum End {
    /// It shows that no plan meets the rows above it, and ends before this place.
    Stands(usize),
    Stops(Fault),
}

/// What a tree shows.
#[derive(Clone, Copy, PartialEq, Eq)]
pub enum Verdict {
    /// No plan meets all rows.
    Shown,
    /// Nothing.
    Not(Fault),
}
