// Callbacks on the number of assigned persons during a search. Nothing about them is proved.

/// A callback for the progress of paths.
pub trait Observer {
    /// Called with the number of persons who have an object, from 0 to n: as a search begins, and
    /// then after each of its pieces. The number may fall, as where an auction begins a phase.
    fn assigned(&self, persons: u16);

    /// About how many looks at pairs a piece takes, where so many pairs are listed; 0 if the search
    /// shall not stop before its end.
    fn arc_scans(&self, _pairs: usize) -> u64 {
        0
    }
}

/// An observer that does nothing.
pub struct Unobserved;

impl Observer for Unobserved {
    fn assigned(&self, _persons: u16) {}
}
