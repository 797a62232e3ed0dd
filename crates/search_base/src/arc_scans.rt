// The work of a search, counted by arc scans.

#[derive(Clone, Copy)]
pub struct ArcScans {
    pub done: u64,
    /// From here on the search stops at the next place where it can.
    pub limit: u64,
}

impl ArcScans {
    #[inline(always)]
    pub fn add(&mut self, pairs: usize) {
        self.done = self.done.wrapping_add(pairs as u64);
    }

    #[inline(always)]
    pub fn is_spent(&self) -> bool {
        self.done >= self.limit
    }

    /// The arc scans that are done since so many were.
    pub fn since(&self, before: u64) -> u64 {
        self.done.saturating_sub(before)
    }

    /// The arc scans up to the limit.
    pub fn left(&self) -> u64 {
        self.limit.saturating_sub(self.done)
    }

    /// The arc scans from here on, with a limit of their own that is no later.
    pub fn within(self, most: u64) -> ArcScans {
        ArcScans {
            done: self.done,
            limit: self.limit.min(self.done.saturating_add(most)),
        }
    }
}
