// A sparse problem: what each person lists.
use super::row::FAR;

/// A listed pair of a person: an object, by its place from 0, and its cost.
#[repr(C)]
#[derive(Clone, Copy)]
pub struct Pair {
    pub object: u32,
    pub cost: i64,
}

/// Person k lists the pairs from `starts[k]` to `starts[k + 1]`, and less cost is better. The search
/// takes any lists: what they hold wrongly is read as nothing.
#[derive(Clone, Copy)]
pub struct SparseProblem<'a> {
    pub starts: &'a [usize],
    pub pairs: &'a [Pair],
    pub objects: usize,
}

/// The costs times a power of 2. Prices are in this unit.
#[derive(Clone, Copy)]
pub struct Scaled<'a> {
    pub problem: SparseProblem<'a>,
    pub shift: u32,
}

impl<'a> SparseProblem<'a> {
    /// The number of persons.
    pub fn persons(self) -> usize {
        self.starts.len().saturating_sub(1)
    }

    /// What a person lists; nothing for a place without a person.
    pub fn row(self, person: u32) -> &'a [Pair] {
        let place = person as usize;
        match (
            self.starts.get(place),
            self.starts.get(place.wrapping_add(1)),
        ) {
            (Some(from), Some(to)) => self.pairs.get(*from..*to).unwrap_or(&[]),
            _ => &[],
        }
    }

    /// The greatest cost less the least one.
    pub fn spread(self) -> i64 {
        let (mut least, mut greatest) = (FAR, FAR.wrapping_neg());
        for pair in self.pairs {
            least = least.min(pair.cost);
            greatest = greatest.max(pair.cost);
        }
        greatest.wrapping_sub(least).max(0)
    }

    /// Whether there are as many persons as objects.
    pub fn is_square(self) -> bool {
        self.persons() == self.objects
    }
}
