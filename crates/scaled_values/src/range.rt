// The least and the greatest benefit of a problem, found while benefits are made.
ghost use Rattle.std.specs.Prelude.{◌≡◌, pos, ◌≤ℤ◌, ◌<ℤ◌};
ghost use Rattle.scaled_values.specs.inside.Range.{joined, no_range, widened};

use assign_core::Benefit;

// Above any benefit, and below any if negated.
pub const FAR: Benefit = 10_000_000_000_000_000;

// The least and the greatest of some benefits. Without benefits, the least is above any benefit and
// the greatest below any.
#[derive(Clone, Copy)]
pub struct Range {
    pub least: Benefit,
    pub greatest: Benefit,
}

impl Range {
    // The range of no benefits.
    pub fn none() -> Range
        ensures { result ≡ no_range }
    {
        Range {
            least: FAR,
            greatest: -FAR,
        }
    }

    // The range with one more benefit.
    pub fn widened(self, benefit: Benefit) -> Range
        ensures { result ≡ widened self benefit }
    {
        Range {
            least: self.least.min(benefit),
            greatest: self.greatest.max(benefit),
        }
    }

    // The range of the benefits of both.
    pub fn joined(self, other: Range) -> Range
        ensures { result ≡ joined self other }
    {
        Range {
            least: self.least.min(other.least),
            greatest: self.greatest.max(other.greatest),
        }
    }

    // This range, but 0 and 0 if there are no benefits.
    pub fn or_zeros(self) -> Range
        ensures some { self.least ≤ℤ self.greatest → result ≡ self }
        ensures none { self.greatest <ℤ self.least
            → result ≡ record { least = pos 0; greatest = pos 0 } }
    {
        if self.least <= self.greatest {
            self
        } else {
            Range {
                least: 0,
                greatest: 0,
            }
        }
    }
}
