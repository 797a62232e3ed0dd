// Minimise or maximise.
ghost use Rattle.std.specs.Prelude.{◌≡◌};
ghost use Rattle.assign_core.specs.Rows.{IsCost, IsSize};
ghost use Rattle.assign_core.specs.Benefits.{benefit, IsBenefit};

use super::numbers::{Benefit, Cost};

/// Whether to minimise or to maximise the total cost.
#[derive(Clone, Copy, PartialEq, Eq)]
pub enum Sense {
    Min,
    Max,
}

impl Sense {
    /// The benefit of a cost among `n` persons: the cost times `n + 1`, negated under `Min`.
    ///
    /// With benefits scaled like this, an assignment with slackness 1 is optimal (Bertsekas,
    /// Network Optimization, 1998, section 7.1).
    pub fn benefit(self, n: u16, cost: Cost) -> Benefit
        requires size { IsSize n }
        requires cost { IsCost cost }
        ensures value { result ≡ benefit self n cost }
        ensures range { IsBenefit result }
    {
        let scale = i64::from(n) + 1;
        match self {
            Sense::Min => -scale * cost,
            Sense::Max => scale * cost,
        }
    }
}
