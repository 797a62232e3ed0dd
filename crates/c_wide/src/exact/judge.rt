// Whether a problem over doubles has a unit in which all costs fit.
ghost use Rattle.std.specs.Prelude.{◌≤◌, IfErr, IfOk};
ghost use Rattle.c_wide.specs.exact.Given.{HasExactFault, IsJudgedBy};

use super::unit::{first_above, greatest_unit};
use c_calls::doubles::{Input, judge_costs};
use c_calls::{Fault, Shape};

/// The sense, the size and the unit of a problem without a fault.
#[derive(Clone, Copy)]
pub struct Judged {
    pub shape: Shape,
    /// The unit is 2^(unit - 1074).
    pub unit: u64,
}

/// The sense, the size and the unit if the problem has no fault, or else the first one.
pub fn judge_exact(input: &Input<'_>) -> Result<Judged, Fault>
    ensures found { IfOk result (IsJudgedBy input.now) }
    ensures most { IfOk result (λ judged. judged.unit ≤ 4000) }
    ensures fault { IfErr result (HasExactFault input.now) }
{
    let shape = judge_costs(input)?;
    let unit = greatest_unit(input.costs);
    match first_above(input.costs, unit) {
        Some(place) => Err(Fault::Cost(place)),
        None => Ok(Judged { shape, unit }),
    }
}
