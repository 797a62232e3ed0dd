// Whether what a caller gives is a problem, its costs too.
ghost use Rattle.std.specs.Prelude.{◌≢◌, IfErr, IfOk};
ghost use Rattle.c_calls.specs.declared.fault.Fault.TheVariants.{Memory};
ghost use Rattle.c_calls.specs.doubles.Faults.{HasFault, IsShape, IsWhole};

use super::input::Input;
use super::judge::judge;
use crate::fault::Fault;
use crate::size::Shape;
use double_costs::first_fault;

/// The sense and the size if the problem has no fault, or else the first one. It reads all costs.
pub fn judge_costs(input: &Input<'_>) -> Result<Shape, Fault>
    ensures shape { IfOk result (λ shape. IsShape input.now shape) }
    ensures whole { IfOk result (λ shape. IsWhole input.now shape.sense) }
    ensures fault { IfErr result (HasFault input.now) }
    ensures not_memory { IfErr result (λ fault. fault ≢ Memory) }
{
    let shape = judge(input)?;
    match first_fault(shape.sense, input.costs) {
        Some(place) => Err(Fault::Cost(place)),
        None => Ok(shape),
    }
}
