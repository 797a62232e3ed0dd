// Whether what a caller gives is a problem.
ghost use Rattle.std.specs.Prelude.{◌≢◌, IfErr, IfOk};
ghost use Rattle.c_calls.specs.declared.fault.Fault.TheVariants.{Memory};
ghost use Rattle.c_calls.specs.doubles.Faults.{HasFault, IsShape};

use super::input::Input;
use crate::fault::Fault;
use crate::size::{Shape, are_all, pairs_of, sense_by, size_by};

/// The sense and the size if each list has its length, or else the first fault.
pub fn judge(input: &Input<'_>) -> Result<Shape, Fault>
    ensures shape { IfOk result (IsShape input.now) }
    ensures fault { IfErr result (HasFault input.now) }
    ensures not_memory { IfErr result (λ fault. fault ≢ Memory) }
{
    let Some(sense) = sense_by(input.sense) else {
        return Err(Fault::Sense);
    };
    let Some(n) = size_by(input.n) else {
        return Err(Fault::Size);
    };
    let Some(m) = size_by(input.m) else {
        return Err(Fault::Size);
    };
    if input.costs.len() != pairs_of(input.n, input.m)
        || !are_all(input.by_person, input.n)
        || !are_all(input.by_object, input.m)
    {
        return Err(Fault::Length);
    }
    Ok(Shape { sense, n, m })
}
