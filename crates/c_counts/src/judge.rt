// Whether a problem has its sense, its pairs and its buffers.
ghost use Rattle.std.specs.Prelude.{◌≡◌, ◌↔◌, Some, IfErr, IfOk, IsTrue, OnOk};
ghost use Rattle.c_counts.specs.Ends.{HasFault, HasRoom};
ghost use Rattle.c_counts.specs.Input.{HasDense, sense_of};
ghost use Rattle.c_counts.specs.Outputs.{buffers_of};

use crate::fault::Fault;
use crate::info::CountsInfo;
use crate::input::{Input, has_dense, is_dense};
use assign_core::Sense;

/// The sense with this number.
pub fn sense_by(number: u32) -> Option<Sense>
    ensures { result ≡ sense_of number }
{
    match number {
        0 => Some(Sense::Min),
        1 => Some(Sense::Max),
        _ => None,
    }
}

/// Whether there are listed pairs, or else a cost for each row and each column.
pub fn is_shaped(input: &Input<'_>) -> bool
    ensures { IsTrue result ↔ HasDense input.now }
{
    !is_dense(input) || has_dense(input)
}

/// The caller's buffers as they are before an answer.
#[derive(Clone, Copy)]
pub struct Outputs<'a> {
    pub plan: &'a [u8],
    pub row_numbers: &'a [i64],
    pub column_numbers: &'a [i64],
    pub row_marks: &'a [u8],
    pub column_marks: &'a [u8],
    pub info: &'a CountsInfo,
}

// Whether each buffer has its length.
fn has_room(input: &Input<'_>, outputs: Outputs<'_>) -> bool
    ensures { IsTrue result ↔ HasRoom input.now (buffers_of outputs.entry) }
{
    let (n, m) = (input.row_least.len(), input.column_least.len());
    outputs.plan.len() == input.costs.len()
        && outputs.row_numbers.len() == n
        && outputs.column_numbers.len() == m
        && outputs.row_marks.len() == n
        && outputs.column_marks.len() == m
}

/// The sense of a problem that has its pairs and its buffers, or else the first fault.
pub fn judge(input: &Input<'_>, outputs: Outputs<'_>) -> Result<Sense, Fault>
    ensures sense { IfOk result (λ s. sense_of input.now.sense ≡ Some s) }
    ensures dense { OnOk result (HasDense input.now) }
    ensures room { OnOk result (HasRoom input.now (buffers_of outputs.entry)) }
    ensures fault { IfErr result (HasFault input.now (buffers_of outputs.entry)) }
{
    let Some(sense) = sense_by(input.sense) else {
        return Err(Fault::Sense);
    };
    if !is_shaped(input) {
        return Err(Fault::Dense);
    }
    if !has_room(input, outputs) {
        return Err(Fault::Buffer);
    }
    Ok(sense)
}
