// Reads a report.
ghost use Rattle.std.specs.Prelude.{◌≡◌, Ok, IfOk, IfSome};
ghost use Rattle.report.specs.inside.Steps.{reading};
ghost use Rattle.report.specs.inside.SeenSteps.{Reads};
ghost use Rattle.report.specs.SeenReports.{seen_report, seen_result};
ghost use Rattle.report.specs.Reports.{IsReport};
ghost use Rattle.report.specs.Answers.{Answers};

use crate::fault::ReportFault;
use crate::limits::TEXT_LIMIT;
use crate::machine::Machine;
use crate::value::Report;
use std::alloc::Global;
use std::io::Read;

// The number of bytes of a read.
const PIECE: usize = 16384;

// The report of a text, read byte by byte. Each read takes at least one byte, so these reads
// suffice for every text within the limit.
#[tactic(auto, unfolding(crate::specs::inside::Steps::reading))]
fn read_all<R: Read>(alloc: Global, r: &mut R) -> Result<Report, ReportFault>
    ensures reading { IfSome (R.remaining r.old) (λ bytes. Reads result (reading bytes)) }
    ensures allowed { IfOk result (λ report. IsReport (seen_report report)) }
{
    let mut machine = Machine::new(alloc);
    let mut buffer = [0u8; PIECE];
    for _ in 0..TEXT_LIMIT + 1 {
        let count = match r.read(&mut buffer) {
            Ok(count) => count,
            Err(_) => return Err(ReportFault::Read),
        };
        if count == 0 {
            return machine.finish();
        }
        match machine.feed_all(&buffer[..count]) {
            Ok(()) => {}
            Err(fault) => return Err(fault),
        }
    }
    Err(ReportFault::TooLong)
}

/// Reads a report of version 1 or 2, in pieces of any size. Each line is judged at its line feed.
///
/// # Errors
/// The first fault of the text; `Read` if the reader fails or is interrupted; `Memory` if memory is
/// refused. The reader stays where the reading stopped.
///
/// # Example
/// The body of `calling::read_confirmed`:
/// ```
/// let report = read_report(alloc, r)?;
/// match confirmed(alloc, problem, sense, report) {
///     Ok(found) => Ok(found),
///     Err(_) => Err(ReportFault::Memory),
/// }
/// ```
pub fn read_report<R: Read>(alloc: Global, r: &mut R) -> Result<Report, ReportFault>
    ensures answer { IfSome (R.remaining r.old) (λ bytes. Answers bytes (seen_result result)) }
    ensures allowed { IfOk result (λ report. IsReport (seen_report report)) }
{
    read_all(alloc, r)
}
