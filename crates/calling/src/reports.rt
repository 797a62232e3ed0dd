// Reports, out and in.
ghost use Rattle.std.specs.Prelude.{◌≡◌, true, IfOk, IfSome};
ghost use Rattle.assign_core.specs.Outcomes.{IsProof};
ghost use Rattle.report.specs.Lines.{report_text};
ghost use Rattle.report.specs.Outcomes.{outcome_report};
ghost use Rattle.report.specs.SeenReports.{seen_report};
ghost use Rattle.report.specs.Writing.{Writes};
ghost use Rattle.calling.specs.Reports.{IsConfirmedReport, IsConfirmedText, objects_of};

use assign_core::{Cost, Object, Outcome, Problem, Sense};
use dual_checker::{confirm_best, confirm_hall};
use report::{Report, ReportFault, WriteFault, read_report, write_report};
use std::alloc::{AllocError, Global};
use std::io::{Read, Write};

/// Writes the report on an outcome that is a proof, with its prices.
///
/// # Errors
/// `Write` where the writer fails. A beginning of the report has then gone out.
pub fn write_proved<W: Write>(
    w: &mut W,
    problem: &Problem,
    sense: Sense,
    outcome: &Outcome,
) -> Result<(), WriteFault>
    requires { IsProof sense problem.now outcome.now }
    ensures { Writes (W.contents w.old) (W.contents w.new) result
        (report_text (outcome_report problem.now sense outcome.now true)) }
{
    write_report(w, problem, sense, outcome, true)
}

// The object of each person.
fn objects_in(alloc: Global, rows: &[(Object, Cost)]) -> Result<Vec<Object>, AllocError>
    ensures { IfOk result (λ objects. objects.items ≡ objects_of rows.now) }
{
    let mut objects = Vec::with_capacity(alloc, rows.len())?;
    for (object, _) in rows {
        objects.push(*object)?;
    }
    Ok(objects)
}

/// The outcome that a report names, where its lists prove it under this sense. `None` exactly
/// where they don't.
///
/// # Errors
/// `AllocError` if memory is refused.
pub fn confirmed(
    alloc: Global,
    problem: &Problem,
    sense: Sense,
    report: Report,
) -> Result<Option<Outcome>, AllocError>
    ensures report { IfOk result (IsConfirmedReport sense problem.now (seen_report report)) }
    ensures proof { IfOk result (λ found. IfSome found (IsProof sense problem.now)) }
{
    match report {
        Report::Best { rows, prices, .. } => match prices {
            Some(prices) => {
                let objects = objects_in(alloc, rows.as_slice())?;
                confirm_best(alloc, problem, sense, objects, prices)
            }
            None => Ok(None),
        },
        Report::Hall {
            persons,
            objects,
            ..
        } => confirm_hall(alloc, problem, persons, objects),
    }
}

/// The outcome of a report that is read, as `confirmed` says.
///
/// # Errors
/// Those of `read_report`.
pub fn read_confirmed<R: Read>(
    alloc: Global,
    r: &mut R,
    problem: &Problem,
    sense: Sense,
) -> Result<Option<Outcome>, ReportFault>
    ensures text { IfOk result (λ found. IfSome (R.remaining r.old)
        (λ bytes. IsConfirmedText sense problem.now bytes found)) }
    ensures proof { IfOk result (λ found. IfSome found (IsProof sense problem.now)) }
{
    let report = read_report(alloc, r)?;
    match confirmed(alloc, problem, sense, report) {
        Ok(found) => Ok(found),
        Err(_) => Err(ReportFault::Memory),
    }
}
