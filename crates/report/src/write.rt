// Writes a report.
ghost use Rattle.std.specs.Prelude.{◌≡◌, Some};
ghost use Rattle.assign_core.specs.Assignment.{IsAssignment, total};
ghost use Rattle.report.specs.Outcomes.{IsOutcome, chosen_prices, outcome_report, pairs_of};
ghost use Rattle.report.specs.Reports;
ghost use Rattle.report.specs.Lines;
ghost use Rattle.report.specs.Lines.{lines_text, report_text};
ghost use Rattle.report.specs.Writing.{Writes};
ghost use Rattle.report.specs.inside.Holding.{Puts};

use crate::fault::WriteFault;
use crate::pending::Pending;
use crate::put::{put_cost, put_infeasible, put_list, put_pair, put_price, put_sense};
use crate::send::flush;
use assign_core::{
    Assignment, Certificate, HallSet, Outcome, Person, Price, Prices, Problem, Sense,
};
use std::io::Write;

// Puts the lines of the pairs.
fn put_pairs<W: Write>(
    w: &mut W,
    pending: &mut Pending,
    problem: &Problem,
    assignment: &Assignment,
) -> Result<(), WriteFault>
    requires { IsAssignment problem.now assignment.now }
    ensures { Puts (W.contents w.old) (W.contents w.new) pending.old pending.new result
        (lines_text (Lines.assign_lines 1 (pairs_of problem.now assignment.now))) }
{
    // This call shows the prover that each place has a person's number.
    let _n = problem.n();
    for (i, object) in assignment.objects().iter().enumerate() {
        let person = Person(i as u16 + 1);
        let cost = problem.cost_of(person, *object).unwrap_or(0);
        put_pair(w, pending, person, *object, cost)?;
    }
    Ok(())
}

// Puts the lines of the prices.
fn put_prices<W: Write>(
    w: &mut W,
    pending: &mut Pending,
    prices: &[Price],
) -> Result<(), WriteFault>
    ensures { Puts (W.contents w.old) (W.contents w.new) pending.old pending.new result
        (lines_text (Lines.price_lines 1 prices.now)) }
{
    for (i, price) in prices.iter().enumerate() {
        put_price(w, pending, i + 1, *price)?;
    }
    Ok(())
}

// Puts the lines of the prices, if they are requested.
fn put_chosen<W: Write>(
    w: &mut W,
    pending: &mut Pending,
    prices: &Prices,
    wanted: bool,
) -> Result<(), WriteFault>
    ensures { Puts (W.contents w.old) (W.contents w.new) pending.old pending.new result
        (lines_text (Lines.lines_of_prices (chosen_prices wanted prices.now))) }
{
    if wanted {
        put_prices(w, pending, prices.as_slice())
    } else {
        Ok(())
    }
}

// Puts the report on an optimal assignment.
fn put_best<W: Write>(
    w: &mut W,
    pending: &mut Pending,
    problem: &Problem,
    sense: Sense,
    certificate: &Certificate,
    prices: bool,
) -> Result<(), WriteFault>
    requires { IsAssignment problem.now certificate.now.assignment }
    ensures { Puts (W.contents w.old) (W.contents w.new) pending.old pending.new result
        (report_text (Reports.best (Some sense)
        (total problem.now certificate.now.assignment)
        (pairs_of problem.now certificate.now.assignment)
        (chosen_prices prices certificate.now.prices))) }
{
    put_sense(w, pending, sense)?;
    put_cost(w, pending, problem.total(&certificate.assignment))?;
    put_pairs(w, pending, problem, &certificate.assignment)?;
    put_chosen(w, pending, &certificate.prices, prices)
}

/// Puts the report on a Hall set; the end of it is held back.
///
/// # Errors
/// `Write` if the writer fails or takes no byte.
pub fn put_hall<W: Write>(
    w: &mut W,
    pending: &mut Pending,
    sense: Sense,
    hall: &HallSet,
) -> Result<(), WriteFault>
    ensures { Puts (W.contents w.old) (W.contents w.new) pending.old pending.new result
        (report_text (Reports.hall (Some sense) hall.now.persons hall.now.objects)) }
{
    put_sense(w, pending, sense)?;
    put_infeasible(w, pending)?;
    put_list(w, pending, b"persons", hall.persons())?;
    put_list(w, pending, b"objects", hall.objects())
}

// Puts the report; the end of it is held back.
fn put_report<W: Write>(
    w: &mut W,
    pending: &mut Pending,
    problem: &Problem,
    sense: Sense,
    outcome: &Outcome,
    prices: bool,
) -> Result<(), WriteFault>
    requires { IsOutcome problem.now outcome.now }
    ensures { Puts (W.contents w.old) (W.contents w.new) pending.old pending.new result
        (report_text (outcome_report problem.now sense outcome.now prices)) }
{
    match outcome {
        Outcome::Best(certificate) => put_best(w, pending, problem, sense, certificate, prices),
        Outcome::Hall(hall) => put_hall(w, pending, sense, hall),
    }
}

/// Writes the report on an outcome of a problem, in version 2: the sense; for an assignment its
/// cost, its pairs with their costs, and the prices if requested; for a Hall set its persons and
/// objects. It takes no memory, and writes some 4000 bytes at once, except at the end.
///
/// # Errors
/// `Write` if the writer fails, is interrupted or takes no byte. A beginning of the report is then
/// written.
///
/// # Example
/// The body of `calling::write_proved`:
/// ```
/// write_report(w, problem, sense, outcome, true)
/// ```
pub fn write_report<W: Write>(
    w: &mut W,
    problem: &Problem,
    sense: Sense,
    outcome: &Outcome,
    prices: bool,
) -> Result<(), WriteFault>
    requires { IsOutcome problem.now outcome.now }
    ensures { Writes (W.contents w.old) (W.contents w.new) result
        (report_text (outcome_report problem.now sense outcome.now prices)) }
{
    let mut pending = Pending::new();
    put_report(w, &mut pending, problem, sense, outcome, prices)?;
    flush(w, &mut pending)
}
