// Checks a report against its problem, wherever the report comes from.
ghost use Rattle.std.specs.Prelude.{◌≡◌, ◌↔◌, ◌≤◌, None, Ok, Some, IfOk, IfSome, IsTrue, MatchOption, length};
ghost use Rattle.assign_core.specs.Rows.{listed_in, row_of};
ghost use Rattle.assign_core.specs.Assignment.{total};
ghost use Rattle.dual_checker.specs.Faults.{IsFirst};
ghost use Rattle.report.specs.SeenReports.{seen_report};
ghost use Rattle.auction_command.specs.Findings.{HasOtherCost, HaveCosts, IsFoundInReport, IsFoundInBest, IsFoundInCosts, IsFoundUnder, IsOtherSense, objects_of, report_sense, sense_of};
ghost use Rattle.auction_command.specs.Verify.{VerifyOutcome, verifier_of};

use crate::finding::Finding;
use crate::run::{CliFault, read_problem};
use assign_core::{Cost, Object, Person, Price, Problem, Sense};
use dual_checker::{Verdict, check, check_hall};
use report::{Report, read_report, write_text};
use std::alloc::{AllocError, Global};
use std::io::{Read, Write};

/// Whether a report is right.
#[derive(Clone, Copy, PartialEq, Eq)]
pub enum Verified {
    Yes,
    No,
}

/// How a report is checked.
#[derive(Clone, Copy, PartialEq, Eq)]
pub struct Verifier {
    /// Whether the problem's text lists pairs.
    pub sparse: bool,
    /// The sense that the report must have, if one is requested.
    pub sense: Option<Sense>,
}

// The object of each person.
fn objects_in(alloc: Global, pairs: &[(Object, Cost)]) -> Result<Vec<Object>, AllocError>
    ensures { IfOk result (λ objects. objects.items ≡ objects_of pairs.now) }
{
    let mut objects = Vec::with_capacity(alloc, pairs.len())?;
    for (object, _) in pairs {
        objects.push(*object)?;
    }
    Ok(objects)
}

// Whether a pair is listed at this cost.
fn has_cost(problem: &Problem, person: Person, object: Object, cost: Cost) -> bool
    ensures { IsTrue result ↔ (listed_in (row_of problem.now person) object ≡ Some cost) }
{
    match problem.cost_of(person, object) {
        Some(listed) => listed == cost,
        None => false,
    }
}

// The lowest person whose cost isn't that of its pair.
fn first_other_cost(problem: &Problem, pairs: &[(Object, Cost)]) -> Option<Person>
    requires { length pairs.now ≡ length problem.now }
    ensures { MatchOption result (HaveCosts problem.now pairs.now)
        (λ i. IsFirst (HasOtherCost problem.now pairs.now) (length problem.now) i) }
{
    // This call shows the prover that this many persons can be numbered.
    let _persons = problem.n();
    for (i, (object, cost)) in pairs.iter().enumerate() {
        let person = Person(i as u16 + 1);
        if !has_cost(problem, person, *object, *cost) {
            return Some(person);
        }
    }
    None
}

// The sum of the given costs, which are those of the problem.
fn sum_of(problem: &Problem, pairs: &[(Object, Cost)]) -> Cost
    requires { HaveCosts problem.now pairs.now }
    ensures { result ≡ total problem.now (objects_of pairs.now) }
{
    // This call shows the prover that the costs are in range, and how many there are.
    let _persons = problem.n();
    let mut sum: Cost = 0;
    for (_, cost) in pairs {
        sum += *cost;
    }
    sum
}

// The finding on the costs of an assignment that its prices prove optimal.
fn found_in_costs(problem: &Problem, sense: Sense, cost: Cost, pairs: &[(Object, Cost)]) -> Finding
    requires { length pairs.now ≡ length problem.now }
    ensures { IsFoundInCosts sense problem.now cost pairs.now result }
{
    if let Some(person) = first_other_cost(problem, pairs) {
        return Finding::OtherCost(person);
    }
    if cost != sum_of(problem, pairs) {
        return Finding::OtherTotal;
    }
    Finding::Best(sense, cost)
}

// The finding on an assignment with prices.
fn found_in_priced(
    alloc: Global,
    problem: &Problem,
    sense: Sense,
    cost: Cost,
    pairs: &[(Object, Cost)],
    prices: &[Price],
) -> Result<Finding, AllocError>
    ensures { IfOk result (λ finding.
        IsFoundInBest sense problem.now cost pairs.now prices.now finding) }
{
    let objects = objects_in(alloc, pairs)?;
    let verdict = check(alloc, problem, sense, objects.as_slice(), prices)?;
    match verdict {
        Verdict::Yes => Ok(found_in_costs(problem, sense, cost, pairs)),
        fault => Ok(Finding::Unproved(fault)),
    }
}

// The sense of a report; a report without a sense minimises.
fn sense_or_min(sense: Option<Sense>) -> Sense
    ensures { result ≡ sense_of sense }
{
    sense.unwrap_or(Sense::Min)
}

// The finding on a report.
fn found_in(alloc: Global, problem: &Problem, report: &Report) -> Result<Finding, AllocError>
    ensures { IfOk result (λ finding. IsFoundInReport problem.now (seen_report report.now) finding) }
{
    match report {
        Report::Best {
            sense,
            cost,
            rows,
            prices,
        } => match prices {
            None => Ok(Finding::NoPrices),
            Some(prices) => {
                let sense = sense_or_min(*sense);
                found_in_priced(
                    alloc,
                    problem,
                    sense,
                    *cost,
                    rows.as_slice(),
                    prices.as_slice(),
                )
            }
        },
        Report::Hall {
            persons,
            objects,
            ..
        } => {
            let verdict = check_hall(alloc, problem, persons.as_slice(), objects.as_slice())?;
            Ok(Finding::Hall(verdict))
        }
    }
}

// The sense of a report.
fn sense_in(report: &Report) -> Sense
    ensures { result ≡ report_sense (seen_report report.now) }
{
    match report {
        Report::Best { sense, .. } => sense_or_min(*sense),
        Report::Hall { sense, .. } => sense_or_min(*sense),
    }
}

// Whether another sense than this one is requested.
fn is_other(wanted: Option<Sense>, sense: Sense) -> bool
    ensures { IsTrue result ↔ IsOtherSense wanted sense }
{
    match wanted {
        Some(wanted) => wanted != sense,
        None => false,
    }
}

// The finding on a report under this requested sense, or any.
fn found_under(
    alloc: Global,
    problem: &Problem,
    wanted: Option<Sense>,
    report: &Report,
) -> Result<Finding, AllocError>
    ensures { IfOk result (λ finding.
        IsFoundUnder wanted problem.now (seen_report report.now) finding) }
{
    if is_other(wanted, sense_in(report)) {
        return Ok(Finding::OtherSense);
    }
    found_in(alloc, problem, report)
}

/// Reads a problem and then a report of either version, checks the report against the problem, and
/// writes only the line of its finding.
///
/// `Yes` proves that the report is right: its assignment is optimal under its sense (`Min` if it
/// names none), its costs are those of the pairs, and its cost is their sum; or it names a Hall
/// set, so that no assignment exists. A report on an assignment without prices is wrong, since
/// nothing proves it optimal.
///
/// It reads both texts, and scans the listed pairs of the problem a few times.
///
/// # Errors
/// `Input` for a refused problem; else `Report` for a refused report; `Write` after a beginning of
/// the line was written; and `Memory`. Only with `Write` is anything written. `Stuck` never comes.
pub fn run_verify<P: Read, Q: Read, W: Write>(
    alloc: Global,
    problem: &mut P,
    report: &mut Q,
    sparse: bool,
    w: &mut W,
) -> Result<Verified, CliFault>
    ensures { VerifyOutcome (verifier_of sparse None) (P.remaining problem.old) (Q.remaining report.old)
        (W.contents w.old) (W.contents w.new) result }
{
    let verifier = Verifier {
        sparse,
        sense: None,
    };
    run_verify_under(alloc, problem, report, w, verifier)
}

/// Does what `run_verify` does, but first compares the sense, if one is requested: a report on the
/// other sense, also an infeasible one, has the finding `OtherSense`. A report that names no sense
/// minimises.
///
/// # Errors
/// As `run_verify`. A fault of the problem or of the report comes first, whatever sense is
/// requested.
pub fn run_verify_under<P: Read, Q: Read, W: Write>(
    alloc: Global,
    problem: &mut P,
    report: &mut Q,
    w: &mut W,
    verifier: Verifier,
) -> Result<Verified, CliFault>
    ensures { VerifyOutcome verifier (P.remaining problem.old) (Q.remaining report.old)
        (W.contents w.old) (W.contents w.new) result }
{
    let problem = read_problem(alloc, problem, verifier.sparse)?;
    let report = read_report(alloc, report)?;
    let finding = found_under(alloc, &problem, verifier.sense, &report)?;
    let line = format!(in alloc; "{finding}\n")?;
    write_text(w, line.as_bytes())?;
    Ok(finding.verified())
}
