// Outcomes with the reports written of them.
ghost use Rattle.std.specs.Prelude.{IfOk};
ghost use Rattle.report.specs.Outcomes.{IsOutcome};

use super::*;
use assign_core::{Assignment, Certificate, Object, Outcome, Person, Prices, Problem, Sense};
use dual_checker::confirm_hall;
use report::write_report;
use test_helpers::{ample_writer, failing_writer};

fn two_persons(alloc: Global) -> Result<(Problem, Outcome), AllocError>
    ensures { IfOk result (λ x. IsOutcome x.0 x.1) }
{
    let problem = Problem::dense(alloc, 2, &[1, 2, 3, 5])?;
    let assignment = Assignment::new(vec![in alloc; Object(2), Object(1)]?);
    let prices = Prices::new(alloc, vec![in alloc; 14, 12]?)?;
    Ok((problem, Outcome::Best(Certificate { assignment, prices })))
}

// The bytes that a writer with this much room takes of the report on two persons, and whether all
// were written.
fn written(
    alloc: Global,
    sense: Sense,
    prices: bool,
    room: usize,
    fails: bool,
) -> Result<(bool, Vec<u8>), AllocError> {
    let (problem, outcome) = two_persons(alloc)?;
    let mut writer = failing_writer(alloc, room, 7, fails);
    let result = write_report(&mut writer, &problem, sense, &outcome, prices);
    Ok((result.is_ok(), writer.taken))
}

// Whether a writer that fails after `room` bytes, or takes no more, has taken just these.
fn is_cut_off(alloc: Global, room: usize, fails: bool) -> Result<bool, AllocError> {
    let (is_whole, taken) = written(alloc, Sense::Min, true, room, fails)?;
    let (front, _) = SECOND.split_at(room.min(SECOND.len()));
    Ok(!is_whole && taken.as_slice() == front)
}

#[test]
fn outcome_cut_off(rt: HostRuntime) -> Result<(), Fail> {
    for room in 0..SECOND.len() {
        assert!(rt; is_cut_off(rt.alloc(), room, false)?);
        assert!(rt; is_cut_off(rt.alloc(), room, true)?);
    }
    Ok(())
}

// Whether a writer with enough room has taken this text.
fn is_written(alloc: Global, sense: Sense, prices: bool, text: &[u8]) -> Result<bool, AllocError> {
    let (is_whole, taken) = written(alloc, sense, prices, 1000, true)?;
    Ok(is_whole && taken.as_slice() == text)
}

#[test]
fn outcome_written(rt: HostRuntime) -> Result<(), Fail> {
    assert!(rt; is_written(rt.alloc(), Sense::Min, true, SECOND)?);
    let bare = b"sense max\ncost 5\nassign 1 2 2\nassign 2 1 3\n";
    assert!(rt; is_written(rt.alloc(), Sense::Max, false, bare)?);
    Ok(())
}

// Two persons who list only the same object.
fn two_for_one(alloc: Global) -> Result<Problem, AllocError> {
    let triples = [(Person(1), Object(1), 4), (Person(2), Object(1), 6)];
    Problem::sparse(alloc, 2, &triples)
}

// The report written on a Hall set, if all of it is.
fn hall_written(alloc: Global) -> Result<Option<Vec<u8>>, AllocError> {
    let problem = two_for_one(alloc)?;
    let persons = vec![in alloc; Person(1), Person(2)]?;
    let objects = vec![in alloc; Object(1)]?;
    let Some(hall) = confirm_hall(alloc, &problem, persons, objects)? else {
        return Ok(None);
    };
    let mut writer = ample_writer(alloc);
    let written = write_report(&mut writer, &problem, Sense::Max, &hall, false).is_ok();
    Ok(written.then_some(writer.taken))
}

#[test]
fn hall_set_written(rt: HostRuntime) -> Result<(), Fail> {
    let text = hall_written(rt.alloc())?.ok_or("not written")?;
    let wanted: &[u8] = b"sense max\ninfeasible\npersons 2 1 2\nobjects 1 1\n";
    assert_eq!(rt; text.as_slice(), wanted);
    Ok(())
}
