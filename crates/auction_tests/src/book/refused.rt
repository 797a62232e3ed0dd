// What a refused growth leaves. Without refusals these are calls of two persons to the end; the
// refusals come from runs in which one allocation after the other fails.
use super::calls::{Call, Mistake, Reply, Trial, call_of};
use super::drawn::two_persons;
use super::plain_calls;
use super::sequences::{PlainTrial, open_both, plain_call, same, same_answer};
use std::alloc::{AllocError, Global};
use std::test::Fail;

// Whether a call does the same to both books. If a growth is refused, the book is unchanged, or
// only the bid's person waits again.
fn keeps(
    alloc: Global,
    trial: &mut Trial,
    plain: &mut PlainTrial,
    made: (u16, Call),
) -> Result<bool, AllocError> {
    let (worker, call) = made;
    let Ok(told) = call_of(alloc, trial, worker, call) else {
        if same(alloc, &trial.book, &plain.book)? {
            return Err(AllocError);
        }
        return Ok(false);
    };
    if told == Reply::Memory {
        plain_calls::give_up(&mut plain.book, worker)?;
    } else if let Some(desk) = plain.desks.get_mut((worker as usize).wrapping_sub(1)) {
        if plain_call(alloc, &mut plain.book, desk, worker, call)? != told {
            return Ok(false);
        }
    }
    same(alloc, &trial.book, &plain.book)
}

// Two persons and two workers to the end; the table of worker 1 catches up before each claim. Two
// calls a row.
fn all_calls() -> [[(u16, Call); 2]; 10] {
    let claim = Call::Claim;
    let submit = Call::Submit(Mistake::Nothing);
    let catch_up = Call::CatchUp;
    [
        [(1, claim), (2, claim)],
        [(1, submit), (2, submit)],
        [(1, catch_up), (1, claim)],
        [(1, submit), (2, claim)],
        [(2, submit), (1, Call::NextPhase)],
        [(1, catch_up), (2, catch_up)],
        [(1, claim), (2, claim)],
        [(1, submit), (2, submit)],
        [(1, catch_up), (1, claim)],
        [(1, submit), (1, claim)],
    ]
}

fn all_keep(alloc: Global, trial: &mut Trial, plain: &mut PlainTrial) -> Result<bool, AllocError> {
    for row in all_calls().as_slice() {
        if !keeps(alloc, trial, plain, row[0])? || !keeps(alloc, trial, plain, row[1])? {
            return Ok(false);
        }
    }
    let ended = trial.book.answer(alloc)?.is_some();
    Ok(ended && same_answer(alloc, &trial.book, &plain.book)?)
}

fn two_persons_keep(alloc: Global) -> Result<bool, AllocError> {
    let case = two_persons(alloc, &[14, 12])?;
    let (mut trial, mut plain) = open_both(alloc, &case)?;
    all_keep(alloc, &mut trial, &mut plain)
}

#[test]
fn what_a_refused_growth_leaves(rt: HostRuntime) -> Result<(), Fail> {
    assert!(rt; two_persons_keep(rt.alloc())?);
    Ok(())
}
