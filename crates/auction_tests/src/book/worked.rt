// Calls of a book on small problems, worked by hand.
use super::calls::{Call, Mistake, Reply, Trial, call_of, offer_of, open_trial, submit_untimely};
use super::drawn::{Case, two_persons};
use super::seen::{answers, records, waiting};
use super::sequences::open_case;
use assign_core::{MOST_PERSONS, Object, Person, Price, Sense};
use auction_book::Book;
use bidder::{Ask, Bid, Offer};
use std::alloc::{AllocError, Global};
use std::test::Fail;
use test_helpers::{Pair, scaled_of, size};

// Three persons, of which 1 and 2 list only object 1.
fn three_persons(alloc: Global) -> Result<Trial, AllocError> {
    let n = size(3);
    let pairs = [(1, 1, 4), (2, 1, 6), (3, 2, 1), (3, 3, 2)];
    let scaled = scaled_of(alloc, n, &pairs, Sense::Min)?;
    open_trial(alloc, Book::open(alloc, scaled, 2)?, 2)
}

// A call by a worker, its answer, and then the first two who wait and the first two prices.
type Step = (u16, Call, Reply, [u16; 2], [Price; 2]);

// The answers to a worker that gets person 1 or 2: with slackness 2 and floor -29 in the first
// phase, and with 1 and -36 in the second.
const FIRST_OF_1: Reply = Reply::Person(1, 1, 2, -29);

const FIRST_OF_2: Reply = Reply::Person(2, 1, 2, -29);

const SECOND_OF_1: Reply = Reply::Person(1, 2, 1, -36);

const SECOND_OF_2: Reply = Reply::Person(2, 2, 1, -36);

const SUBMIT: Call = Call::Submit(Mistake::Nothing);

const FIRST_PHASE: [Step; 8] = [
    (1, Call::Claim, FIRST_OF_1, [2, 0], [0, 0]),
    (2, Call::Claim, FIRST_OF_2, [0, 0], [0, 0]),
    (1, SUBMIT, Reply::Accepted(1, 5, 0), [0, 0], [5, 0]),
    (2, SUBMIT, Reply::Accepted(1, 8, 1), [1, 0], [8, 0]),
    (1, Call::Claim, FIRST_OF_1, [0, 0], [8, 0]),
    (1, Call::CatchUp, Reply::Nothing, [0, 0], [8, 0]),
    (1, SUBMIT, Reply::Accepted(2, 7, 0), [0, 0], [8, 7]),
    (2, Call::Claim, Reply::Wait, [0, 0], [8, 7]),
];

const SECOND_PHASE: [Step; 11] = [
    (1, Call::NextPhase, Reply::Nothing, [1, 2], [8, 7]),
    (1, Call::CatchUp, Reply::Nothing, [1, 2], [8, 7]),
    (2, Call::CatchUp, Reply::Nothing, [1, 2], [8, 7]),
    (1, Call::Claim, SECOND_OF_1, [2, 0], [8, 7]),
    (2, Call::Claim, SECOND_OF_2, [0, 0], [8, 7]),
    (1, SUBMIT, Reply::Accepted(1, 11, 0), [0, 0], [11, 7]),
    (2, SUBMIT, Reply::Accepted(1, 14, 1), [1, 0], [14, 7]),
    (1, Call::CatchUp, Reply::Nothing, [1, 0], [14, 7]),
    (1, Call::Claim, SECOND_OF_1, [0, 0], [14, 7]),
    (1, SUBMIT, Reply::Accepted(2, 12, 0), [0, 0], [14, 12]),
    (1, Call::Claim, Reply::Done, [0, 0], [14, 12]),
];

// The first two who wait, 0 for nobody.
fn first_two(waiting: &[Person]) -> [u16; 2] {
    let first = waiting.first().copied().unwrap_or(Person(0));
    let second = waiting.get(1).copied().unwrap_or(Person(0));
    [first.0, second.0]
}

// Whether a step goes as worked out.
fn goes(alloc: Global, trial: &mut Trial, step: Step) -> Result<bool, AllocError> {
    let (worker, call, told, queue, prices) = step;
    let answer = call_of(alloc, trial, worker, call)?;
    let waiting = waiting(alloc, &trial.book)?;
    Ok(
        answer == told
            && first_two(waiting.as_slice()) == queue
            && trial.book.prices().as_slice().get(..2) == Some(prices.as_slice()),
    )
}

// The number of first steps that go as worked out.
fn steps_that_go(alloc: Global, trial: &mut Trial, steps: &[Step]) -> Result<usize, AllocError> {
    let mut count: usize = 0;
    for step in steps {
        if !goes(alloc, trial, *step)? {
            break;
        }
        count = count.wrapping_add(1);
    }
    Ok(count)
}

// The number of steps that go as worked out, and then the number of bids that the phase has
// accepted, and its bound.
fn after_steps(
    alloc: Global,
    trial: &mut Trial,
    steps: &[Step],
) -> Result<(usize, u128, u128), AllocError> {
    let count = steps_that_go(alloc, trial, steps)?;
    Ok((count, trial.book.phase_accepted(), trial.book.phase_bound()))
}

// Whether both phases go as worked out.
fn both_phases_go(alloc: Global, trial: &mut Trial) -> Result<bool, AllocError> {
    let first = after_steps(alloc, trial, &FIRST_PHASE)?;
    let second = after_steps(alloc, trial, &SECOND_PHASE)?;
    Ok(first == (8, 3, 28) && second == (11, 3, 53))
}

// The person that a worker claimed, and the number of its accepted bids, if there is this worker.
fn worker_of(book: &Book, worker: u16) -> Option<(Option<Person>, u128)> {
    if worker == 0 || worker > book.workers() {
        return None;
    }
    Some((book.claimed_by(worker), book.accepted_by(worker)))
}

// Whether six bids were accepted, four and two of the workers', and nobody is claimed; and whether
// the answer is optimal.
fn stands_after_six(alloc: Global, book: &Book) -> Result<bool, AllocError> {
    let answered = answers(alloc, book, &[Object(2), Object(1)], &[14, 12])?;
    Ok(
        answered
            && book.version() == 6
            && worker_of(book, 1) == Some((None, 4))
            && worker_of(book, 2) == Some((None, 2)),
    )
}

// The trial of the two persons, with these first prices.
fn trial_of_two(alloc: Global, first: &[Price]) -> Result<Trial, AllocError> {
    let case = two_persons(alloc, first)?;
    open_case(alloc, &case)
}

// Whether all goes as worked out.
fn six_bids_go(alloc: Global, trial: &mut Trial) -> Result<bool, AllocError> {
    let went = both_phases_go(alloc, trial)?;
    Ok(went && stands_after_six(alloc, &trial.book)?)
}

#[test]
fn six_bids_of_two_persons(rt: HostRuntime) -> Result<(), Fail> {
    assert!(rt; goes_as_worked(rt.alloc(), Work::SixBids)?);
    Ok(())
}

// The second phase begins, and worker 1 submits a bid of a person that it doesn't hold.
const UNHELD: [Step; 4] = [
    (1, Call::NextPhase, Reply::Nothing, [1, 2], [8, 7]),
    (1, Call::CatchUp, Reply::Nothing, [1, 2], [8, 7]),
    (1, Call::Claim, SECOND_OF_1, [2, 0], [8, 7]),
    (
        1,
        Call::Submit(Mistake::Person),
        Reply::NotClaimed(1, 14),
        [2, 0],
        [8, 7],
    ),
];

// The bid that person 1 made in the first phase.
const LATE: Bid = Bid {
    person: Person(1),
    object: Object(1),
    level: 5,
    phase: 1,
    version: 0,
};

// Whether worker 1 learns that the bid names another phase.
fn is_late(book: &mut Book) -> bool {
    book.workers() > 0 && submit_untimely(book, 1, LATE) == Reply::WrongPhase(1, 5)
}

// Whether the late bid's person waits again, and nothing else has changed.
fn stands_after_late(alloc: Global, book: &Book) -> Result<bool, AllocError> {
    let waiting = waiting(alloc, book)?;
    Ok(
        waiting.as_slice() == [Person(2), Person(1)].as_slice()
            && worker_of(book, 1) == Some((None, 2))
            && book.prices().as_slice() == [8, 7].as_slice()
            && book.version() == 3,
    )
}

// Whether the steps before go as worked out.
fn late_steps_go(alloc: Global, trial: &mut Trial) -> Result<bool, AllocError> {
    let first = steps_that_go(alloc, trial, &FIRST_PHASE)?;
    let second = steps_that_go(alloc, trial, &UNHELD)?;
    Ok(first == 8 && second == 4)
}

fn late_bid_goes(alloc: Global) -> Result<bool, AllocError> {
    let mut trial = trial_of_two(alloc, &[])?;
    let went = late_steps_go(alloc, &mut trial)?;
    let mut book = trial.book;
    let told = is_late(&mut book);
    Ok(went && told && stands_after_late(alloc, &book)?)
}

#[test]
fn a_late_bid_and_one_of_another_person(rt: HostRuntime) -> Result<(), Fail> {
    assert!(rt; late_bid_goes(rt.alloc())?);
    Ok(())
}

// Person 1 gets object 1, and worker 2 has claimed person 2.
const CONTESTED: [Step; 3] = [
    (1, Call::Claim, Reply::Person(1, 1, 4, -72), [2, 3], [0, 0]),
    (2, Call::Claim, Reply::Person(2, 1, 4, -72), [3, 0], [0, 0]),
    (1, SUBMIT, Reply::Accepted(1, 60, 0), [3, 0], [60, 0]),
];

// Worker 2 catches up, and records the Hall set for person 2.
const RECORDED: [Step; 3] = [
    (2, SUBMIT, Reply::Unasked, [3, 0], [60, 0]),
    (
        2,
        Call::Below(Mistake::Nothing),
        Reply::Recorded,
        [3, 2],
        [60, 0],
    ),
    (2, Call::Claim, Reply::Refuted, [3, 2], [60, 0]),
];

// The level of person 2's offer to worker 2, if it's a bid.
fn level_of_second(trial: &Trial) -> Option<Price> {
    match offer_of(trial, 2, 2) {
        Some(Offer::Bid(bid)) => Some(bid.level),
        _ => None,
    }
}

// Person 2's offers from the first table and from the current one.
fn old_and_new_offer(
    alloc: Global,
    trial: &mut Trial,
) -> Result<(usize, Option<Price>, Option<Price>), AllocError> {
    let first = steps_that_go(alloc, trial, &CONTESTED)?;
    let old = level_of_second(trial);
    let _told = call_of(alloc, trial, 2, Call::CatchUp)?;
    let new = level_of_second(trial);
    let second = steps_that_go(alloc, trial, &RECORDED)?;
    Ok((first.wrapping_add(second), old, new))
}

fn old_table_goes(alloc: Global, trial: &mut Trial) -> Result<bool, AllocError> {
    let offers = old_and_new_offer(alloc, trial)?;
    let hall = records(&trial.book, &[Person(1), Person(2)], &[Object(1)]);
    Ok(offers == (6, Some(52), None) && hall)
}

#[test]
fn an_old_table_hides_the_floor(rt: HostRuntime) -> Result<(), Fail> {
    assert!(rt; goes_as_worked(rt.alloc(), Work::OldTable)?);
    Ok(())
}

// Whether worker 2, which hasn't caught up, learns the current price of object 1.
fn low_bid_goes(alloc: Global, trial: &mut Trial) -> Result<bool, AllocError> {
    let first = steps_that_go(alloc, trial, &CONTESTED)?;
    let low = (2, SUBMIT, Reply::TooLow(1, 52, 60), [3, 2], [60, 0]);
    Ok(first == 3 && goes(alloc, trial, low)?)
}

#[test]
fn a_low_bid_is_told_the_price(rt: HostRuntime) -> Result<(), Fail> {
    assert!(rt; goes_as_worked(rt.alloc(), Work::LowBid)?);
    Ok(())
}

// Two workers in turn, the second with an old table, up to the second phase's first claims.
const OLD_TABLES: [Step; 11] = [
    (1, Call::Claim, FIRST_OF_1, [2, 0], [0, 0]),
    (2, Call::Claim, FIRST_OF_2, [0, 0], [0, 0]),
    (2, SUBMIT, Reply::Accepted(1, 8, 0), [0, 0], [8, 0]),
    (2, Call::Claim, Reply::Wait, [0, 0], [8, 0]),
    (1, SUBMIT, Reply::TooLow(1, 5, 8), [1, 0], [8, 0]),
    (1, Call::CatchUp, Reply::Nothing, [1, 0], [8, 0]),
    (1, Call::Claim, FIRST_OF_1, [0, 0], [8, 0]),
    (1, SUBMIT, Reply::Accepted(2, 7, 0), [0, 0], [8, 7]),
    (1, Call::NextPhase, Reply::Nothing, [1, 2], [8, 7]),
    (1, Call::Claim, SECOND_OF_1, [2, 0], [8, 7]),
    (2, Call::Claim, SECOND_OF_2, [0, 0], [8, 7]),
];

const OLD_TABLES_TO_THE_END: [Step; 14] = [
    (1, SUBMIT, Reply::TooLow(2, 6, 7), [1, 0], [8, 7]),
    (1, Call::CatchUp, Reply::Nothing, [1, 0], [8, 7]),
    (1, Call::Claim, SECOND_OF_1, [0, 0], [8, 7]),
    (2, SUBMIT, Reply::TooLow(1, 7, 8), [2, 0], [8, 7]),
    (2, Call::Claim, SECOND_OF_2, [0, 0], [8, 7]),
    (1, SUBMIT, Reply::Accepted(1, 11, 0), [0, 0], [11, 7]),
    (1, Call::Claim, Reply::Wait, [0, 0], [11, 7]),
    (2, SUBMIT, Reply::TooLow(1, 7, 11), [2, 0], [11, 7]),
    (2, Call::CatchUp, Reply::Nothing, [2, 0], [11, 7]),
    (2, Call::Claim, SECOND_OF_2, [0, 0], [11, 7]),
    (2, SUBMIT, Reply::Accepted(1, 14, 1), [1, 0], [14, 7]),
    (2, Call::Claim, SECOND_OF_1, [0, 0], [14, 7]),
    (2, SUBMIT, Reply::Accepted(2, 9, 0), [0, 0], [14, 9]),
    (2, Call::Claim, Reply::Done, [0, 0], [14, 9]),
];

fn old_tables_go(alloc: Global, trial: &mut Trial) -> Result<bool, AllocError> {
    let first = steps_that_go(alloc, trial, &OLD_TABLES)?;
    let second = steps_that_go(alloc, trial, &OLD_TABLES_TO_THE_END)?;
    Ok(first == 11 && second == 14)
}

#[test]
fn two_workers_with_old_tables(rt: HostRuntime) -> Result<(), Fail> {
    assert!(rt; goes_as_worked(rt.alloc(), Work::OldTables)?);
    Ok(())
}

const LOWERED: Ask = Ask {
    phase: 1,
    eps: 2,
    floor: -43,
};

// Whether the book starts like this. The top is 42, so the bound is (42 - 14 + 42 - 12) / 2.
fn starts_lowered(book: &Book) -> bool {
    book.ask() == LOWERED
        && book.phase_bound() == 29
        && book.prices().as_slice() == [14, 12].as_slice()
}

#[test]
fn first_prices_lower_the_floor(rt: HostRuntime) -> Result<(), Fail> {
    assert!(rt; goes_as_worked(rt.alloc(), Work::Lowered)?);
    Ok(())
}

// ---- the most persons
// Person i lists one object: i, or the one before if two persons shall list object 1.
fn narrow_pairs(alloc: Global, n: u16, shift: u16) -> Result<Vec<Pair>, AllocError> {
    let mut pairs = Vec::new(alloc);
    for i in 0..n {
        let person = i.wrapping_add(1);
        let object = person.saturating_sub(shift).max(1);
        pairs.push((person, object, i64::from(i % 2)))?;
    }
    Ok(pairs)
}

// Worker 1 claims and bids, and begins the next phase if this one is over.
fn session(alloc: Global, trial: &mut Trial) -> Result<(), AllocError> {
    let _claim = call_of(alloc, trial, 1, Call::Claim)?;
    let _bid = call_of(alloc, trial, 1, SUBMIT)?;
    let _phase = call_of(alloc, trial, 1, Call::NextPhase)?;
    Ok(())
}

fn sessions(alloc: Global, trial: &mut Trial, count: u32) -> Result<(), AllocError> {
    for _ in 0..count {
        session(alloc, trial)?;
    }
    Ok(())
}

// A trial of the most persons. With a shift of 1, persons 1 and 2 both list object 1.
fn wide_trial(
    alloc: Global,
    shift: u16,
    first: &[Price],
    workers: u16,
) -> Result<Trial, AllocError> {
    let case = Case {
        n: MOST_PERSONS,
        pairs: narrow_pairs(alloc, MOST_PERSONS, shift)?,
        sense: Sense::Min,
        first: first.to_vec(alloc)?,
        workers,
    };
    open_case(alloc, &case)
}

// The objects and prices of the first person and of the last, if everybody is assigned.
fn ends_of(
    alloc: Global,
    book: &Book,
) -> Result<Option<[(Option<Object>, Option<Price>); 2]>, AllocError> {
    let Some(certificate) = book.answer(alloc)? else {
        return Ok(None);
    };
    let objects = certificate.assignment.objects();
    let prices = certificate.prices.as_slice();
    Ok(Some([
        (objects.first().copied(), prices.first().copied()),
        (objects.last().copied(), prices.last().copied()),
    ]))
}

// With costs 0 and 1 there are six phases, with eps 1638, 327, 65, 13, 2 and 1. Each ends with the
// prices of its first bids: the greatest rises by 8192 * (8193 + eps), and is that of the persons
// with cost 0.
fn wide_ends(alloc: Global, book: &Book) -> Result<bool, AllocError> {
    let first = (Some(Object(1)), Some(419_463_168));
    let last = (Some(Object(8192)), Some(419_454_975));
    Ok(ends_of(alloc, book)? == Some([first, last]) && book.version() == 49_152)
}

fn wide_goes(alloc: Global, trial: &mut Trial) -> Result<bool, AllocError> {
    sessions(alloc, trial, 49_152)?;
    wide_ends(alloc, &trial.book)
}

#[test]
fn as_many_persons_as_there_may_be(rt: HostRuntime) -> Result<(), Fail> {
    assert!(rt; goes_as_worked(rt.alloc(), Work::Wide)?);
    Ok(())
}

// Worker 1 finds an unowned object from person 3, and worker 2 none from person 2.
const TWO_SEARCHES: [(u16, Call); 10] = [
    (1, Call::Claim),
    (1, SUBMIT),
    (2, Call::Claim),
    (1, Call::Claim),
    (1, Call::Below(Mistake::Nothing)),
    (1, Call::GiveUp),
    (1, Call::Stop),
    (1, Call::Resume),
    (2, Call::CatchUp),
    (2, Call::Below(Mistake::Nothing)),
];

// The answer of the last of these calls.
fn last_told(alloc: Global, trial: &mut Trial, calls: &[(u16, Call)]) -> Result<Reply, AllocError> {
    let mut told = Reply::Unasked;
    for pair in calls {
        told = call_of(alloc, trial, pair.0, pair.1)?;
    }
    Ok(told)
}

// Whether the last search is recorded.
fn is_recorded(alloc: Global, trial: &mut Trial) -> Result<bool, AllocError> {
    Ok(last_told(alloc, trial, &TWO_SEARCHES)? == Reply::Recorded)
}

// Whether person 2 waits at the back of the queue, and is in the recorded Hall set with person 1.
fn stands_after_searches(alloc: Global, book: &Book) -> Result<bool, AllocError> {
    let waiting = waiting(alloc, book)?;
    let hall = records(book, &[Person(1), Person(2)], &[Object(1)]);
    Ok(hall && waiting.last().copied() == Some(Person(2)))
}

fn searches_go(alloc: Global, trial: &mut Trial) -> Result<bool, AllocError> {
    let told = is_recorded(alloc, trial)?;
    Ok(told && stands_after_searches(alloc, &trial.book)?)
}

#[test]
fn searches_among_as_many_persons_as_there_may_be(rt: HostRuntime) -> Result<(), Fail> {
    assert!(rt; goes_as_worked(rt.alloc(), Work::Searches)?);
    Ok(())
}

// The problems worked by hand.
#[derive(Clone, Copy)]
enum Work {
    SixBids,
    OldTable,
    LowBid,
    OldTables,
    Lowered,
    Wide,
    Searches,
}

fn trial_for(alloc: Global, work: Work) -> Result<Trial, AllocError> {
    match work {
        Work::SixBids | Work::OldTables => trial_of_two(alloc, &[]),
        Work::OldTable | Work::LowBid => three_persons(alloc),
        Work::Lowered => trial_of_two(alloc, &[14, 12]),
        Work::Wide => wide_trial(alloc, 0, &[], 1),
        Work::Searches => wide_trial(alloc, 1, &[7], 2),
    }
}

fn goes_on(alloc: Global, trial: &mut Trial, work: Work) -> Result<bool, AllocError> {
    match work {
        Work::SixBids => six_bids_go(alloc, trial),
        Work::OldTable => old_table_goes(alloc, trial),
        Work::LowBid => low_bid_goes(alloc, trial),
        Work::OldTables => old_tables_go(alloc, trial),
        Work::Lowered => Ok(starts_lowered(&trial.book)),
        Work::Wide => wide_goes(alloc, trial),
        Work::Searches => searches_go(alloc, trial),
    }
}

// Whether all goes as worked out. Only this function owns the trial, since the checker follows all
// that an owner drops at each place where it may return early.
fn goes_as_worked(alloc: Global, work: Work) -> Result<bool, AllocError> {
    let mut trial = trial_for(alloc, work)?;
    goes_on(alloc, &mut trial, work)
}
