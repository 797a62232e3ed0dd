// Drawn orders of turns, compared with the core's run of the same events; and of turns, leaves and
// stops, compared with plain workers.
ghost use Rattle.std.specs.Prelude.{◌≡◌, ◌<◌, ◌≤ℤ◌, length, IfOk};
ghost use Rattle.std.specs.Arc.{arc_value};
ghost use Rattle.assign_core.specs.Rows.{IsSize};
ghost use Rattle.scaled_values.specs.Scaled.{greatest_of};

use super::beside;
use super::scripts::{Heard, Shown, Story, new_book, played};
use assign_core::{GREATEST_FIRST_PRICE, HallSet, Prices};
use async_workers::Note;
use auction_book::{Book, Event, Refused, WorkerState, World, run_schedule_from};
use scaled_values::Scaled;
use std::alloc::{AllocError, Global};
use std::sync::{Arc, Wait};
use std::test::Fail;
use test_helpers::{draw, drawn_pairs, drawn_prices, drawn_sense, scaled_of, size};

// A turn; sometimes a leave, and rarely a stop.
fn drawn_step(seed: &mut u64, leaving: bool) -> u8 {
    if !leaving {
        return b't';
    }
    match draw(seed, 60) {
        0 => b's',
        1..=8 => b'l',
        _ => b't',
    }
}

// A script of `count` steps of some of these workers, at most nine: all of them turns, or not.
fn drawn_script(
    alloc: Global,
    seed: &mut u64,
    workers: u16,
    count: u16,
    leaving: bool,
) -> Result<Vec<u8>, AllocError>
    requires { 0 < workers }
{
    let mut script = Vec::new(alloc);
    for _ in 0..count {
        let worker = (draw(seed, workers) % 9) as u8;
        script.push(worker.wrapping_add(b'1'))?;
        script.push(drawn_step(seed, leaving))?;
    }
    Ok(script)
}

// The core's events for the sessions that a gate saw.
fn events_of(
    alloc: Global,
    heard: &[Heard],
    workers: u16,
    refresh: u64,
) -> Result<Vec<Event>, AllocError> {
    let mut since: Vec<u64> = vec![in alloc; 0; workers as usize + 1]?;
    let mut events = Vec::new(alloc);
    for step in heard {
        if let Heard::Session(worker, note) = *step {
            let at = worker as usize;
            if at < since.len() {
                let count = since[at].wrapping_add(1);
                let low = matches!(note, Note::Refused(Refused::TooLow(_)));
                let catch_up = low || (refresh > 0 && count >= refresh);
                since[at] = if catch_up { 0 } else { count };
                events.push(Event { worker, catch_up })?;
            }
        }
    }
    Ok(events)
}

// The state of a worker in another run of the same steps.
pub(crate) trait Alike {
    // Whether its desk shows the same.
    fn is_alike(&self, shown: &Shown) -> bool;
}

pub(crate) fn all_alike<T: Alike>(shown: &[Shown], others: &[T]) -> bool {
    shown.len() == others.len()
        && shown
            .iter()
            .zip(others.iter())
            .all(|(desk, other)| other.is_alike(desk))
}

impl Alike for WorkerState {
    fn is_alike(&self, shown: &Shown) -> bool {
        shown.table.as_slice() == self.table.as_slice()
            && shown.version == self.version
            && shown.offer == self.offer
            && shown.accepted == self.accepted
    }
}

fn is_hall(hall: Option<&HallSet>, other: Option<&HallSet>) -> bool {
    match (hall, other) {
        (None, None) => true,
        (Some(hall), Some(other)) => {
            hall.persons() == other.persons() && hall.objects() == other.objects()
        }
        _ => false,
    }
}

// Whether two books are in the same state of the same phase.
fn is_phase(book: &Book, other: &Book) -> bool {
    book.first_kept() == other.first_kept()
        && book.phase_accepted() == other.phase_accepted()
        && book.phase_bound() == other.phase_bound()
        && book.stopped() == other.stopped()
        && is_hall(book.refuted(), other.refuted())
}

// Whether the workers of two books have the same claims and acceptances.
fn are_claims(book: &Book, other: &Book) -> bool {
    for before in 0..book.workers() {
        let worker = before + 1;
        if worker > other.workers()
            || book.claimed_by(worker) != other.claimed_by(worker)
            || book.accepted_by(worker) != other.accepted_by(worker)
        {
            return false;
        }
    }
    book.workers() == other.workers()
}

pub(crate) fn is_book(book: &Book, other: &Book) -> bool {
    book.prices().as_slice() == other.prices().as_slice()
        && book.version() == other.version()
        && book.owners() == other.owners()
        && book.ask() == other.ask()
        && is_phase(book, other)
        && are_claims(book, other)
}

fn is_world(story: &Story, world: &World) -> bool {
    match &story.book {
        Some(book) => {
            all_alike(story.shown.as_slice(), world.states.as_slice()) && is_book(book, &world.book)
        }
        None => false,
    }
}

// Whether a story is the core's run of the events that its gate saw.
fn is_run(
    alloc: Global,
    scaled: &Arc<Scaled>,
    prices: &Prices,
    workers: u16,
    refresh: u64,
    story: &Story,
) -> Result<bool, AllocError>
    requires workers { 0 < workers }
    requires long { length prices.now ≡ length (arc_value scaled.now).problem }
    requires low { greatest_of prices.now ≤ℤ GREATEST_FIRST_PRICE }
{
    let events = events_of(alloc, story.heard.as_slice(), workers, refresh)?;
    let scaled = Arc::try_clone(scaled)?;
    let prices = prices.copy(alloc)?;
    let world = run_schedule_from(alloc, scaled, prices, workers, events.as_slice())?;
    Ok(is_world(story, &world))
}

// Whether desks and book are those of the core's world after these turns.
fn agrees<R: Wait>(
    rt: &R,
    alloc: Global,
    scaled: &Arc<Scaled>,
    prices: &Prices,
    workers: u16,
    script: &[u8],
    refresh: u64,
) -> Result<bool, AllocError>
    requires workers { 0 < workers }
    requires long { length prices.now ≡ length (arc_value scaled.now).problem }
    requires low { greatest_of prices.now ≤ℤ GREATEST_FIRST_PRICE }
{
    let book = new_book(alloc, scaled, prices, workers)?;
    let story = played(rt, alloc, book, script, refresh)?;
    is_run(alloc, scaled, prices, workers, refresh, &story)
}

// The script without its last `letters` letters.
fn front_of(script: &[u8], letters: usize) -> &[u8] {
    script
        .get(..script.len().saturating_sub(letters))
        .unwrap_or(script)
}

// Whether desks and book are those of plain workers after a script, and after some of its fronts.
// Adds the letters of the whole script to the earlier ones.
fn fronts_agree<R: Wait>(
    rt: &R,
    alloc: Global,
    script: &[u8],
    came: &mut Vec<u8>,
    scaled: &Arc<Scaled>,
    prices: &Prices,
    workers: u16,
    refresh: u64,
) -> Result<bool, AllocError>
    requires workers { 0 < workers }
    requires long { length prices.now ≡ length (arc_value scaled.now).problem }
    requires low { greatest_of prices.now ≤ℤ GREATEST_FIRST_PRICE }
{
    let before = came.len();
    for part in 0..5 {
        let front = front_of(script, 16 * (4 - part));
        let book = new_book(alloc, scaled, prices, workers)?;
        let other = new_book(alloc, scaled, prices, workers)?;
        came.truncate(before);
        if !beside::agrees(rt, alloc, book, other, front, refresh, came)? {
            return Ok(false);
        }
    }
    Ok(true)
}

// A problem with few different costs or with many.
fn drawn_problem(alloc: Global, seed: &mut u64, n: u16) -> Result<Arc<Scaled>, AllocError>
    requires { IsSize n }
    ensures { IfOk result (λ scaled. length (arc_value scaled).problem ≡ n) }
{
    let sense = drawn_sense(seed);
    let costs = if draw(seed, 2) == 0 { 4 } else { 1000 };
    let share = draw(seed, 3) + 2;
    let pairs = drawn_pairs(alloc, seed, n, share, costs)?;
    scaled_of(alloc, n, pairs.as_slice(), sense)
}

// One drawn problem with a drawn order of turns, or of turns, leaves and stops.
fn drawn_agrees<R: Wait>(
    rt: &R,
    alloc: Global,
    seed: &mut u64,
    leaving: bool,
    came: &mut Vec<u8>,
) -> Result<bool, AllocError> {
    let n = size(draw(seed, 5) + 1);
    let workers = draw(seed, 4) + 1;
    let refresh = u64::from(draw(seed, 4));
    let scaled = drawn_problem(alloc, seed, n)?;
    let prices = drawn_prices(alloc, seed, n)?;
    let steps = draw(seed, 8) + 33;
    let script = drawn_script(alloc, seed, workers, steps, leaving)?;
    let script = script.as_slice();
    if leaving {
        fronts_agree(rt, alloc, script, came, &scaled, &prices, workers, refresh)
    } else {
        agrees(rt, alloc, &scaled, &prices, workers, script, refresh)
    }
}

// The number of drawn orders, of these, that agree.
fn agreeing<R: Wait>(
    rt: &R,
    alloc: Global,
    count: u16,
    leaving: bool,
    came: &mut Vec<u8>,
) -> Result<u16, AllocError> {
    let mut seed = 2026;
    let mut agreed: u16 = 0;
    for _ in 0..count {
        if drawn_agrees(rt, alloc, &mut seed, leaving, came)? {
            agreed = agreed.wrapping_add(1);
        }
    }
    Ok(agreed)
}

// The number of drawn orders that agree, and whether each of these letters came a hundred times.
fn agreeing_with<R: Wait>(
    rt: &R,
    alloc: Global,
    count: u16,
    leaving: bool,
    letters: &str,
) -> Result<(u16, bool), AllocError> {
    let mut came = Vec::new(alloc);
    let agreed = agreeing(rt, alloc, count, leaving, &mut came)?;
    Ok((agreed, all_came(came.as_slice(), letters, 100)))
}

// Whether each of these letters came at least `times` times.
fn all_came(came: &[u8], letters: &str, times: usize) -> bool {
    letters.as_bytes().iter().all(|letter| came.iter().filter(|other| *other == letter).count()
        >= times)
}

// Turns alone are runs of the core; turns, leaves and stops are those of plain workers.
#[test]
fn drawn_orders(rt: HostRuntime) -> Result<(), Fail> {
    for (leaving, letters) in [(false, ""), (true, "CIDRSyna")] {
        let agreed = agreeing_with(&rt, rt.alloc(), 500, leaving, letters)?;
        assert_eq!(rt; agreed, (500, true), "leaving: {leaving}");
    }
    Ok(())
}
