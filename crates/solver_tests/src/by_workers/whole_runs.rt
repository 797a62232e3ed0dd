// Worked problems under gates that hold workers back, and drawn ones, compared with a search of all
// assignments.
use assign_core::{Cost, Outcome, Price, Sense};
use async_workers::{Gate, Note, OpenGate, Standing, Tally, go_alone, solve_workers};
use auction_book::{Book, Refused};
use std::alloc::{AllocError, Global};
use std::sync::Wait;
use std::sync::atomic::{AtomicU64, Ordering};
use std::test::Fail;
use std::thread;
use std::thread::Threads;
use test_helpers::{
    Pair, best_cost, cost_of, dense, draw, drawn_pairs, drawn_sense, numbers_of, scaled_of, size,
};

// The result of a run: the objects and prices, or the persons and objects of a Hall set; and the
// number of accepted bids of each worker.
#[derive(Drop)]
enum Seen {
    Best(Vec<u16>, Vec<Price>, Vec<u128>),
    Hall(Vec<u16>, Vec<u16>),
    Refused,
}

fn counts_of(alloc: Global, tallies: &[Tally]) -> Result<Vec<u128>, AllocError> {
    let mut accepted = Vec::new(alloc);
    for tally in tallies {
        accepted.push(tally.accepted)?;
    }
    Ok(accepted)
}

fn seen_in(alloc: Global, outcome: &Outcome, tallies: &[Tally]) -> Result<Seen, AllocError> {
    match outcome {
        Outcome::Best(certificate) => {
            let objects = numbers_of(alloc, certificate.assignment.objects())?;
            let prices = certificate.prices.as_slice().to_vec(alloc)?;
            Ok(Seen::Best(objects, prices, counts_of(alloc, tallies)?))
        }
        Outcome::Hall(hall) => {
            let persons = numbers_of(alloc, hall.persons())?;
            Ok(Seen::Hall(persons, numbers_of(alloc, hall.objects())?))
        }
    }
}

// The result of these workers.
fn solved<G: Gate + Sync, R: Threads + Wait + Sync>(
    rt: &R,
    alloc: Global,
    n: u16,
    pairs: &[Pair],
    sense: Sense,
    workers: u16,
    refresh: u64,
    gate: &G,
) -> Result<Seen, AllocError> {
    let scaled = scaled_of(alloc, size(n), pairs, sense)?;
    match solve_workers(rt, alloc, scaled, workers.max(1), refresh, gate) {
        Ok((outcome, tallies)) => seen_in(alloc, &outcome, tallies.as_slice()),
        Err(_) => Ok(Seen::Refused),
    }
}

// The result of workers on a dense problem, under `Min`.
fn dense_solved<G: Gate + Sync, R: Threads + Wait + Sync>(
    rt: &R,
    alloc: Global,
    n: u16,
    costs: &[Cost],
    workers: u16,
    refresh: u64,
    gate: &G,
) -> Result<Seen, AllocError> {
    let pairs = dense(alloc, n, costs)?;
    solved(
        rt,
        alloc,
        n,
        pairs.as_slice(),
        Sense::Min,
        workers,
        refresh,
        gate,
    )
}

// ---- gates
// The most turns for which a gate holds a worker.
const TURNS: u32 = 1_000_000;

// Holds the first offers, and if `waiting` is above 0 the first submissions, until this many
// workers have reached theirs; and then that of worker 1 until worker 2 has seen this many
// acceptances.
#[derive(Drop)]
struct Holding {
    workers: u64,
    offers: AtomicU64,
    submissions: AtomicU64,
    waiting: u64,
    accepted: AtomicU64,
    refused: AtomicU64,
    late: AtomicU64,
}

fn new_gate(workers: u64, waiting: u64) -> Holding {
    Holding {
        workers,
        offers: AtomicU64::new(0),
        submissions: AtomicU64::new(0),
        waiting,
        accepted: AtomicU64::new(0),
        refused: AtomicU64::new(0),
        late: AtomicU64::new(0),
    }
}

// Whether this is the worker's first time here.
fn is_first(reached: &AtomicU64, worker: u16) -> bool {
    let bit = 1u64.wrapping_shl(u32::from(worker));
    reached.fetch_or(bit, Ordering::SeqCst) & bit == 0
}

// Waits, for at most `TURNS` turns, until `reached` has this many bits or is at least this great.
fn hold(reached: &AtomicU64, least: u64, bits: bool, late: &AtomicU64) {
    for _ in 0..TURNS {
        let now = reached.load(Ordering::SeqCst);
        let now = if bits {
            u64::from(now.count_ones())
        } else {
            now
        };
        if now >= least {
            return;
        }
        thread::yield_now();
    }
    late.store(1, Ordering::SeqCst);
}

impl Gate for Holding {
    fn before_offer(&self, worker: u16) {
        if is_first(&self.offers, worker) {
            hold(&self.offers, self.workers, true, &self.late);
        }
    }

    fn before_submit(&self, worker: u16, _turns: u64) {
        if self.waiting > 0 && is_first(&self.submissions, worker) {
            hold(&self.submissions, self.workers, true, &self.late);
            if worker == 1 {
                hold(&self.accepted, self.waiting, false, &self.late);
            }
        }
    }

    fn after_session(&self, worker: u16, note: Note) {
        match note {
            Note::Accepted => {
                if worker == 2 {
                    self.accepted.fetch_add(1, Ordering::SeqCst);
                }
            }
            Note::Refused(Refused::TooLow(1)) => {
                self.refused.fetch_add(1, Ordering::SeqCst);
            }
            _ => {}
        }
    }
}

// Holds each worker after its first session until the other one has finished one.
#[derive(Drop)]
struct Meeting {
    met: AtomicU64,
    late: AtomicU64,
}

impl Gate for Meeting {
    fn before_offer(&self, _worker: u16) {}

    fn before_submit(&self, _worker: u16, _turns: u64) {}

    fn after_session(&self, worker: u16, _note: Note) {
        if is_first(&self.met, worker) {
            hold(&self.met, 2, true, &self.late);
        }
    }
}

// Follows a run of one worker: its last report, the number of acceptances that it saw, and whether
// a report was impossible after the one before.
#[derive(Drop)]
struct Following {
    sessions: AtomicU64,
    phase: AtomicU64,
    eps: AtomicU64,
    assigned: AtomicU64,
    accepted: AtomicU64,
    heard: AtomicU64,
    wrong: AtomicU64,
}

fn new_following() -> Following {
    Following {
        sessions: AtomicU64::new(0),
        phase: AtomicU64::new(1),
        eps: AtomicU64::new(u64::MAX),
        assigned: AtomicU64::new(0),
        accepted: AtomicU64::new(0),
        heard: AtomicU64::new(0),
        wrong: AtomicU64::new(0),
    }
}

impl Gate for Following {
    fn before_offer(&self, _worker: u16) {}

    fn before_submit(&self, _worker: u16, _turns: u64) {}

    fn after_session(&self, _worker: u16, note: Note) {
        if note == Note::Accepted {
            self.heard.fetch_add(1, Ordering::SeqCst);
        }
    }

    fn after_standing(&self, worker: u16, sessions: u64, standing: Standing) {
        let phase = u64::from(standing.phase);
        let eps = u64::try_from(standing.eps).unwrap_or(0);
        let accepted = u64::try_from(standing.accepted).unwrap_or(0);
        self.assigned
            .store(u64::from(standing.assigned), Ordering::SeqCst);
        let rises = self.phase.swap(phase, Ordering::SeqCst) <= phase
            && self.eps.swap(eps, Ordering::SeqCst) >= eps
            && self.accepted.swap(accepted, Ordering::SeqCst) <= accepted
            && self.sessions.fetch_add(1, Ordering::SeqCst).wrapping_add(1) == sessions;
        if worker != 1 || standing.assigned > 8 || !rises {
            self.wrong.store(1, Ordering::SeqCst);
        }
    }
}

// ---- worked problems
// Costs with only one least assignment: the cost of person i for object j is u_i + v_j if j is its
// object there, and more otherwise.
const EIGHT: [Cost; 64] = [
    14, 20, 22, 28, 34, 40, 46, 48, 8, 14, 21, 24, 31, 34, 41, 44, 18, 22, 26, 29, 38, 42, 46, 50,
    10, 15, 20, 25, 30, 35, 40, 44, 15, 18, 27, 29, 35, 41, 47, 49, 10, 13, 20, 23, 30, 33, 37, 43,
    15, 19, 23, 27, 31, 39, 43, 47, 11, 16, 21, 26, 31, 35, 41, 46,
];

// The objects of their one least assignment.
const LEAST_OF_EIGHT: [u16; 8] = [3, 1, 4, 8, 2, 7, 5, 6];

// Whether some workers give these objects to the eight persons.
fn eight<G: Gate + Sync, R: Threads + Wait + Sync>(
    rt: &R,
    alloc: Global,
    workers: u16,
    refresh: u64,
    gate: &G,
) -> Result<bool, AllocError> {
    match dense_solved(rt, alloc, 8, &EIGHT, workers, refresh, gate)? {
        Seen::Best(objects, _, _) => Ok(objects.as_slice() == LEAST_OF_EIGHT.as_slice()),
        _ => Ok(false),
    }
}

#[test]
fn eight_persons(rt: HostRuntime) -> Result<(), Fail> {
    for (workers, refresh) in [(1, 1), (4, 1), (64, 1), (4, 0), (4, 1000), (64, 1000)] {
        let least = eight(&rt, rt.alloc(), workers, refresh, &OpenGate)?;
        assert!(rt; least, "{workers} workers, refresh {refresh}");
    }
    Ok(())
}

fn number_at(place: &AtomicU64) -> u64 {
    place.load(Ordering::SeqCst)
}

// The acceptances of a run of one worker, if it found an assignment.
fn accepted_by_one(seen: &Seen) -> Option<u128> {
    match seen {
        Seen::Best(_, _, accepted) if accepted.len() == 1 => accepted.first().copied(),
        _ => None,
    }
}

// One worker on the eight persons: its acceptances, those last reported, and those that the gate
// saw; the last phase, slackness and number of assigned persons; and 1 if a report was impossible.
fn followed<R: Threads + Wait + Sync>(
    rt: &R,
    alloc: Global,
) -> Result<(Option<u128>, [u64; 2], [u64; 4]), AllocError> {
    let gate = new_following();
    let seen = dense_solved(rt, alloc, 8, &EIGHT, 1, 1, &gate)?;
    let accepted = [number_at(&gate.accepted), number_at(&gate.heard)];
    let last = [
        number_at(&gate.phase),
        number_at(&gate.eps),
        number_at(&gate.assigned),
        number_at(&gate.wrong),
    ];
    Ok((accepted_by_one(&seen), accepted, last))
}

// The spread is 378, nine times that of the costs, so the phases have slackness 75, 15, 3 and 1.
#[test]
fn one_worker_is_followed(rt: HostRuntime) -> Result<(), Fail> {
    let (accepted, [shown, heard], last) = followed(&rt, rt.alloc())?;
    assert_eq!(rt; accepted, Some(u128::from(shown)));
    assert_eq!(rt; (heard, last), (shown, [4, 1, 8, 0]));
    Ok(())
}

// Whether eight workers whose first offers are held find the least assignment, whether one was held
// too long, and the number of workers.
fn eight_at_once<R: Threads + Wait + Sync>(
    rt: &R,
    alloc: Global,
) -> Result<(bool, u64, u32), AllocError> {
    let gate = new_gate(8, 0);
    let least = eight(rt, alloc, 8, 1, &gate)?;
    let (late, offers) = (number_at(&gate.late), number_at(&gate.offers));
    Ok((least, late, offers.count_ones()))
}

#[test]
fn all_workers_start(rt: HostRuntime) -> Result<(), Fail> {
    assert_eq!(rt; eight_at_once(&rt, rt.alloc())?, (true, 0, 8));
    Ok(())
}

// An assignment with one of these lists of objects, these prices and these acceptances.
#[derive(Clone, Copy)]
struct Wanted<'a> {
    lists: &'a [&'a [u16]],
    prices: &'a [Price],
    accepted: &'a [u128],
}

fn is_wanted(seen: &Seen, wanted: Wanted) -> bool {
    let Seen::Best(objects, prices, accepted) = seen else {
        return false;
    };
    wanted.lists.contains(&objects.as_slice())
        && prices.as_slice() == wanted.prices
        && accepted.as_slice() == wanted.accepted
}

// Whether two workers that never catch up by themselves get the expected result, if worker 1 is
// held until worker 2 has seen this many acceptances; the number of bids refused at price 1; and
// whether one was held too long.
fn stale_bid<R: Threads + Wait + Sync>(
    rt: &R,
    alloc: Global,
    waiting: u64,
    n: u16,
    costs: &[Cost],
    wanted: Wanted,
) -> Result<(bool, u64, u64), AllocError> {
    let gate = new_gate(2, waiting);
    let seen = dense_solved(rt, alloc, n, costs, 2, 0, &gate)?;
    let (refused, late) = (number_at(&gate.refused), number_at(&gate.late));
    Ok((is_wanted(&seen, wanted), refused, late))
}

// Whether two workers that wait for each other find the least assignment, the number of workers
// that finished a session, and whether one was held too long.
fn eight_met<R: Threads + Wait + Sync>(
    rt: &R,
    alloc: Global,
) -> Result<(bool, u32, u64), AllocError> {
    let gate = Meeting {
        met: AtomicU64::new(0),
        late: AtomicU64::new(0),
    };
    let least = eight(rt, alloc, 2, 1, &gate)?;
    let (met, late) = (number_at(&gate.met), number_at(&gate.late));
    Ok((least, met.count_ones(), late))
}

#[test]
fn the_gate_is_called_without_the_book(rt: HostRuntime) -> Result<(), Fail> {
    assert_eq!(rt; eight_met(&rt, rt.alloc())?, (true, 2, 0));
    Ok(())
}

#[test]
fn stale_bid_refused(rt: HostRuntime) -> Result<(), Fail> {
    let wanted = Wanted {
        lists: &[&[1, 2], &[2, 1]],
        prices: &[1, 2],
        accepted: &[1, 1],
    };
    let seen = stale_bid(&rt, rt.alloc(), 1, 2, &[2, 2, 2, 2], wanted)?;
    assert_eq!(rt; seen, (true, 1, 0));
    Ok(())
}

#[test]
fn stale_bid_accepted(rt: HostRuntime) -> Result<(), Fail> {
    let costs = [0, 1, 1, 1, 0, 1, 1, 1, 0];
    let wanted = Wanted {
        lists: &[&[1, 2, 3]],
        prices: &[5, 5, 5],
        accepted: &[1, 2],
    };
    let seen = stale_bid(&rt, rt.alloc(), 2, 3, &costs, wanted)?;
    assert_eq!(rt; seen, (true, 0, 0));
    Ok(())
}

// Whether workers find on these pairs that these persons list only these objects.
fn is_hall<R: Threads + Wait + Sync>(
    rt: &R,
    alloc: Global,
    n: u16,
    pairs: &[Pair],
    workers: u16,
    persons: &[u16],
    objects: &[u16],
) -> Result<bool, AllocError> {
    match solved(rt, alloc, n, pairs, Sense::Min, workers, 1, &OpenGate)? {
        Seen::Hall(found, listed) => {
            Ok(found.as_slice() == persons && listed.as_slice() == objects)
        }
        _ => Ok(false),
    }
}

#[test]
fn three_persons_and_no_assignment(rt: HostRuntime) -> Result<(), Fail> {
    let pairs = [(1, 1, 4), (2, 1, 6), (3, 2, 1), (3, 3, 2)];
    for workers in [1, 2, 3] {
        assert!(rt; is_hall(&rt, rt.alloc(), 3, &pairs, workers, &[1, 2], &[1])?);
    }
    Ok(())
}

// ---- drawn problems
// A problem of at most eight persons, each of which may list some objects or all. The greatest are
// few, since the search that they are compared with tries all assignments.
fn drawn(alloc: Global, seed: &mut u64) -> Result<(u16, Vec<Pair>), AllocError> {
    let n = draw(seed, 8).min(draw(seed, 8)) + 1;
    let share = draw(seed, 4) + 1;
    let costs = draw(seed, 30) + 1;
    Ok((n, drawn_pairs(alloc, seed, n, share, costs)?))
}

// Whether workers agree with a search of all assignments on a drawn problem.
fn agrees<R: Threads + Wait + Sync>(
    rt: &R,
    alloc: Global,
    seed: &mut u64,
) -> Result<bool, AllocError> {
    let (n, pairs) = drawn(alloc, seed)?;
    let sense = drawn_sense(seed);
    let workers = draw(seed, 8) + 1;
    let refresh = u64::from(draw(seed, 4));
    let cost = best_cost(alloc, n, pairs.as_slice(), sense)?;
    match solved(
        rt,
        alloc,
        n,
        pairs.as_slice(),
        sense,
        workers,
        refresh,
        &OpenGate,
    )? {
        Seen::Best(objects, _, _) => Ok(
            cost == Some(cost_of(pairs.as_slice(), objects.as_slice())),
        ),
        Seen::Hall(_, _) => Ok(cost.is_none()),
        Seen::Refused => Ok(false),
    }
}

// The number of problems, of these drawn from a seed, that agree.
fn agreeing<R: Threads + Wait + Sync>(
    rt: &R,
    alloc: Global,
    turns: u32,
    seed: u64,
) -> Result<u32, AllocError> {
    let mut seed = seed;
    let mut count: u32 = 0;
    for _ in 0..turns {
        if agrees(rt, alloc, &mut seed)? {
            count = count.wrapping_add(1);
        }
    }
    Ok(count)
}

#[test]
fn drawn_problems(rt: HostRuntime) -> Result<(), Fail> {
    for seed in [2026, 11] {
        assert_eq!(rt; agreeing(&rt, rt.alloc(), 500, seed)?, 500, "{seed}");
    }
    Ok(())
}

// ---- long rows
// The result of a book without candidates, with which this thread goes on alone.
fn without_lists<R: Wait>(
    rt: &R,
    alloc: Global,
    n: u16,
    pairs: &[Pair],
) -> Result<Seen, AllocError> {
    let scaled = scaled_of(alloc, size(n), pairs, Sense::Min)?;
    let mut book = Book::open(alloc, scaled, 1)?;
    if book.workers() == 0 {
        return Ok(Seen::Refused);
    }
    let outcome = go_alone(rt, alloc, &mut book)?;
    let tally = Tally {
        worker: 1,
        accepted: book.version(),
    };
    seen_in(alloc, &outcome, &[tally])
}

// Whether both are assignments with the same objects, prices and acceptances.
fn is_same(first: &Seen, second: &Seen) -> bool {
    match (first, second) {
        (Seen::Best(objects, prices, accepted), Seen::Best(others, levels, counts)) => {
            objects.as_slice() == others.as_slice()
                && prices.as_slice() == levels.as_slice()
                && accepted.as_slice() == counts.as_slice()
        }
        _ => false,
    }
}

// Whether both are assignments of the same cost.
fn is_as_good(first: &Seen, second: &Seen, pairs: &[Pair]) -> bool {
    match (first, second) {
        (Seen::Best(objects, _, _), Seen::Best(others, _, _)) => {
            cost_of(pairs, objects.as_slice()) == cost_of(pairs, others.as_slice())
        }
        _ => false,
    }
}

// Whether one worker gives a hundred persons what a book without candidates does, and whether three
// workers with tables of some age find the same cost.
fn long_rows<R: Threads + Wait + Sync>(
    rt: &R,
    alloc: Global,
    share: u16,
    costs: u16,
) -> Result<(bool, bool), AllocError> {
    let mut seed = 2026;
    let drawn = drawn_pairs(alloc, &mut seed, 100, share, costs.max(1))?;
    let pairs = drawn.as_slice();
    let wanted = without_lists(rt, alloc, 100, pairs)?;
    let one = solved(rt, alloc, 100, pairs, Sense::Min, 1, 1, &OpenGate)?;
    let three = solved(rt, alloc, 100, pairs, Sense::Min, 3, 2, &OpenGate)?;
    Ok((is_same(&one, &wanted), is_as_good(&three, &wanted, pairs)))
}

#[test]
fn candidates_change_no_result(rt: HostRuntime) -> Result<(), Fail> {
    for (share, costs) in [(4, 60000), (4, 5), (3, 1000), (2, 300)] {
        let seen = long_rows(&rt, rt.alloc(), share, costs)?;
        assert_eq!(rt; seen, (true, true), "{share} of 4 pairs, {costs} costs");
    }
    Ok(())
}
