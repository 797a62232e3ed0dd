// Drawn problems of every shape: cold, warm, and in pieces.
use super::judged::{is_hall_set, judge, least_total, nobody};
use sparse_search::{Outcome, Pair, Record, SparseProblem, Stage, search};
use std::alloc::{AllocError, Global};
use std::test::Fail;
use test_helpers::{draw_wide, next_number};

// Lists of a problem.
#[derive(Drop)]
struct Lists {
    starts: Vec<usize>,
    pairs: Vec<Pair>,
    objects: usize,
}

// What is found.
#[derive(Clone, Copy, Debug, PartialEq, Eq)]
enum Finding {
    // An exact answer of this total.
    Best(i64),
    // A true Hall set.
    Hall,
    Wrong,
    Stopped,
}

// The ends of the drawn costs.
pub const SPANS: [u64; 6] = [1, 3, 100, 1 << 25, 1 << 40, 1_000_000_000_000];

impl Lists {
    fn problem(&self) -> SparseProblem<'_> {
        SparseProblem {
            starts: self.starts.as_slice(),
            pairs: self.pairs.as_slice(),
            objects: self.objects,
        }
    }
}

// A drawn cost, half of them below 0.
pub fn draw_cost(seed: &mut u64, span: u64) -> i64 {
    let wide = next_number(seed).wrapping_mul(next_number(seed));
    let cost = (wide.checked_rem(span).unwrap_or(0) & 0xff_ffff_ffff) as i64;
    if next_number(seed) % 2 == 0 {
        cost
    } else {
        cost.wrapping_neg()
    }
}

// A row with about `share` in eight of all objects, some of them twice.
fn draw_row(
    seed: &mut u64,
    objects: u32,
    share: u64,
    span: u64,
    pairs: &mut Vec<Pair>,
) -> Result<(), AllocError> {
    for object in 0..objects {
        if draw_wide(seed, 8) < share {
            pairs.push(Pair {
                object,
                cost: draw_cost(seed, span),
            })?;
        }
        if draw_wide(seed, 16) == 0 {
            pairs.push(Pair {
                object,
                cost: draw_cost(seed, span),
            })?;
        }
    }
    Ok(())
}

fn draw_lists(alloc: Global, seed: &mut u64) -> Result<Lists, AllocError> {
    let objects = (draw_wide(seed, 7) & 7) as u32 + 1;
    let persons = draw_wide(seed, u64::from(objects)).wrapping_add(1);
    draw_rows(alloc, seed, persons, objects)
}

fn draw_rows(
    alloc: Global,
    seed: &mut u64,
    persons: u64,
    objects: u32,
) -> Result<Lists, AllocError> {
    let share = draw_wide(seed, 7).wrapping_add(2);
    let span = SPANS[(draw_wide(seed, 6) % 6) as usize];
    let mut lists = Lists {
        starts: Vec::new(alloc),
        pairs: Vec::new(alloc),
        objects: objects as usize,
    };
    for _person in 0..persons {
        lists.starts.push(lists.pairs.len())?;
        draw_row(seed, objects, share, span, &mut lists.pairs)?;
    }
    lists.starts.push(lists.pairs.len())?;
    Ok(lists)
}

// One call, judged.
fn call(
    alloc: Global,
    problem: SparseProblem<'_>,
    prices: &mut [i64],
    objects: &mut [u32],
    record: &mut Record,
    budget: u64,
) -> Result<Finding, AllocError> {
    Ok(
        match search(alloc, problem, prices, objects, record, budget)? {
            Outcome::Best => match judge(alloc, problem, prices, objects)? {
                Some(total) => Finding::Best(total),
                None => Finding::Wrong,
            },
            Outcome::Hall(set) if is_hall_set(problem, &set) => Finding::Hall,
            Outcome::Hall(_) | Outcome::Lost => Finding::Wrong,
            Outcome::Stopped => Finding::Stopped,
        },
    )
}

fn cold(alloc: Global, lists: &Lists) -> Result<Finding, AllocError> {
    let problem = lists.problem();
    let mut prices = vec![in alloc; 0i64; problem.objects]?;
    let mut objects = nobody(alloc, problem.persons())?;
    let mut record = Record::cold();
    call(
        alloc,
        problem,
        prices.as_mut_slice(),
        objects.as_mut_slice(),
        &mut record,
        0,
    )
}

// What a search should find.
fn slow(alloc: Global, lists: &Lists) -> Result<Finding, AllocError> {
    Ok(match least_total(alloc, lists.problem())? {
        Some(total) => Finding::Best(total),
        None => Finding::Hall,
    })
}

#[test]
fn cold_searches_find_the_best(rt: HostRuntime) -> Result<(), Fail> {
    let mut seed = 1u64;
    for turn in 0..4000 {
        let lists = draw_lists(rt.alloc(), &mut seed)?;
        let found = cold(rt.alloc(), &lists)?;
        assert_eq!(rt; found, slow(rt.alloc(), &lists)?, "problem {turn}");
    }
    Ok(())
}

// Prices and objects from anywhere.
fn draw_start(
    alloc: Global,
    seed: &mut u64,
    lists: &Lists,
) -> Result<(Vec<i64>, Vec<u32>), AllocError> {
    let span = SPANS[(draw_wide(seed, 6) % 6) as usize];
    let mut prices = Vec::new(alloc);
    for _object in 0..lists.objects {
        prices.push(draw_cost(seed, span))?;
    }
    let mut objects = Vec::new(alloc);
    for _person in 0..lists.problem().persons() {
        objects.push((draw_wide(seed, 9) & 15) as u32)?;
    }
    Ok((prices, objects))
}

fn draw_stage(seed: &mut u64) -> Stage {
    match draw_wide(seed, 12) {
        0 => Stage::Cold,
        1 => Stage::Warm,
        2 => Stage::WarmTight,
        3 => Stage::Bids,
        4 => Stage::FirstTight,
        5 => Stage::FirstPaths,
        6 => Stage::Auction,
        7 => Stage::Help,
        8 => Stage::Matching,
        9 => Stage::LastTight,
        10 => Stage::LastPaths,
        _ => Stage::Unowned,
    }
}

// A record that no search wrote.
fn draw_record(seed: &mut u64) -> Record {
    Record {
        stage: draw_stage(seed),
        shift: (draw_wide(seed, 12) & 15) as u32,
        slackness: draw_cost(seed, 1 << 30),
        bids: draw_wide(seed, 200),
        dummy_bids: (draw_wide(seed, 6) & 7) as u32,
        has_assignment: draw_wide(seed, 2) == 0,
        place: (draw_wide(seed, 9) & 15) as u32,
        usual: (draw_wide(seed, 60) & 63) as u32,
        arc_scans: draw_wide(seed, 1000),
    }
}

fn started(
    alloc: Global,
    seed: &mut u64,
    lists: &Lists,
    record: Record,
) -> Result<Finding, AllocError> {
    let (mut prices, mut objects) = draw_start(alloc, seed, lists)?;
    let mut record = record;
    let problem = lists.problem();
    call(
        alloc,
        problem,
        prices.as_mut_slice(),
        objects.as_mut_slice(),
        &mut record,
        0,
    )
}

#[test]
fn warm_searches_find_the_best(rt: HostRuntime) -> Result<(), Fail> {
    let mut seed = 2u64;
    for turn in 0..3000 {
        let lists = draw_lists(rt.alloc(), &mut seed)?;
        let found = started(rt.alloc(), &mut seed, &lists, Record::warm())?;
        assert_eq!(rt; found, slow(rt.alloc(), &lists)?, "problem {turn}");
    }
    Ok(())
}

#[test]
fn searches_from_any_record_find_the_best(rt: HostRuntime) -> Result<(), Fail> {
    let mut seed = 3u64;
    for turn in 0..3000 {
        let lists = draw_lists(rt.alloc(), &mut seed)?;
        let record = draw_record(&mut seed);
        let found = started(rt.alloc(), &mut seed, &lists, record)?;
        assert_eq!(rt; found, slow(rt.alloc(), &lists)?, "problem {turn}");
    }
    Ok(())
}

// Calls of a few arc scans each from these prices, objects and record, up to the end.
fn in_pieces(
    alloc: Global,
    lists: &Lists,
    start: (Vec<i64>, Vec<u32>),
    record: Record,
    budget: u64,
) -> Result<Finding, AllocError> {
    let problem = lists.problem();
    let (mut prices, mut objects) = start;
    let mut record = record;
    for _piece in 0..5000 {
        let (prices, objects) = (prices.as_mut_slice(), objects.as_mut_slice());
        let found = call(alloc, problem, prices, objects, &mut record, budget)?;
        if found != Finding::Stopped {
            return Ok(found);
        }
    }
    Ok(Finding::Stopped)
}

#[test]
fn searches_in_pieces_find_the_best(rt: HostRuntime) -> Result<(), Fail> {
    let mut seed = 4u64;
    for turn in 0..1500 {
        let lists = draw_lists(rt.alloc(), &mut seed)?;
        let budget = draw_wide(&mut seed, 40).wrapping_add(1);
        let prices = vec![in rt.alloc(); 0i64; lists.objects]?;
        let objects = nobody(rt.alloc(), lists.problem().persons())?;
        let found = in_pieces(
            rt.alloc(),
            &lists,
            (prices, objects),
            Record::cold(),
            budget,
        )?;
        assert_eq!(rt; found, slow(rt.alloc(), &lists)?, "problem {turn}");
    }
    Ok(())
}

// What a caller may have put in the place of a search's own record, plan and prices: the sizes, the
// stage, its slackness, and by how many powers of 2 prices are greater than costs.
#[derive(Clone, Copy)]
struct Foreign {
    persons: u64,
    objects: u32,
    stage: Stage,
    slackness: i64,
    shift: u32,
}

// Many unowned objects that are dear, a slackness beyond all costs, and prices beyond all sums.
const FOREIGN: [Foreign; 3] = [
    Foreign {
        persons: 16,
        objects: 65,
        stage: Stage::FirstPaths,
        slackness: 0,
        shift: 0,
    },
    Foreign {
        persons: 12,
        objects: 12,
        stage: Stage::Auction,
        slackness: i64::MAX,
        shift: 0,
    },
    Foreign {
        persons: 12,
        objects: 12,
        stage: Stage::LastTight,
        slackness: 0,
        shift: 22,
    },
];

// A problem in calls of a single arc scan, next to one call from nothing.
fn in_smallest_pieces(
    alloc: Global,
    seed: &mut u64,
    foreign: Foreign,
) -> Result<(Finding, Finding), AllocError> {
    let lists = draw_rows(alloc, seed, foreign.persons, foreign.objects)?;
    let (mut prices, objects) = draw_start(alloc, seed, &lists)?;
    for price in prices.iter_mut() {
        *price = price.wrapping_shl(foreign.shift);
    }
    let record = Record {
        stage: foreign.stage,
        slackness: foreign.slackness,
        ..Record::cold()
    };
    let pieces = in_pieces(alloc, &lists, (prices, objects), record, 1)?;
    Ok((pieces, cold(alloc, &lists)?))
}

#[test]
fn the_smallest_pieces_end_from_any_record(rt: HostRuntime) -> Result<(), Fail> {
    let mut seed = 5u64;
    for turn in 0..300usize {
        let foreign = FOREIGN[turn % 3];
        let (pieces, whole) = in_smallest_pieces(rt.alloc(), &mut seed, foreign)?;
        assert_eq!(rt; pieces, whole, "problem {turn}");
    }
    Ok(())
}
