// Drawn problems of every shape: cold, warm, from any record and in pieces.
use super::lists::{Finding, Lists};
use crate::sparse::drawn::{SPANS, draw_cost};
use crate::sparse::judged::nobody;
use assign_core::Sense;
use dense_search::{Record, Stage};
use std::alloc::{AllocError, Global};
use std::test::Fail;
use test_helpers::{draw_wide, drawn_sense};

// Kinds of costs.
#[derive(Clone, Copy)]
enum Kind {
    Drawn,
    // Nearly sums of a person's and an object's part.
    Sums,
    Products,
    // Few cheap pairs among dear ones.
    Band,
    // The objects of the neighbours and the own one, by very different costs.
    Neighbours,
    // Nearly products, of 39 bits.
    WideProducts,
    // Each eighth object costs all persons the same.
    Padded,
    // A number of each person, and noise.
    Rows,
}

fn draw_kind(seed: &mut u64) -> Kind {
    match draw_wide(seed, 6) {
        0 => Kind::Sums,
        1 => Kind::Products,
        2 => Kind::Band,
        _ => Kind::Drawn,
    }
}

fn small(index: usize) -> i64 {
    (index & 0xffff) as i64
}

fn cost_at(seed: &mut u64, kind: Kind, span: u64, person: usize, object: usize) -> i64 {
    let drawn = draw_cost(seed, span);
    let (row, column) = (small(person), small(object));
    match kind {
        Kind::Drawn => drawn,
        Kind::Sums => row
            .wrapping_mul(1000)
            .wrapping_add(column.wrapping_mul(7))
            .wrapping_add(drawn & 3),
        Kind::Products => row.wrapping_add(1).wrapping_mul(column.wrapping_add(1)),
        Kind::Band => {
            if row == column || row == column.wrapping_add(1) {
                drawn
            } else {
                1_000_000_000_000
            }
        }
        Kind::Neighbours => cost_near(person, object),
        Kind::WideProducts => {
            let product = (row.wrapping_mul(37) % 131).wrapping_mul(column.wrapping_mul(53) % 137);
            product
                .wrapping_shl(24)
                .wrapping_add(draw_cost(seed, 1 << 24))
        }
        Kind::Padded if column & 7 == 0 => 0,
        Kind::Padded => draw_cost(seed, 1 << 20).wrapping_add(1 << 20),
        Kind::Rows => row.wrapping_mul(1000).wrapping_add(draw_cost(seed, 1000)),
    }
}

fn cost_near(person: usize, object: usize) -> i64 {
    if person == object {
        1000
    } else if person == object.wrapping_add(1) {
        1
    } else if object == person.wrapping_add(1) {
        2000
    } else {
        10_000_000
    }
}

// The cost of each person and each object, person by person.
fn costs_of(
    alloc: Global,
    seed: &mut u64,
    kind: Kind,
    span: u64,
    persons: usize,
    objects: usize,
) -> Result<Vec<i64>, AllocError> {
    let mut costs = Vec::new(alloc);
    for k in 0..persons.wrapping_mul(objects) {
        let (person, object) = (k / objects.max(1), k % objects.max(1));
        costs.push(cost_at(seed, kind, span, person, object))?;
    }
    Ok(costs)
}

// A problem of at most `most` objects.
pub fn draw_lists(alloc: Global, seed: &mut u64, most: u64) -> Result<Lists, AllocError> {
    let objects = (draw_wide(seed, most) & 0xff) as usize + 1;
    let share = draw_wide(seed, 4);
    let fewer = (draw_wide(seed, objects as u64) & 0xff) as usize;
    let persons = if share == 0 {
        objects
    } else {
        objects.saturating_sub(fewer).max(1)
    };
    let span = SPANS[(draw_wide(seed, 6) % 6) as usize];
    let kind = draw_kind(seed);
    let costs = costs_of(alloc, seed, kind, span, persons, objects)?;
    Ok(Lists {
        sense: drawn_sense(seed),
        persons,
        objects,
        costs,
    })
}

// Prices and objects from anywhere.
fn draw_start(
    alloc: Global,
    seed: &mut u64,
    lists: &Lists,
) -> Result<(Vec<i64>, Vec<u32>), AllocError> {
    let span = SPANS[(draw_wide(seed, 6) % 6) as usize];
    let mut prices = Vec::new(alloc);
    for _object in 0..lists.objects {
        prices.push(draw_cost(seed, span))?;
    }
    let mut objects = Vec::new(alloc);
    for _person in 0..lists.persons {
        objects.push((draw_wide(seed, 9) & 15) as u32)?;
    }
    Ok((prices, objects))
}

pub fn draw_stage(seed: &mut u64) -> Stage {
    match draw_wide(seed, 10) {
        0 => Stage::Cold,
        1 => Stage::Warm,
        2 => Stage::Paths,
        3 => Stage::Core,
        4 => Stage::Retry,
        5 => Stage::Auction,
        6 => Stage::CopyPaths,
        7 => Stage::CopyAuction,
        8 => Stage::CopyFinish,
        _ => Stage::Finish,
    }
}

// A record that no search wrote.
fn draw_record(seed: &mut u64) -> Record {
    Record {
        stage: draw_stage(seed),
        shift: (draw_wide(seed, 12) & 15) as u32,
        slackness: draw_cost(seed, 1 << 30),
        bids: draw_wide(seed, 200),
        passes: draw_wide(seed, 4),
        restarts: (draw_wide(seed, 4) & 3) as u32,
        arc_scans: draw_wide(seed, 1000),
    }
}

// The most calls of a search.
const CALLS: usize = 10_000;

// Calls of a budget each from these prices and objects, up to the end.
pub fn call_on(
    alloc: Global,
    lists: &Lists,
    prices: &mut [i64],
    objects: &mut [u32],
    record: &mut Record,
    budget: u64,
) -> Result<Finding, AllocError> {
    for _piece in 0..CALLS {
        let found = lists.call(alloc, prices, objects, record, budget)?;
        if found != Finding::Stopped {
            return Ok(found);
        }
    }
    Ok(Finding::Stopped)
}

// Calls of a budget each from anywhere, up to the end.
fn in_pieces(
    alloc: Global,
    seed: &mut u64,
    lists: &Lists,
    record: Record,
    budget: u64,
) -> Result<Finding, AllocError> {
    let (mut prices, mut objects) = draw_start(alloc, seed, lists)?;
    let mut record = record;
    let (prices, objects) = (prices.as_mut_slice(), objects.as_mut_slice());
    call_on(alloc, lists, prices, objects, &mut record, budget)
}

#[test]
fn cold_searches_find_the_best(rt: HostRuntime) -> Result<(), Fail> {
    let mut seed = 1u64;
    for turn in 0..4000 {
        let lists = draw_lists(rt.alloc(), &mut seed, 8)?;
        let found = in_pieces(rt.alloc(), &mut seed, &lists, Record::cold(), 0)?;
        assert_eq!(rt; found, lists.slow(rt.alloc())?, "problem {turn}");
    }
    Ok(())
}

#[test]
fn warm_searches_find_the_best(rt: HostRuntime) -> Result<(), Fail> {
    let mut seed = 2u64;
    for turn in 0..3000 {
        let lists = draw_lists(rt.alloc(), &mut seed, 8)?;
        let found = in_pieces(rt.alloc(), &mut seed, &lists, Record::warm(), 0)?;
        assert_eq!(rt; found, lists.slow(rt.alloc())?, "problem {turn}");
    }
    Ok(())
}

#[test]
fn searches_from_any_record_find_the_best(rt: HostRuntime) -> Result<(), Fail> {
    let mut seed = 3u64;
    for turn in 0..1000 {
        let lists = draw_lists(rt.alloc(), &mut seed, 8)?;
        let record = draw_record(&mut seed);
        let found = in_pieces(rt.alloc(), &mut seed, &lists, record, 0)?;
        assert_eq!(rt; found, lists.slow(rt.alloc())?, "problem {turn}");
    }
    Ok(())
}

#[test]
fn searches_in_pieces_find_the_best(rt: HostRuntime) -> Result<(), Fail> {
    let mut seed = 4u64;
    for turn in 0..1000 {
        let lists = draw_lists(rt.alloc(), &mut seed, 8)?;
        let budget = draw_wide(&mut seed, 40).wrapping_add(1);
        let record = draw_record(&mut seed);
        let found = in_pieces(rt.alloc(), &mut seed, &lists, record, budget)?;
        assert_eq!(rt; found, lists.slow(rt.alloc())?, "problem {turn}");
    }
    Ok(())
}

// Exact prices are a proof, so larger problems need no slow search.
#[test]
fn larger_problems_end_at_exact_prices(rt: HostRuntime) -> Result<(), Fail> {
    let mut seed = 5u64;
    for turn in 0..20 {
        let lists = draw_lists(rt.alloc(), &mut seed, 100)?;
        let alloc = rt.alloc();
        let mut prices = vec![in alloc; 0i64; lists.objects]?;
        let mut objects = nobody(alloc, lists.persons)?;
        let mut record = Record::cold();
        if turn % 3 == 0 {
            record.stage = Stage::Core;
        }
        let (prices, objects) = (prices.as_mut_slice(), objects.as_mut_slice());
        let found = lists.call(alloc, prices, objects, &mut record, 0)?;
        assert!(rt; matches!(found, Finding::Best(_)), "problem {turn}");
    }
    Ok(())
}

fn rectangle_of(
    alloc: Global,
    persons: usize,
    objects: usize,
    kind: Kind,
) -> Result<Lists, AllocError> {
    let costs = costs_of(alloc, &mut 7u64, kind, 2, persons, objects)?;
    Ok(Lists {
        sense: Sense::Min,
        persons,
        objects,
        costs,
    })
}

// A problem of persons and as many objects.
fn square_of(alloc: Global, persons: usize, kind: Kind) -> Result<Lists, AllocError> {
    rectangle_of(alloc, persons, persons, kind)
}

// The arc scans of a search from nothing by calls of a budget each (0: one call).
fn arc_scans_of(alloc: Global, lists: &Lists, budget: u64) -> Result<u64, AllocError> {
    let mut prices = vec![in alloc; 0i64; lists.objects]?;
    let mut objects = nobody(alloc, lists.persons)?;
    let mut record = Record::cold();
    let (prices, objects) = (prices.as_mut_slice(), objects.as_mut_slice());
    let found = call_on(alloc, lists, prices, objects, &mut record, budget)?;
    Ok(match found {
        Finding::Best(_) => record.arc_scans,
        _ => u64::MAX,
    })
}

// Bids alone would be a war in which each person takes the next one's object.
#[test]
fn a_band_among_dear_pairs_takes_few_passes(rt: HostRuntime) -> Result<(), Fail> {
    let lists = square_of(rt.alloc(), 120, Kind::Neighbours)?;
    let pairs = lists.costs.len() as u64;
    let arc_scans = arc_scans_of(rt.alloc(), &lists, 0)?;
    assert!(rt;
        arc_scans <= pairs.saturating_mul(6),
        "{arc_scans} arc_scans at {pairs} pairs"
    );
    Ok(())
}

// The passes over all pairs of a search from nothing.
fn passes_of(alloc: Global, lists: &Lists) -> Result<u64, AllocError> {
    Ok(arc_scans_of(alloc, lists, 0)? / (lists.costs.len() as u64).max(1))
}

// A few persons have the least costs of all objects.
#[test]
fn rows_of_noise_take_few_passes(rt: HostRuntime) -> Result<(), Fail> {
    let passes = passes_of(rt.alloc(), &square_of(rt.alloc(), 200, Kind::Rows)?)?;
    assert!(rt; passes <= 10, "{passes} passes");
    Ok(())
}

// All persons want the objects that cost them the same.
#[test]
fn a_padded_square_takes_few_passes(rt: HostRuntime) -> Result<(), Fail> {
    let passes = passes_of(rt.alloc(), &square_of(rt.alloc(), 160, Kind::Padded)?)?;
    assert!(rt; passes <= 9, "{passes} passes");
    Ok(())
}

// With more objects than persons too an auction comes before searches that take too long.
#[test]
fn a_rectangle_of_products_takes_few_passes(rt: HostRuntime) -> Result<(), Fail> {
    let lists = rectangle_of(rt.alloc(), 300, 310, Kind::Products)?;
    let passes = passes_of(rt.alloc(), &lists)?;
    assert!(rt; passes <= 125, "{passes} passes");
    Ok(())
}

// Searches that are too long are left for an auction in pieces too.
#[test]
fn pieces_look_at_few_more_pairs(rt: HostRuntime) -> Result<(), Fail> {
    let lists = square_of(rt.alloc(), 120, Kind::Products)?;
    let budget = (lists.costs.len() as u64).saturating_mul(3);
    let whole = arc_scans_of(rt.alloc(), &lists, 0)?;
    let pieces = arc_scans_of(rt.alloc(), &lists, budget)?;
    assert!(rt;
        pieces <= whole.saturating_mul(2),
        "{pieces} arc_scans, in one call {whole}"
    );
    Ok(())
}

// Pieces of so many passes copy the costs where they fit 32 bits.
#[test]
fn copies_are_stopped_and_taken_up_again(rt: HostRuntime) -> Result<(), Fail> {
    let mut seed = 6u64;
    for turn in 0..20 {
        let lists = draw_lists(rt.alloc(), &mut seed, 100)?;
        let record = if turn % 2 == 0 {
            Record::cold()
        } else {
            draw_record(&mut seed)
        };
        let budget = (lists.costs.len() as u64).saturating_mul(3);
        let found = in_pieces(rt.alloc(), &mut seed, &lists, record, budget)?;
        assert!(rt; matches!(found, Finding::Best(_)), "problem {turn}");
    }
    Ok(())
}

// Costs too wide for a copy without loss are searched in greater units first, also in pieces.
#[test]
fn wide_costs_end_at_exact_prices(rt: HostRuntime) -> Result<(), Fail> {
    let lists = square_of(rt.alloc(), 140, Kind::WideProducts)?;
    let budget = (lists.costs.len() as u64).saturating_mul(3);
    let whole = arc_scans_of(rt.alloc(), &lists, 0)?;
    let pieces = arc_scans_of(rt.alloc(), &lists, budget)?;
    assert!(rt; whole < u64::MAX && pieces < u64::MAX);
    Ok(())
}
