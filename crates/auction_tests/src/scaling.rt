// Worked values of small and of wide problems.
ghost use Rattle.std.specs.Prelude.{pos, ◌≤ℤ◌};
ghost use Rattle.assign_core.specs.Prices.{IsPrice};
ghost use Rattle.scaled_values.specs.Scaled.{IsEps};

use assign_core::{Cost, GREATEST_COST, MOST_PERSONS, Object, Person, Price, Problem, Sense};
use scaled_values::{Row, Scaled, next_eps, scale, scale_in_parts};
use std::alloc::{AllocError, Global};
use std::test::Fail;
use std::thread::Threads;

// A wide problem with two listed pairs, with this cost and its negation.
fn two_pairs(alloc: Global, cost: Cost) -> Result<Scaled, AllocError>
    requires least { pos 0 ≤ℤ cost }
    requires greatest { cost ≤ℤ GREATEST_COST }
{
    let triples = [(Person(1), Object(1), -cost), (Person(2), Object(2), cost)];
    let problem = Problem::sparse(alloc, MOST_PERSONS, &triples)?;
    scale(alloc, problem, Sense::Min)
}

// The slacknesses of all phases.
fn eps_list(alloc: Global, scaled: &Scaled) -> Result<Vec<i64>, AllocError> {
    let mut all = Vec::new(alloc);
    let mut next = Some(scaled.first_eps());
    for _ in 0..30 {
        if let Some(eps) = next {
            all.push(eps)?;
            next = next_eps(eps);
        }
    }
    Ok(all)
}

// The floor and the top of a phase.
fn bounds(scaled: &Scaled, p0: Price, eps: i64) -> (Price, Price)
    requires price { IsPrice p0 }
    requires eps { IsEps scaled.now eps }
{
    (scaled.floor(p0, eps), scaled.top(p0, eps))
}

// The floor and the top of the phase after one.
fn next_bounds(scaled: &Scaled, p0: Price, eps: i64) -> Option<(Price, Price)>
    requires price { IsPrice p0 }
    requires eps { IsEps scaled.now eps }
{
    let next = next_eps(eps)?;
    Some(bounds(scaled, p0, next))
}

// Whether a wide problem with these costs has this spread, and these slacknesses.
fn is_wide(alloc: Global, cost: Cost, spread: i64, known: &[i64]) -> Result<bool, AllocError>
    requires least { pos 0 ≤ℤ cost }
    requires greatest { cost ≤ℤ GREATEST_COST }
{
    let scaled = two_pairs(alloc, cost)?;
    Ok(scaled.spread() == spread && eps_list(alloc, &scaled)?.as_slice() == known)
}

// The slacknesses of a wide problem whose costs are at most a million, and of the widest.
const WIDE: [i64; 15] = [
    3_277_200_000,
    655_440_000,
    131_088_000,
    26_217_600,
    5_243_520,
    1_048_704,
    209_740,
    41_948,
    8_389,
    1_677,
    335,
    67,
    13,
    2,
    1,
];

const WIDEST: [i64; 23] = [
    3_277_200_000_000_000,
    655_440_000_000_000,
    131_088_000_000_000,
    26_217_600_000_000,
    5_243_520_000_000,
    1_048_704_000_000,
    209_740_800_000,
    41_948_160_000,
    8_389_632_000,
    1_677_926_400,
    335_585_280,
    67_117_056,
    13_423_411,
    2_684_682,
    536_936,
    107_387,
    21_477,
    4_295,
    859,
    171,
    34,
    6,
    1,
];

#[test]
fn wide_problems(rt: HostRuntime) -> Result<(), Fail> {
    assert!(rt; is_wide(rt.alloc(), 1_000_000, 16_386_000_000, &WIDE)?);
    assert!(rt; is_wide(rt.alloc(), GREATEST_COST, 16_386_000_000_000_000, &WIDEST)?);
    Ok(())
}

// The least and the greatest benefit, the spread, and the slacknesses of the first two phases.
fn range_told(scaled: &Scaled) -> ([i64; 4], Option<i64>) {
    let eps = scaled.first_eps();
    let range = [
        scaled.least_benefit(),
        scaled.greatest_benefit(),
        scaled.spread(),
        eps,
    ];
    (range, next_eps(eps))
}

// A person's row, as a line.
fn row_told(alloc: Global, scaled: &Scaled, i: u16) -> Result<String, AllocError> {
    if i == 0 || i > scaled.n() {
        return format!(in alloc; "no person");
    }
    match scaled.row(Person(i)) {
        Row::Full(benefits) => format!(in alloc; "all objects {benefits:?}"),
        Row::Pairs(pairs) => format!(in alloc; "pairs {pairs:?}"),
    }
}

// The floor and the top of a first phase that starts with this greatest price.
fn first_bounds(scaled: &Scaled, p0: Price) -> (Price, Price)
    requires { IsPrice p0 }
{
    bounds(scaled, p0, scaled.first_eps())
}

// The floor and the top of a second phase.
fn second_bounds(scaled: &Scaled, p0: Price) -> Option<(Price, Price)>
    requires { IsPrice p0 }
{
    next_bounds(scaled, p0, scaled.first_eps())
}

// The problem of two persons under `Min`.
fn dense_pair(alloc: Global) -> Result<Scaled, AllocError> {
    let problem = Problem::dense(alloc, 2, &[1, 2, 3, 5])?;
    scale(alloc, problem, Sense::Min)
}

#[test]
fn two_persons(rt: HostRuntime) -> Result<(), Fail> {
    let scaled = dense_pair(rt.alloc())?;
    let told = (scaled.problem().n(), scaled.n(), scaled.sense());
    assert!(rt; told == (2, 2, Sense::Min));
    assert_eq!(rt; range_told(&scaled), ([-15, -3, 12, 2], Some(1)));
    // from prices of 0, and a run that begins at the prices 14 and 12
    let first = [first_bounds(&scaled, 0), first_bounds(&scaled, 14)];
    let second = [second_bounds(&scaled, 8), second_bounds(&scaled, 20)];
    assert_eq!(rt; first, [(-29, 28), (-43, 42)]);
    assert_eq!(rt; second, [Some((-36, 34)), Some((-48, 46))]);
    Ok(())
}

// Persons 1 and 2 list object 1, and person 3 the others.
fn few_pairs(alloc: Global, sense: Sense) -> Result<Scaled, AllocError> {
    let triples = [
        (Person(1), Object(1), 4),
        (Person(2), Object(1), 6),
        (Person(3), Object(2), 1),
        (Person(3), Object(3), 2),
    ];
    let problem = Problem::sparse(alloc, 3, &triples)?;
    scale(alloc, problem, sense)
}

// Whether the rows of a problem are these lines.
fn are_rows(alloc: Global, scaled: &Scaled, lines: &[&str]) -> Result<bool, AllocError> {
    let mut person = 0u16;
    for line in lines {
        person = person.wrapping_add(1);
        if row_told(alloc, scaled, person)?.as_str() != *line {
            return Ok(false);
        }
    }
    Ok(true)
}

// Whether the rows of the problem with few pairs are these lines.
fn are_few(alloc: Global, sense: Sense, lines: &[&str]) -> Result<bool, AllocError> {
    are_rows(alloc, &few_pairs(alloc, sense)?, lines)
}

#[test]
fn rows_as_lines(rt: HostRuntime) -> Result<(), Fail> {
    let dense = dense_pair(rt.alloc())?;
    let lines = ["all objects [-3, -6]", "all objects [-9, -15]"];
    assert!(rt; are_rows(rt.alloc(), &dense, &lines)?);
    let least = [
        "pairs [(Object(1), -16)]",
        "pairs [(Object(1), -24)]",
        "pairs [(Object(2), -4), (Object(3), -8)]",
    ];
    assert!(rt; are_few(rt.alloc(), Sense::Min, &least)?);
    let greatest = [
        "pairs [(Object(1), 16)]",
        "pairs [(Object(1), 24)]",
        "pairs [(Object(2), 4), (Object(3), 8)]",
    ];
    assert!(rt; are_few(rt.alloc(), Sense::Max, &greatest)?);
    Ok(())
}

#[test]
fn three_persons_with_few_pairs(rt: HostRuntime) -> Result<(), Fail> {
    for (sense, least, greatest, floor) in [(Sense::Min, -24, -4, -72), (Sense::Max, 4, 24, -44)] {
        let scaled = few_pairs(rt.alloc(), sense)?;
        assert_eq!(rt; range_told(&scaled), ([least, greatest, 20, 4], Some(1)));
        assert_eq!(rt; first_bounds(&scaled, 0), (floor, 72));
    }
    Ok(())
}

// One person that lists nothing.
fn lone(alloc: Global) -> Result<Scaled, AllocError> {
    let problem = Problem::sparse(alloc, 1, &[])?;
    scale(alloc, problem, Sense::Min)
}

#[test]
fn nothing_listed(rt: HostRuntime) -> Result<(), Fail> {
    let scaled = lone(rt.alloc())?;
    let row = row_told(rt.alloc(), &scaled, 1)?;
    assert_eq!(rt; row.as_str(), "pairs []");
    assert_eq!(rt; range_told(&scaled), ([0, 0, 0, 1], None));
    assert_eq!(rt; first_bounds(&scaled, 5), (-5, 6));
    Ok(())
}

// Three persons: one who lists an object, one who lists all, and one who lists none.
fn three_persons(alloc: Global) -> Result<Problem, AllocError> {
    let triples = [
        (Person(1), Object(2), 4),
        (Person(2), Object(1), -7),
        (Person(2), Object(2), 6),
        (Person(2), Object(3), 9),
    ];
    Problem::sparse(alloc, 3, &triples)
}

// Whether two problems have the same benefits.
fn have_same_rows(first: &Scaled, second: &Scaled) -> bool {
    let mut same = first.n() == second.n() && first.least_benefit() == second.least_benefit();
    same = same && first.greatest_benefit() == second.greatest_benefit();
    for i in 0..first.n().min(second.n()) {
        same = same && first.row(Person(i + 1)) == second.row(Person(i + 1));
    }
    same
}

// Whether threads, if the persons list so many pairs, make the benefits that one makes.
fn same_in_parts(
    rt: &(impl Threads + Sync),
    least: usize,
    alloc: Global,
    sense: Sense,
) -> Result<bool, AllocError> {
    let alone = scale(alloc, three_persons(alloc)?, sense)?;
    let parts = scale_in_parts(rt, least, alloc, three_persons(alloc)?, sense)?;
    Ok(have_same_rows(&alone, &parts))
}

#[test]
fn rows_in_parts(rt: HostRuntime) -> Result<(), Fail> {
    for least in [0, 4, 5] {
        assert!(rt; same_in_parts(&rt, least, rt.alloc(), Sense::Min)?);
        assert!(rt; same_in_parts(&rt, least, rt.alloc(), Sense::Max)?);
    }
    Ok(())
}
