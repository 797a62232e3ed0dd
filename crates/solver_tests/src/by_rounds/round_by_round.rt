// Runs round by round: what each phase asks, its table, and the offers with their answers, all read
// from the book and from what its rounds offered. Each round must be the plain one.
ghost use Rattle.std.specs.Prelude.{◌≡◌, true, IfOk};
ghost use Rattle.rounds.specs.Rounds.{IsAtRest};

use super::beside::alike;
use super::*;
use crate::by_workers::accepted_by;
use auction_book::{Book, begin_next_if_over};
use bidder::{Ask, Offer};
use rounds::{Round, Rounds};
use std::test::Fail;

// What a phase asks and its prices, as a line.
fn phase_line(alloc: Global, ask: Ask, prices: &[Price]) -> Result<String, AllocError> {
    let (phase, eps, floor) = (ask.phase, ask.eps, ask.floor);
    let mut line = format!(in alloc; "phase {phase}, eps {eps}, floor {floor}, prices")?;
    for price in prices {
        write!(line, " {price}")?;
    }
    Ok(line)
}

// An offer with its answer, as a line.
fn offer_line(alloc: Global, offer: Offer, accepted: bool) -> Result<String, AllocError> {
    let answer = if accepted { "accepted" } else { "refused" };
    match offer {
        Offer::Bid(bid) => {
            let (person, object) = (bid.person.0, bid.object.0);
            format!(in alloc; "{person} bids {} for {object}, {answer}", bid.level)
        }
        Offer::Below(below) => format!(in alloc; "{} is below the floor", below.person.0),
    }
}

// The offers of a round with their answers, as lines: an accepted bid is counted for its worker.
fn add_offers(
    alloc: Global,
    offers: &[Offer],
    before: &[u128],
    after: &[u128],
    lines: &mut Vec<String>,
) -> Result<(), AllocError> {
    for (i, offer) in offers.iter().enumerate() {
        let accepted = match (before.get(i), after.get(i)) {
            (Some(before), Some(after)) => before < after,
            _ => false,
        };
        lines.push(offer_line(alloc, *offer, accepted)?)?;
    }
    Ok(())
}

// A round as lines: what its phase asks, its table, and its offers. Returns whether the run goes on.
fn show_round(
    alloc: Global,
    rounds: &mut Rounds,
    book: &mut Book,
    lines: &mut Vec<String>,
) -> Result<bool, AllocError>
    requires rest { IsAtRest book.old }
    requires problem { book.old.base ≡ rounds.old.base }
    ensures rest { IfOk result (λ more. more ≡ true → IsAtRest book.new) }
    ensures problem { IfOk result (λ more. book.new.base ≡ rounds.new.base) }
{
    begin_next_if_over(alloc, book)?;
    lines.push(phase_line(alloc, book.ask(), book.prices().as_slice())?)?;
    let before = accepted_by(alloc, book)?;
    let came = rounds.run_round(&mut Alone, book)?;
    let after = accepted_by(alloc, book)?;
    add_offers(
        alloc,
        rounds.offers(),
        before.as_slice(),
        after.as_slice(),
        lines,
    )?;
    match came {
        Round::More => Ok(true),
        _ => Ok(false),
    }
}

// The rounds of a run, at most a hundred, as lines.
fn shown(
    alloc: Global,
    n: u16,
    pairs: &[Pair],
    first: &[Price],
) -> Result<Vec<String>, AllocError> {
    let n = size(n);
    let scaled = scaled_of(alloc, n, pairs, Sense::Min)?;
    let prices = first_prices(alloc, n, first)?;
    let mut rounds = Rounds::new(alloc, scaled.clone()?)?;
    let mut book = Book::open_from(alloc, scaled, prices, n)?;
    let mut lines = Vec::new(alloc);
    for _ in 0..100 {
        if !show_round(alloc, &mut rounds, &mut book, &mut lines)? {
            break;
        }
    }
    Ok(lines)
}

// The place of the first line that differs, and whether each round of the run is the plain one.
fn shown_otherwise(
    alloc: Global,
    n: u16,
    pairs: &[Pair],
    first: &[Price],
    lines: &[&str],
) -> Result<(Option<usize>, bool), AllocError> {
    let shown = shown(alloc, n, pairs, first)?;
    let same = shown
        .iter()
        .zip(lines.iter())
        .take_while(|(shown, line)| shown.as_str() == **line)
        .count();
    let whole = same == shown.len() && same == lines.len();
    Ok(((!whole).then_some(same), is_run(alloc, n, pairs, first)?))
}

// Whether the rounds of a run are those of the plain transcription.
fn is_run(alloc: Global, n: u16, pairs: &[Pair], first: &[Price]) -> Result<bool, AllocError> {
    Ok(alike(Alone, alloc, n, pairs, Sense::Min, first)?.is_some())
}

// Three persons who list all objects at cost 2.
const EQUAL: [Pair; 9] = [
    (1, 1, 2),
    (1, 2, 2),
    (1, 3, 2),
    (2, 1, 2),
    (2, 2, 2),
    (2, 3, 2),
    (3, 1, 2),
    (3, 2, 2),
    (3, 3, 2),
];

const FROM_ZEROS: [&str; 11] = [
    "phase 1, eps 2, floor -29, prices 0 0",
    "1 bids 5 for 1, accepted",
    "2 bids 8 for 1, accepted",
    "phase 1, eps 2, floor -29, prices 8 0",
    "1 bids 7 for 2, accepted",
    "phase 2, eps 1, floor -36, prices 8 7",
    "1 bids 11 for 1, accepted",
    "2 bids 14 for 1, accepted",
    "phase 2, eps 1, floor -36, prices 14 7",
    "1 bids 12 for 2, accepted",
    "phase 2, eps 1, floor -36, prices 14 12",
];

const FROM_FIRST_PRICES: [&str; 11] = [
    "phase 1, eps 2, floor -43, prices 14 12",
    "1 bids 17 for 1, accepted",
    "2 bids 20 for 1, accepted",
    "phase 1, eps 2, floor -43, prices 20 12",
    "1 bids 19 for 2, accepted",
    "phase 2, eps 1, floor -48, prices 20 19",
    "1 bids 23 for 1, accepted",
    "2 bids 26 for 1, accepted",
    "phase 2, eps 1, floor -48, prices 26 19",
    "1 bids 24 for 2, accepted",
    "phase 2, eps 1, floor -48, prices 26 24",
];

const ALIKE: [&str; 10] = [
    "phase 1, eps 1, floor -10, prices 0 0 0",
    "1 bids 1 for 1, accepted",
    "2 bids 1 for 1, refused",
    "3 bids 1 for 1, refused",
    "phase 1, eps 1, floor -10, prices 1 0 0",
    "2 bids 1 for 2, accepted",
    "3 bids 1 for 2, refused",
    "phase 1, eps 1, floor -10, prices 1 1 0",
    "3 bids 2 for 3, accepted",
    "phase 1, eps 1, floor -10, prices 1 1 2",
];

const BELOW_THE_FLOOR: [&str; 6] = [
    "phase 1, eps 4, floor -72, prices 0 0 0",
    "1 bids 60 for 1, accepted",
    "2 bids 52 for 1, refused",
    "3 bids 8 for 2, accepted",
    "phase 1, eps 4, floor -72, prices 60 8 0",
    "2 is below the floor",
];

// The number of persons, all pairs, the first prices if they aren't 0, and the lines of the run.
type Run<'a> = (u16, &'a [Pair], &'a [Price], &'a [&'a str]);

#[test]
fn worked_rounds(rt: HostRuntime) -> Result<(), Fail> {
    let table: [Run; 4] = [
        (2, &TWO_PERSONS, &[], &FROM_ZEROS),
        (2, &TWO_PERSONS, &[14, 12], &FROM_FIRST_PRICES),
        (3, &EQUAL, &[], &ALIKE),
        (3, &CONTESTED, &[], &BELOW_THE_FLOOR),
    ];
    for (at, (n, pairs, first, lines)) in table.into_iter().enumerate() {
        let seen = shown_otherwise(rt.alloc(), n, pairs, first, lines)?;
        assert_eq!(rt; seen, (None, true), "at {at}");
    }
    Ok(())
}

// A phase of one round, in which two persons get different objects at equal prices.
fn phase_lines(
    alloc: Global,
    ask: Ask,
    price: Price,
    level: Price,
    lines: &mut Vec<String>,
) -> Result<(), AllocError> {
    lines.push(phase_line(alloc, ask, &[price, price])?)?;
    lines.push(format!(in alloc; "1 bids {level} for 2, accepted")?)?;
    lines.push(format!(in alloc; "2 bids {level} for 1, accepted")?)?;
    Ok(())
}

// Two persons who prefer different objects: in each phase one round, in which both prices rise by
// the spread and eps.
fn ten_phases(alloc: Global) -> Result<Vec<String>, AllocError> {
    let mut lines = Vec::new(alloc);
    for (phase, eps, floor, price, level) in [
        (1, 1200000, -10200000, 0, 7200000),
        (2, 240000, -16440000, 7200000, 13440000),
        (3, 48000, -22488000, 13440000, 19488000),
        (4, 9600, -28497600, 19488000, 25497600),
        (5, 1920, -34499520, 25497600, 31499520),
        (6, 384, -40499904, 31499520, 37499904),
        (7, 76, -46499980, 37499904, 43499980),
        (8, 15, -52499995, 43499980, 49499995),
        (9, 3, -58499998, 49499995, 55499998),
        (10, 1, -64499999, 55499998, 61499999),
    ] {
        let ask = Ask { phase, eps, floor };
        phase_lines(alloc, ask, price, level, &mut lines)?;
    }
    let end = format!(in alloc; "phase 10, eps 1, floor -64499999, prices 61499999 61499999")?;
    lines.push(end)?;
    Ok(lines)
}

// Whether the rounds on these two persons are these lines, and whether each round of the run is the
// plain one.
fn are_ten_phases(alloc: Global) -> Result<(bool, bool), AllocError> {
    let pairs = dense(alloc, 2, &[1_000_000, -1_000_000, -1_000_000, 1_000_000])?;
    let same = shown(alloc, 2, pairs.as_slice(), &[])? == ten_phases(alloc)?;
    Ok((same, is_run(alloc, 2, pairs.as_slice(), &[])?))
}

#[test]
fn ten_phases_round_by_round(rt: HostRuntime) -> Result<(), Fail> {
    assert_eq!(rt; are_ten_phases(rt.alloc())?, (true, true));
    Ok(())
}
