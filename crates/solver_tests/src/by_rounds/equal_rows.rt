// Drawn problems in which many persons have the same row, compared with a search of all assignments
// and with the plain transcription; and how many offers are made for them.
ghost use Rattle.std.specs.Prelude.{◌<◌};

use super::beside::agrees;
use super::*;
use assign_core::{Person, Prices};
use bidder::{Ask, Offer};
use candidates::CandidateLists;
use scaled_values::Scaled;
use std::test::Fail;

// A row of n costs. About `share` in four of all pairs are listed.
fn drawn_row(
    alloc: Global,
    seed: &mut u64,
    n: u16,
    range: u16,
    share: u16,
) -> Result<Vec<(u16, Cost)>, AllocError>
    requires { 0 < range }
{
    let mut row = Vec::new(alloc);
    for j in 0..n {
        let cost = Cost::from(draw(seed, range)) - 2;
        if draw(seed, 4) < share {
            row.push((j + 1, cost))?;
        }
    }
    Ok(row)
}

// Pairs of n persons, each of which has one of a few rows: dense if the share is four in four.
fn drawn_kinds(alloc: Global, seed: &mut u64, n: u16, share: u16) -> Result<Vec<Pair>, AllocError> {
    let range = if draw(seed, 2) == 0 { 3 } else { 1000 };
    let mut rows = Vec::new(alloc);
    let kinds = draw(seed, 3) + 1;
    for _ in 0..kinds {
        rows.push(drawn_row(alloc, seed, n, range, share)?)?;
    }
    let mut pairs = Vec::new(alloc);
    for i in 0..n {
        let kind = draw(seed, kinds) as usize;
        if let Some(row) = rows.get(kind) {
            for (object, cost) in row.iter() {
                pairs.push((i + 1, *object, *cost))?;
            }
        }
    }
    Ok(pairs)
}

// Whether rounds on one drawn problem agree, by the calling thread and in pieces of drawn lengths.
fn drawn_agrees(
    rt: &(impl Threads + Sync),
    alloc: Global,
    seed: &mut u64,
    most: u16,
    sense: Sense,
) -> Result<bool, AllocError>
    requires { 0 < most }
{
    let n = draw(seed, most).saturating_add(1);
    let share = match sense {
        Sense::Min => 4,
        Sense::Max => draw(seed, 3) + 1,
    };
    let pairs = drawn_kinds(alloc, seed, n, share)?;
    let pairs = pairs.as_slice();
    let alone = agrees(Alone, alloc, n, pairs, sense, n <= 6)?;
    let least = draw(seed, 9) as usize + 1;
    Ok(alone && agrees(InPieces { rt, least }, alloc, n, pairs, sense, n <= 6)?)
}

// The number of problems, of these drawn from a seed, that agree, with up to this many persons.
fn agreeing(
    rt: &(impl Threads + Sync),
    alloc: Global,
    most: u16,
    turns: usize,
    seed: u64,
) -> Result<usize, AllocError>
    requires { 0 < most }
{
    let mut seed = seed;
    let mut count: usize = 0;
    for turn in 0..turns {
        if drawn_agrees(rt, alloc, &mut seed, most, sense_of(turn))? {
            count = count.wrapping_add(1);
        }
    }
    Ok(count)
}

#[test]
fn drawn_problems_of_a_few_kinds(rt: HostRuntime) -> Result<(), Fail> {
    assert_eq!(rt; agreeing(&rt, rt.alloc(), 6, 300, 40)?, 300);
    assert_eq!(rt; agreeing(&rt, rt.alloc(), 24, 60, 41)?, 60);
    Ok(())
}

// Makes the offers that a round requests. Counts the rounds, the persons who waited in all of them,
// the offers made, and the most offers made in one round.
#[derive(Drop)]
struct Counted {
    rounds: u64,
    waited: u64,
    made: usize,
    most: usize,
}

impl Offering for Counted {
    ghost ready = { Unit };

    fn begin(&mut self, _ask: Ask, waiting: usize) {
        self.rounds = self.rounds.wrapping_add(1);
        self.waited = self.waited.wrapping_add(waiting as u64);
    }

    fn make(
        &mut self,
        scaled: &Scaled,
        prices: &Prices,
        ask: Ask,
        persons: &[Person],
        lists: &mut CandidateLists,
        offers: &mut Vec<Offer>,
    ) -> Result<(), AllocError> {
        self.made = self.made.wrapping_add(persons.len());
        self.most = self.most.max(persons.len());
        Alone.make(scaled, prices, ask, persons, lists, offers)
    }
}

// The number of rounds, the number of persons who waited in all of them, the number of offers made,
// and the most of them in one round.
fn counts_of(
    alloc: Global,
    n: u16,
    pairs: &[Pair],
) -> Result<(u64, u64, usize, usize), AllocError> {
    let mut counted = Counted {
        rounds: 0,
        waited: 0,
        made: 0,
        most: 0,
    };
    solved_by(&mut counted, alloc, n, pairs, Sense::Min, &[])?;
    Ok((counted.rounds, counted.waited, counted.made, counted.most))
}

// Persons 1, 3 and 5 list objects 1 to 3, and persons 2 and 4 objects 4 and 5.
const TWO_KINDS: [Pair; 13] = [
    (1, 1, 1),
    (1, 2, 1),
    (1, 3, 1),
    (2, 4, 1),
    (2, 5, 1),
    (3, 1, 1),
    (3, 2, 1),
    (3, 3, 1),
    (4, 4, 1),
    (4, 5, 1),
    (5, 1, 1),
    (5, 2, 1),
    (5, 3, 1),
];

// Person 1 lists object 1, persons 2 and 4 objects 2 and 3, and persons 3 and 5 objects 4 and 5.
const THREE_KINDS: [Pair; 9] = [
    (1, 1, 1),
    (2, 2, 1),
    (2, 3, 1),
    (3, 4, 1),
    (3, 5, 1),
    (4, 2, 1),
    (4, 3, 1),
    (5, 4, 1),
    (5, 5, 1),
];

// All costs are 1, so eps is 1 in the only phase, and each round gives one person of each kind an
// object. Of one kind 4 persons wait, then 3, 2 and 1: an offer each time. Of two kinds 5 persons
// wait, then 3 and then 1: 2, 2 and 1 offers. Of three kinds 5 wait, then 2: 3 and 2 offers.
#[test]
fn each_kind_makes_one_offer_a_round(rt: HostRuntime) -> Result<(), Fail> {
    let one_kind = dense(rt.alloc(), 4, &[1; 16])?;
    assert_eq!(rt;
        counts_of(rt.alloc(), 4, one_kind.as_slice())?,
        (4, 10, 4, 1)
    );
    assert_eq!(rt; counts_of(rt.alloc(), 5, &TWO_KINDS)?, (3, 9, 5, 2));
    assert_eq!(rt; counts_of(rt.alloc(), 5, &THREE_KINDS)?, (2, 7, 5, 3));
    Ok(())
}
