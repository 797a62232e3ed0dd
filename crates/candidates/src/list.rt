// Lists of candidates.
ghost use Rattle.std.specs.Vec.{vec_capacity};
ghost use Rattle.std.specs.Prelude.{slice_index_or, ◌+◌, ◌≡◌, ℕ, ℤ, ◌+ℤ◌, ◌-ℤ◌, ◌<◌, ◌≤◌, ◌≤ℤ◌, ◌<ℤ◌, ◌⊎◌, List, [], ◌∷◌, ◌++◌, length, take, All, IfOk, IsTrue, MatchOption, vec_len};
ghost use Rattle.assign_core.specs.Numbered.{IsNumber};
ghost use Rattle.assign_core.specs.Rows.{Listing, IsRising, IsWithin};
ghost use Rattle.assign_core.specs.declared.numbers.TheConstants.{MOST_PERSONS};
ghost use Rattle.bidder.specs.declared.skipping.TheConstants.{LANES};
ghost use Rattle.assign_core.specs.Dense.{row_from};
ghost use Rattle.assign_core.specs.Benefits.{IsBenefit};
ghost use Rattle.assign_core.specs.Prices.{IsNarrow, price_of};
ghost use Rattle.scaled_values.specs.Scaled.{IsBenefitRow};
ghost use Rattle.bidder.specs.BestTwo.{IsBestTwo, best_two};
ghost use Rattle.candidates.specs.declared.mark.Mark.{Mark};
ghost use Rattle.candidates.specs.Marks.{IsUpTo};
ghost use Rattle.candidates.specs.Candidates.{AreCandidates, FitAnyRow, IsBeyond};
ghost use Rattle.candidates.specs.inside.Reading.{IsLimitAfter, IsReading};

use super::limits::MOST_CANDIDATES;
use super::mark::Mark;
use assign_core::{Benefit, Numbered, Object, Prices};
use bidder::{BestTwo, LANES, best_two, best_two_full, none_above};
use std::alloc::{AllocError, Global};
use std::marker::Model;

/// A value that no benefit is above.
const TOP_VALUE: i64 = i64::MAX;

/// A list that gave at most so many answers isn't made again at once.
const FEW_ANSWERS: u8 = 2;

/// The longest pause of a list that answers nothing.
const LONGEST_PAUSE: u8 = 127;

/// A reading starts from the old list if it has at least so many candidates.
const ENOUGH_TO_START: usize = 12;

/// A first reading starts from a part of the row: one in so many.
const PART: usize = 8;

/// Some objects of a row with their benefits, and a bound on the row's other objects.
#[derive(Drop)]
pub struct Candidates {
    objects: Vec<(Object, Benefit)>,
    bound: Option<Mark>,
    // The number of answers since the list was made, up to 255.
    answers: u8,
    // The number of bids to wait before it is made again.
    waiting: u8,
    // What this number began with last.
    pause: u8,
}

impl Model for Candidates {
    ghost use Rattle.std.specs.Prelude.{◌<◌, ◌≤◌};
    ghost use Rattle.std.specs.Vec.{vec_len, vec_capacity};
    ghost use Rattle.candidates.specs.declared.limits.TheConstants.{MOST_CANDIDATES};
    ghost use Rattle.candidates.specs.Candidates.{CandidateList};

    ghost Value = { CandidateList };

    ghost view = { λ c. record { objects = c.objects.items; bound = c.bound } };

    ghost invariant = { λ c. (vec_len c.objects ≤ MOST_CANDIDATES) × (MOST_CANDIDATES < vec_capacity c.objects) };
}

// A candidate's value at its narrow price.
fn value_at(objects: &[(Object, Benefit)], place: usize, narrow: &[i64]) -> i64
    requires place { place < length objects.now }
    requires within { IsWithin (length narrow.now) objects.now }
    requires benefits { All (λ e. IsBenefit e.1) objects.now }
    requires narrow { All IsNarrow narrow.now }
    ensures { (d : ℕ × ℤ) → let e = slice_index_or objects.now place d in
        result +ℤ price_of narrow.now e.0 ≡ e.1 }
{
    let (object, benefit) = objects[place];
    benefit - narrow[object.place()]
}

// Whether a best two comes before a mark.
fn is_before(best: i128, object: Object, second: i128, mark: &Mark) -> bool
    ensures yes { IsTrue result → (mark.now.value ≤ℤ second)
        × ((mark.now.value <ℤ best) ⊎ (object ≤ mark.now.object)) }
{
    let value = i128::from(mark.value);
    value <= second && (value < best || object.number() <= mark.object.number())
}

// Whether a best two of the candidates comes before the bound.
fn is_beyond(bound: &Option<Mark>, best: &BestTwo) -> bool
    ensures { IsTrue result → IsBeyond bound.now best.now }
{
    match bound {
        None => true,
        Some(mark) => match best.second {
            None => false,
            Some(second) => is_before(best.best, best.object, second, mark),
        },
    }
}

// The place of a candidate in the order of values.
fn mark_at(objects: &[(Object, Benefit)], place: usize, narrow: &[i64]) -> Mark
    requires place { place < length objects.now }
    requires within { IsWithin (length narrow.now) objects.now }
    requires benefits { All (λ e. IsBenefit e.1) objects.now }
    requires narrow { All IsNarrow narrow.now }
    ensures { (d : ℕ × ℤ) → IsUpTo narrow.now result (slice_index_or objects.now place d) }
{
    Mark {
        value: value_at(objects, place, narrow),
        object: objects[place].0,
    }
}

// The place of the last of the values of `MOST_CANDIDATES` candidates and one more.
fn last_of(values: &[i64; MOST_CANDIDATES + 1]) -> usize
    ensures { result ≤ MOST_CANDIDATES }
{
    let mut last = 0;
    let mut least = values[0];
    for i in 1..MOST_CANDIDATES + 1 {
        if values[i] <= least {
            last = i;
            least = values[i];
        }
    }
    last
}

// Takes out the value at a place; those after it move up.
fn drop_value(values: &mut [i64; MOST_CANDIDATES + 1], place: usize) {
    for i in place..MOST_CANDIDATES {
        values[i] = values[i + 1];
    }
}

// Takes out the candidate at a place, and gives a bound without it.
fn drop_at(
    objects: &mut Vec<(Object, Benefit)>,
    place: usize,
    bound: Option<Mark>,
    narrow: &[i64],
) -> Mark
    requires place { place < vec_len objects.old }
    requires within { IsWithin (length narrow.now) objects.old.items }
    requires benefits { All (λ e. IsBenefit e.1) objects.old.items }
    requires narrow { All IsNarrow narrow.now }
    ensures len { vec_len objects.new + 1 ≡ vec_len objects.old }
    ensures capacity { vec_capacity objects.new ≡ vec_capacity objects.old }
    ensures candidates { (row : Listing) → IsRising row
        → AreCandidates row narrow.now (record { objects = objects.old.items; bound = bound })
        → AreCandidates row narrow.now (record { objects = objects.new.items; bound = Some result }) }
{
    let mark = mark_at(objects.as_slice(), place, narrow);
    objects.remove(place);
    mark.or_first(bound)
}

// An object's value at its narrow price.
fn value_of(benefit: Benefit, narrow: i64) -> i64
    requires benefit { IsBenefit benefit }
    requires narrow { IsNarrow narrow }
{
    benefit - narrow
}

// Takes in a value if it is among the greatest three so far, which fall.
fn keep_greatest(greatest: &mut [i64; 3], value: i64) {
    let mut value = value;
    for i in 0..3 {
        if value > greatest[i] {
            let lower = greatest[i];
            greatest[i] = value;
            value = lower;
        }
    }
}

// The third least value of some candidates. `!` turns the order of values round.
fn third_least(objects: &[(Object, Benefit)], narrow: &[i64]) -> i64
    requires within { IsWithin (length narrow.now) objects.now }
    requires benefits { All (λ e. IsBenefit e.1) objects.now }
    requires narrow { All IsNarrow narrow.now }
{
    let mut greatest = [i64::MIN; 3];
    for i in 0..objects.len() {
        keep_greatest(&mut greatest, !value_at(objects, i, narrow));
    }
    !greatest[2]
}

// The third greatest value of the first objects of a row.
fn third_in_part(row: &[(Object, Benefit)], narrow: &[i64]) -> i64
    requires within { IsWithin (length narrow.now) row.now }
    requires benefits { All (λ e. IsBenefit e.1) row.now }
    requires narrow { All IsNarrow narrow.now }
{
    let mut greatest = [i64::MIN; 3];
    for i in 0..row.len() / PART {
        keep_greatest(&mut greatest, value_at(row, i, narrow));
    }
    greatest[2]
}

// The third greatest value of the first objects of a full row.
fn third_in_full_part(benefits: &[Benefit], narrow: &[i64]) -> i64
    requires long { length benefits.now ≡ length narrow.now }
    requires benefits { All IsBenefit benefits.now }
    requires narrow { All IsNarrow narrow.now }
{
    let mut greatest = [i64::MIN; 3];
    for i in 0..benefits.len() / PART {
        keep_greatest(&mut greatest, value_of(benefits[i], narrow[i]));
    }
    greatest[2]
}

// Whether an object's value isn't above the limit.
fn is_within(limit: i64, benefit: Benefit, narrow: i64) -> bool
    requires benefit { IsBenefit benefit }
    requires narrow { IsNarrow narrow }
    ensures { IsTrue result → (benefit -ℤ narrow) ≤ℤ limit }
{
    benefit - narrow <= limit
}

// A limit for the values of objects above this one.
fn limit_of(bound: &Option<Mark>, object: Object) -> i64
    ensures { IsLimitAfter bound.now object result }
{
    match bound {
        None => i64::MIN,
        Some(mark) => {
            if mark.object.number() <= object.number() {
                mark.value
            } else {
                i64::MIN
            }
        }
    }
}

// What a reading of a row keeps: an object whose value isn't above the limit is passed over. No
// proof needs the values of the candidates; they spare reads of prices.
#[derive(Drop)]
struct Reading {
    limit: i64,
    values: [i64; MOST_CANDIDATES + 1],
}

impl Candidates {
    /// Room for candidates: no object yet, and a bound that no object comes before.
    ///
    /// # Errors
    /// `AllocError` if memory is refused.
    pub fn new(alloc: Global) -> Result<Candidates, AllocError>
        ensures { IfOk result FitAnyRow }
    {
        Ok(Candidates {
            objects: Vec::with_capacity(alloc, MOST_CANDIDATES + 1)?,
            bound: Some(Mark {
                value: TOP_VALUE,
                object: Object(0),
            }),
            answers: 1,
            waiting: 0,
            pause: 0,
        })
    }

    /// The best object of the row and the second value, if the candidates show them.
    pub fn best_two_listed(&self, prices: &Prices) -> Option<BestTwo>
        requires { IsBenefitRow (length prices.now) self.now.objects }
        ensures best { (row : Listing) → IsRising row → AreCandidates row prices.now self.now
            → MatchOption result (Unit {0}) (λ b. IsBestTwo row prices.now b) }
    {
        let Some(best) = best_two(self.objects.as_slice(), prices) else {
            return None;
        };
        if is_beyond(&self.bound, &best) {
            return Some(best);
        }
        None
    }

    /// Whether it waits to be made again. It then answers nothing: its values have only fallen.
    pub fn is_waiting(&self) -> bool {
        self.waiting > 0
    }

    /// Whether it waits for more than one bid. It then waits for one less.
    pub fn rests(&mut self) -> bool
        ensures { self.new ≡ self.old }
    {
        if self.waiting < 2 {
            return false;
        }
        self.waiting -= 1;
        true
    }

    /// Counts an answer.
    pub fn count_answer(&mut self)
        ensures { self.new ≡ self.old }
    {
        self.answers = self.answers.saturating_add(1);
    }

    /// Whether to make a list again that doesn't answer. One that gave `FEW_ANSWERS` or fewer waits
    /// twice as many bids and one more than before, up to `LONGEST_PAUSE`.
    pub fn is_due(&mut self) -> bool
        ensures { self.new ≡ self.old }
    {
        if self.waiting > 0 {
            self.waiting -= 1;
            return self.waiting == 0;
        }
        self.pause = if self.answers > FEW_ANSWERS {
            0
        } else {
            self.pause.min(LONGEST_PAUSE / 2) * 2 + 1
        };
        self.waiting = self.pause;
        self.waiting == 0
    }

    // Takes in one more object of the row, whose number is above those before it.
    fn take_in(&mut self, object: Object, benefit: Benefit, narrow: &[i64], reading: &mut Reading)
        requires object { IsNumber (length narrow.now) object }
        requires benefit { IsBenefit benefit }
        requires narrow { All IsNarrow narrow.now }
        requires row { IsBenefitRow (length narrow.now) self.old.objects }
        ensures { (row : Listing) → IsRising (row ++ (object, benefit) ∷ []) → All (λ e. e.0 < object) row
            → IsReading row narrow.now self.old reading.old.limit
            → IsReading (row ++ (object, benefit) ∷ []) narrow.now self.new reading.new.limit }
    {
        let count = self.objects.len();
        reading.values[count] = benefit - narrow[object.place()];
        self.objects.push_reserved((object, benefit));
        if count < MOST_CANDIDATES {
            return;
        }
        let place = last_of(&reading.values);
        drop_value(&mut reading.values, place);
        self.bound = Some(drop_at(&mut self.objects, place, self.bound, narrow));
        reading.limit = limit_of(&self.bound, object);
    }

    // Reads one more object of the row, whose number is above those before it.
    fn read(&mut self, object: Object, benefit: Benefit, narrow: &[i64], reading: &mut Reading)
        requires object { IsNumber (length narrow.now) object }
        requires benefit { IsBenefit benefit }
        requires narrow { All IsNarrow narrow.now }
        requires row { IsBenefitRow (length narrow.now) self.old.objects }
        ensures { (row : Listing) → IsRising (row ++ (object, benefit) ∷ []) → All (λ e. e.0 < object) row
            → IsReading row narrow.now self.old reading.old.limit
            → IsReading (row ++ (object, benefit) ∷ []) narrow.now self.new reading.new.limit }
    {
        if is_within(reading.limit, benefit, narrow[object.place()]) {
            return;
        }
        self.take_in(object, benefit, narrow, reading);
    }

    // A value that a new list may start above, if the old one is long enough: most of its objects are
    // still among the best. No proof needs it.
    fn start(&self, narrow: &[i64]) -> Option<i64>
        requires row { IsBenefitRow (length narrow.now) self.now.objects }
        requires narrow { All IsNarrow narrow.now }
    {
        if self.objects.len() < ENOUGH_TO_START {
            return None;
        }
        Some(third_least(self.objects.as_slice(), narrow))
    }

    // Starts over, with no object read. Values below this one are passed over.
    fn restart(&mut self, start: i64) -> Reading
        ensures { (narrow : List ℤ) → IsReading [] narrow self.new result.limit }
    {
        self.bound = Some(Mark {
            value: start.saturating_sub(1),
            object: Object(0),
        });
        self.objects.clear();
        self.answers = 0;
        Reading {
            limit: limit_of(&self.bound, Object(0)),
            values: [0; MOST_CANDIDATES + 1],
        }
    }

    // Makes the candidates those of a row at narrow prices.
    fn read_row(&mut self, row: &[(Object, Benefit)], narrow: &[i64])
        requires row { IsBenefitRow (length narrow.now) row.now }
        requires list { IsBenefitRow (length narrow.now) self.old.objects }
        requires narrow { All IsNarrow narrow.now }
        ensures { AreCandidates row.now narrow.now self.new }
    {
        let start = match self.start(narrow) {
            Some(value) => value,
            None => third_in_part(row, narrow),
        };
        let mut reading = self.restart(start);
        for i in 0..row.len() {
            let (object, benefit) = row[i];
            self.read(object, benefit, narrow, &mut reading);
        }
    }

    /// Makes the candidates those of a row at these prices, and finds its best object and the
    /// second value; `None` for an empty row. It takes no memory, and reads the row in 64 bits: no
    /// narrow price is above its own, so candidates at narrow prices are candidates.
    pub fn refill(&mut self, row: &[(Object, Benefit)], prices: &Prices) -> Option<BestTwo>
        requires row { IsBenefitRow (length prices.now) row.now }
        requires list { IsBenefitRow (length prices.now) self.old.objects }
        ensures candidates { AreCandidates row.now prices.now self.new }
        ensures best { MatchOption result (row.now ≡ []) (IsBestTwo row.now prices.now) }
        ensures only { result ≡ best_two row.now prices.now }
    {
        self.read_row(row, prices.narrow());
        match self.best_two_listed(prices) {
            Some(best) => Some(best),
            None => best_two(row, prices),
        }
    }

    // Reads the objects of a full row from one place to another, after those before them.
    fn read_each(
        &mut self,
        benefits: &[Benefit],
        narrow: &[i64],
        from: usize,
        to: usize,
        reading: &mut Reading,
    )
        requires long { length benefits.now ≡ length narrow.now }
        requires few { length benefits.now ≤ MOST_PERSONS }
        requires benefits { All IsBenefit benefits.now }
        requires narrow { All IsNarrow narrow.now }
        requires from { from ≤ to }
        requires to { to ≤ length benefits.now }
        requires reading { IsReading (row_from 1 (take from benefits.now)) narrow.now self.old reading.old.limit }
        ensures { IsReading (row_from 1 (take to benefits.now)) narrow.now self.new reading.new.limit }
    {
        for i in from..to {
            self.read(Object(i as u16 + 1), benefits[i], narrow, reading);
        }
    }

    // Reads a block of objects of a full row, and passes over it if none is above the limit.
    fn read_block(
        &mut self,
        benefits: &[Benefit],
        narrow: &[i64],
        from: usize,
        reading: &mut Reading,
    )
        requires long { length benefits.now ≡ length narrow.now }
        requires few { length benefits.now ≤ MOST_PERSONS }
        requires benefits { All IsBenefit benefits.now }
        requires narrow { All IsNarrow narrow.now }
        requires room { from + LANES ≤ length benefits.now }
        requires reading { IsReading (row_from 1 (take from benefits.now)) narrow.now self.old reading.old.limit }
        ensures { IsReading (row_from 1 (take (from + LANES) benefits.now)) narrow.now self.new reading.new.limit }
    {
        if none_above(benefits, narrow, from, reading.limit) {
            return;
        }
        self.read_each(benefits, narrow, from, from + LANES, reading);
    }

    // Makes the candidates those of a full row at narrow prices.
    fn read_full(&mut self, benefits: &[Benefit], narrow: &[i64])
        requires long { length benefits.now ≡ length narrow.now }
        requires few { length benefits.now ≤ MOST_PERSONS }
        requires benefits { All IsBenefit benefits.now }
        requires narrow { All IsNarrow narrow.now }
        requires list { IsBenefitRow (length narrow.now) self.old.objects }
        ensures { AreCandidates (row_from 1 benefits.now) narrow.now self.new }
    {
        let start = match self.start(narrow) {
            Some(value) => value,
            None => third_in_full_part(benefits, narrow),
        };
        let mut reading = self.restart(start);
        let mut at = 0;
        while benefits.len() - at >= LANES {
            self.read_block(benefits, narrow, at, &mut reading);
            at += LANES;
        }
        self.read_each(benefits, narrow, at, benefits.len(), &mut reading);
    }

    /// Makes the candidates those of a row that lists all objects, given as the benefits of objects
    /// 1, 2, .., at these prices, and finds its best object and the second value; `None` for an
    /// empty row. It takes no memory, and reads the row in 64 bits.
    pub fn refill_full(&mut self, benefits: &[Benefit], prices: &Prices) -> Option<BestTwo>
        requires long { length benefits.now ≡ length prices.now }
        requires benefits { All IsBenefit benefits.now }
        requires list { IsBenefitRow (length prices.now) self.old.objects }
        ensures candidates { AreCandidates (row_from 1 benefits.now) prices.now self.new }
        ensures best { MatchOption result (benefits.now ≡ [])
            (IsBestTwo (row_from 1 benefits.now) prices.now) }
        ensures only { result ≡ best_two (row_from 1 benefits.now) prices.now }
    {
        // For the proof only: the number of prices is in range.
        let _table = prices.as_slice();
        self.read_full(benefits, prices.narrow());
        match self.best_two_listed(prices) {
            Some(best) => Some(best),
            None => best_two_full(benefits, prices),
        }
    }
}
