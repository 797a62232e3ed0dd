// Which pairs of a block are its persons' best ones. Nothing of it has to be right.
use super::selection::{Selected, Selection, room_for};
use assign_core::{Cost, Sense};
use cost_lists::{Pairs, Price};
use std::alloc::{AllocError, Global};
use std::simd::prelude::*;

// No sum of a cost and a price is as great. No difference of it and a sum leaves the range of a sum.
const BEYOND: Cost = 9_100_000_000_000_000_000;

// The sum of a cost, turned so that less is better, and a price.
fn sum_of(sense: Sense, cost: Cost, price: Price) -> Cost {
    match sense {
        Sense::Min => price.wrapping_add(cost),
        Sense::Max => price.wrapping_sub(cost),
    }
}

// Eight of them.
fn sums_of(sense: Sense, costs: &[Cost; 8], prices: &[Price; 8]) -> i64x8 {
    let (costs, prices) = (i64x8::from_array(*costs), i64x8::from_array(*prices));
    match sense {
        Sense::Min => prices + costs,
        Sense::Max => prices - costs,
    }
}

// What stands at a place, or 0.
fn number_at(numbers: &[Cost], place: usize) -> Cost {
    match numbers.get(place) {
        Some(number) => *number,
        None => 0,
    }
}

// Sets the sums of a row.
fn set_sums(sums: &mut [Cost], sense: Sense, costs: &[Cost], prices: &[Price]) {
    for (sum, (cost, price)) in sums.iter_mut().zip(costs.iter().zip(prices.iter())) {
        *sum = sum_of(sense, *cost, *price);
    }
}

// Which of 64 sums are below a bound, as bits: the signs of differences.
fn word_of(sense: Sense, costs: &[Cost; 64], prices: &[Price; 64], bound: Cost) -> u64 {
    let (costs, _) = costs.as_slice().as_chunks::<8>();
    let (prices, _) = prices.as_slice().as_chunks::<8>();
    let mut word = 0u64;
    for (costs, prices) in costs.iter().zip(prices.iter()) {
        let signs = (sums_of(sense, costs, prices) - i64x8::splat(bound)).simd_lt(i64x8::splat(0));
        word = (word >> 8) | (signs.to_bitmask() << 56);
    }
    word
}

// The same of fewer sums.
fn last_word_of(sense: Sense, costs: &[Cost], prices: &[Price], bound: Cost) -> u64 {
    let (mut word, mut bit) = (0u64, 1u64);
    for (cost, price) in costs.iter().zip(prices.iter()) {
        if sum_of(sense, *cost, *price) < bound {
            word |= bit;
        }
        bit = bit.wrapping_add(bit);
    }
    word
}

// Sets the words of a row's sums below a bound.
fn set_words(words: &mut [u64], sense: Sense, costs: &[Cost], prices: &[Price], bound: Cost) {
    let (costs, last_costs) = costs.as_chunks::<64>();
    let (prices, last_prices) = prices.as_chunks::<64>();
    let (words, last) = words.split_at_mut(costs.len().min(words.len()));
    for (word, (costs, prices)) in words.iter_mut().zip(costs.iter().zip(prices.iter())) {
        *word = word_of(sense, costs, prices, bound);
    }
    for word in last.iter_mut() {
        *word = last_word_of(sense, last_costs, last_prices, bound);
    }
}

// The least and the greatest number.
fn range_of(numbers: &[Cost]) -> (Cost, Cost) {
    let (mut least, mut greatest) = (Cost::MAX, Cost::MIN);
    for number in numbers.iter() {
        (least, greatest) = (least.min(*number), greatest.max(*number));
    }
    (least, greatest)
}

// A distance that has some more numbers than `most` where another one has `most` of them.
fn widened(distance: Cost, most: usize) -> Cost {
    if most < 16 {
        distance.saturating_mul(2)
    } else {
        distance.saturating_add(distance >> 1)
    }
}

/// The best pairs of one person after another.
#[derive(Drop)]
pub struct BestPairs {
    selection: Selection,
    // The sums of a row.
    sums: Vec<Cost>,
    // How far above its least sum the best ones of a row are looked for first.
    spread: Cost,
    /// Those of the persons so far.
    pub selected: Vec<Selected>,
}

impl BestPairs {
    /// Nothing is selected yet.
    pub fn new(alloc: Global) -> BestPairs {
        BestPairs {
            selection: Selection::new(alloc),
            sums: Vec::new(alloc),
            spread: 0,
            selected: Vec::new(alloc),
        }
    }

    // Finds the sums of a row up to a guess, if they aren't too many.
    fn find(
        &mut self,
        sense: Sense,
        costs: &[Cost],
        prices: &[Price],
        guess: Cost,
        most: usize,
    ) -> Result<bool, AllocError> {
        let bound = guess.wrapping_add(1);
        self.selection.resize(costs.len())?;
        set_words(
            self.selection.words.as_mut_slice(),
            sense,
            costs,
            prices,
            bound,
        );
        self.selection.find(room_for(most).min(costs.len()))
    }

    // Finds the least sums of a row up to a limit, with more care. The bound that it took.
    fn find_least(
        &mut self,
        sense: Sense,
        costs: &[Cost],
        prices: &[Price],
        limit: Cost,
        most: usize,
    ) -> Result<Cost, AllocError> {
        self.sums.resize(costs.len(), 0)?;
        set_sums(self.sums.as_mut_slice(), sense, costs, prices);
        self.selection.find_least(self.sums.as_slice(), limit, most)
    }

    // Sets the found sums.
    fn set_found(
        &mut self,
        sense: Sense,
        costs: &[Cost],
        prices: &[Price],
    ) -> Result<(), AllocError> {
        let Selection {
            found,
            places,
            numbers,
            ..
        } = &mut self.selection;
        numbers.clear();
        for at in places.iter().take(*found) {
            let sum = sum_of(sense, number_at(costs, *at), number_at(prices, *at));
            numbers.push(sum)?;
        }
        Ok(())
    }

    // Sets how far above its least sum the best ones of the next row are looked for first: a mean of that distance
    // and the wanted one if it was good.
    fn set_spread(&mut self, wanted: Cost, is_good: bool) {
        self.spread = if is_good {
            self.spread
                .wrapping_sub(self.spread >> 2)
                .wrapping_add(wanted >> 2)
        } else {
            wanted
        };
    }

    /// Adds at most `most` pairs of a person whose sums are below its number, those of the least sums. The
    /// costs are those of its row, and `least` is their least sum, which is below the number.
    pub fn add_row(
        &mut self,
        row: usize,
        sense: Sense,
        costs: &[Cost],
        prices: &[Price],
        least: Cost,
        number: Cost,
        most: usize,
    ) -> Result<(), AllocError> {
        if most == 0 {
            return Ok(());
        }
        let limit = number.min(BEYOND).wrapping_sub(1);
        let guess = least.saturating_add(self.spread).min(limit);
        let is_few = self.find(sense, costs, prices, guess, most)?;
        let is_guessed = is_few && (self.selection.found >= most || guess == limit);
        let bound = if is_guessed {
            guess
        } else {
            self.find_least(sense, costs, prices, limit, most)?
        };
        if self.selection.found > most {
            self.set_found(sense, costs, prices)?;
        }
        let last = self
            .selection
            .add_to(&mut self.selected, row, most, least, bound)?;
        match last {
            Some(last) => self.set_spread(widened(last.saturating_sub(least), most), is_guessed),
            None => {
                if bound == limit {
                    self.spread = self.spread.max(limit.saturating_sub(least));
                }
            }
        }
        Ok(())
    }

    // Adds the best ones of each person's better pairs.
    fn add_better(&mut self, better: &Better, most: usize) -> Result<(), AllocError> {
        let (mut sums, mut places) = (better.sums.as_slice(), better.places.as_slice());
        let mut start = 0usize;
        for end in better.ends.iter() {
            let count = end.wrapping_sub(start);
            start = *end;
            let (some, other_sums) = sums.split_at(count.min(sums.len()));
            let (some_places, other_places) = places.split_at(count.min(places.len()));
            (sums, places) = (other_sums, other_places);
            let (least, greatest) = range_of(some);
            self.selection.take(some_places, some)?;
            let _last = self
                .selection
                .add_to(&mut self.selected, 0, most, least, greatest)?;
        }
        Ok(())
    }

    /// Adds at most `most` listed pairs of each person whose sums are below its number, those of the least sums.
    pub fn add_pairs(
        &mut self,
        alloc: Global,
        sense: Sense,
        pairs: Pairs<'_>,
        prices: &[Price],
        numbers: &[Cost],
        most: usize,
    ) -> Result<(), AllocError> {
        if most == 0 {
            return Ok(());
        }
        let better = better_of_pairs(alloc, sense, pairs, numbers, prices)?;
        self.add_better(&better, most)
    }
}

// The place of a person or an object.
fn place_of(number: u32) -> usize {
    (number as usize).wrapping_sub(1)
}

// The number of a listed pair's person or object, or 0.
fn number_in(numbers: &[u32], at: usize) -> u32 {
    match numbers.get(at) {
        Some(number) => *number,
        None => 0,
    }
}

// The better ones of listed pairs, by persons.
#[derive(Drop)]
struct Better {
    // Where those of each person end.
    ends: Vec<usize>,
    // The place and the sum of each.
    places: Vec<usize>,
    sums: Vec<Cost>,
}

// The place of a pair's person, and the sum, if this is below the person's number.
fn better_sum(
    sense: Sense,
    pairs: Pairs<'_>,
    numbers: &[Cost],
    prices: &[Price],
    at: usize,
) -> Option<(usize, Cost)> {
    let price = number_at(prices, place_of(number_in(pairs.objects, at)));
    let sum = sum_of(sense, number_at(pairs.costs, at), price);
    let person = place_of(number_in(pairs.persons, at));
    if sum < number_at(numbers, person) {
        Some((person, sum))
    } else {
        None
    }
}

// Counts one more at a place, and says how many there were.
fn count_at(counts: &mut [usize], place: usize) -> usize {
    match counts.get_mut(place) {
        Some(count) => {
            let old = *count;
            *count = old.wrapping_add(1);
            old
        }
        None => 0,
    }
}

// Makes counts the sums of those before, and returns the sum of all.
fn add_up(counts: &mut [usize]) -> usize {
    let mut sum = 0usize;
    for count in counts.iter_mut() {
        let one = *count;
        *count = sum;
        sum = sum.wrapping_add(one);
    }
    sum
}

// Puts a pair at its place.
fn put(better: &mut Better, place: usize, at: usize, sum: Cost) {
    if let Some(old) = better.places.get_mut(place) {
        *old = at;
    }
    if let Some(old) = better.sums.get_mut(place) {
        *old = sum;
    }
}

// The better ones of listed pairs, in two passes.
fn better_of_pairs(
    alloc: Global,
    sense: Sense,
    pairs: Pairs<'_>,
    numbers: &[Cost],
    prices: &[Price],
) -> Result<Better, AllocError> {
    let mut ends = vec![in alloc; 0usize; numbers.len()]?;
    for at in 0..pairs.costs.len() {
        if let Some((person, _)) = better_sum(sense, pairs, numbers, prices, at) {
            let _before = count_at(ends.as_mut_slice(), person);
        }
    }
    let count = add_up(ends.as_mut_slice());
    let mut better = Better {
        ends,
        places: vec![in alloc; 0usize; count]?,
        sums: vec![in alloc; 0; count]?,
    };
    for at in 0..pairs.costs.len() {
        if let Some((person, sum)) = better_sum(sense, pairs, numbers, prices, at) {
            let place = count_at(better.ends.as_mut_slice(), person);
            put(&mut better, place, at, sum);
        }
    }
    Ok(better)
}
