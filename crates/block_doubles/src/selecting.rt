// Which pairs are their persons' best ones, by rounded sums. Nothing of it has to be right: each pair is
// looked at once more, exactly, before it is written.
use assign_core::Sense;
use block_checker::{Selected, Selection, room_for};
use cost_lists::Object;
use double_checker::{is_number, is_sum_less, turned};
use std::alloc::{AllocError, Global};
use std::num::{f64_from_bits_with_nan, f64_to_bits_with_nan};
use std::simd::prelude::*;

// A whole number for each double, in the order of doubles; one for both zeros.
fn rank(x: f64) -> i64 {
    let bits = f64_to_bits_with_nan(x + 0.0).cast_signed();
    if bits < 0 { bits ^ i64::MAX } else { bits }
}

// The double of a rank.
fn double_of(rank: i64) -> f64 {
    let bits = if rank < 0 { rank ^ i64::MAX } else { rank };
    f64_from_bits_with_nan(bits.cast_unsigned())
}

// The double at a place, or 0.
fn double_at(numbers: &[f64], place: usize) -> f64 {
    match numbers.get(place) {
        Some(number) => *number,
        None => 0.0,
    }
}

// Whether the sum of a cost and a price is below that of others, if all are finite.
fn is_below(sense: Sense, cost: f64, price: f64, number_cost: f64, number_price: f64) -> bool {
    let (cost, number_cost) = (turned(sense, cost), turned(sense, number_cost));
    if !is_number(cost) {
        return false;
    }
    if !is_number(price) {
        return false;
    }
    if !is_number(number_cost) {
        return false;
    }
    if !is_number(number_price) {
        return false;
    }
    is_sum_less(cost, price, number_cost, number_price)
}

// The rounded sum of a cost, turned so that less is better, and a price.
fn sum_of(sense: Sense, cost: f64, price: f64) -> f64 {
    turned(sense, cost) + price
}

// Eight of them.
fn sums_of(sense: Sense, costs: &[f64; 8], prices: &[f64; 8]) -> f64x8 {
    let (costs, prices) = (f64x8::from_array(*costs), f64x8::from_array(*prices));
    match sense {
        Sense::Min => prices + costs,
        Sense::Max => prices - costs,
    }
}

// The lesser of two numbers, or the second one where they have no order.
fn lesser(x: f64, y: f64) -> f64 {
    if x < y { x } else { y }
}

// Which of 64 sums are up to a bound, as bits.
fn word_of(sense: Sense, costs: &[f64; 64], prices: &[f64; 64], bound: f64) -> u64 {
    let (costs, _) = costs.as_slice().as_chunks::<8>();
    let (prices, _) = prices.as_slice().as_chunks::<8>();
    let mut word = 0u64;
    for (costs, prices) in costs.iter().zip(prices.iter()) {
        let bits = sums_of(sense, costs, prices)
            .simd_le(f64x8::splat(bound))
            .to_bitmask();
        word = (word >> 8) | (bits << 56);
    }
    word
}

// The same of fewer sums.
fn last_word_of(sense: Sense, costs: &[f64], prices: &[f64], bound: f64) -> u64 {
    let (mut word, mut bit) = (0u64, 1u64);
    for (cost, price) in costs.iter().zip(prices.iter()) {
        if sum_of(sense, *cost, *price) <= bound {
            word |= bit;
        }
        bit = bit.wrapping_add(bit);
    }
    word
}

// Sets the words of a row's sums up to a bound.
fn set_words(words: &mut [u64], sense: Sense, costs: &[f64], prices: &[f64], bound: f64) {
    let (costs, last_costs) = costs.as_chunks::<64>();
    let (prices, last_prices) = prices.as_chunks::<64>();
    let (words, last) = words.split_at_mut(costs.len().min(words.len()));
    for (word, (costs, prices)) in words.iter_mut().zip(costs.iter().zip(prices.iter())) {
        *word = word_of(sense, costs, prices, bound);
    }
    for word in last.iter_mut() {
        *word = last_word_of(sense, last_costs, last_prices, bound);
    }
}

// A person's row number, with its rounded sum.
#[derive(Clone, Copy)]
struct Number {
    cost: f64,
    price: f64,
    sum: f64,
}

// Whether a pair's rounded sum is below a number, or equals it and the pair is below as it is.
fn is_counted(sense: Sense, cost: f64, price: f64, number: Number) -> bool {
    let sum = sum_of(sense, cost, price);
    if sum < number.sum {
        true
    } else {
        sum == number.sum && is_below(sense, cost, price, number.cost, number.price)
    }
}

// The number of a cost and a price.
fn number_of(sense: Sense, cost: f64, price: f64) -> Number {
    Number {
        cost,
        price,
        sum: sum_of(sense, cost, price),
    }
}

// Sets the ranks of a row's rounded sums, the greatest one where a sum equals the number and doesn't count.
fn set_ranks(ranks: &mut [i64], sense: Sense, costs: &[f64], prices: &[f64], number: Number) {
    for (of_sum, (cost, price)) in ranks.iter_mut().zip(costs.iter().zip(prices.iter())) {
        let sum = sum_of(sense, *cost, *price);
        *of_sum = rank(sum);
        if sum == number.sum && !is_counted(sense, *cost, *price, number) {
            *of_sum = i64::MAX;
        }
    }
}

// Leaves out of found places those that don't count. How many stay.
fn leave_out(
    places: &mut [usize],
    found: usize,
    sense: Sense,
    costs: &[f64],
    prices: &[f64],
    number: Number,
) -> usize {
    let mut count = 0usize;
    for from in 0..found.min(places.len()) {
        let at = places[from];
        if let Some(place) = places.get_mut(count) {
            *place = at;
        }
        let counts = is_counted(sense, double_at(costs, at), double_at(prices, at), number);
        count = count.wrapping_add(usize::from(counts));
    }
    count
}

// A distance that has some more numbers than `most` where another one has `most` of them.
fn widened(distance: f64, most: usize) -> f64 {
    if most < 16 {
        distance + distance
    } else {
        distance + 0.5 * distance
    }
}

/// The best pairs of one person after another.
#[derive(Drop)]
struct BestPairs {
    selection: Selection,
    // The ranks of a row.
    ranks: Vec<i64>,
    // How far above its least sum the best ones of a row are looked for first.
    spread: f64,
    selected: Vec<Selected>,
}

impl BestPairs {
    // Nothing is selected yet.
    fn new(alloc: Global) -> BestPairs {
        BestPairs {
            selection: Selection::new(alloc),
            ranks: Vec::new(alloc),
            spread: 0.0,
            selected: Vec::new(alloc),
        }
    }

    // Finds the rounded sums of a row up to a guess, if they aren't too many.
    fn find(
        &mut self,
        sense: Sense,
        costs: &[f64],
        prices: &[f64],
        number: Number,
        guess: f64,
        most: usize,
    ) -> Result<bool, AllocError> {
        self.selection.resize(costs.len())?;
        set_words(
            self.selection.words.as_mut_slice(),
            sense,
            costs,
            prices,
            guess,
        );
        let is_few = self.selection.find(room_for(most).min(costs.len()))?;
        if is_few && guess == number.sum {
            let (found, places) = (self.selection.found, self.selection.places.as_mut_slice());
            self.selection.found = leave_out(places, found, sense, costs, prices, number);
        }
        Ok(is_few)
    }

    // Finds the least rounded sums of a row up to its number, with more care. The rank of the bound that it took.
    fn find_least(
        &mut self,
        sense: Sense,
        costs: &[f64],
        prices: &[f64],
        number: Number,
        most: usize,
    ) -> Result<i64, AllocError> {
        self.ranks.resize(costs.len(), 0)?;
        set_ranks(self.ranks.as_mut_slice(), sense, costs, prices, number);
        self.selection
            .find_least(self.ranks.as_slice(), rank(number.sum), most)
    }

    // Sets the ranks of the found sums.
    fn set_found(&mut self, sense: Sense, costs: &[f64], prices: &[f64]) -> Result<(), AllocError> {
        let Selection {
            found,
            places,
            numbers,
            ..
        } = &mut self.selection;
        numbers.clear();
        for at in places.iter().take(*found) {
            let sum = sum_of(sense, double_at(costs, *at), double_at(prices, *at));
            numbers.push(rank(sum))?;
        }
        Ok(())
    }

    // Sets how far above its least sum the best ones of the next row are looked for first: a mean of that distance
    // and the wanted one if it was good.
    fn set_spread(&mut self, wanted: f64, is_good: bool) {
        self.spread = if is_good {
            0.75 * self.spread + 0.25 * wanted
        } else {
            wanted
        };
    }

    // Adds at most `most` pairs of a person below its number, those of the least rounded sums.
    fn add_row(
        &mut self,
        row: usize,
        sense: Sense,
        costs: &[f64],
        prices: &[f64],
        least: f64,
        number: Number,
        most: usize,
    ) -> Result<(), AllocError> {
        let guess = lesser(least + self.spread, number.sum);
        let is_few = self.find(sense, costs, prices, number, guess, most)?;
        let is_guessed = is_few && (self.selection.found >= most || guess == number.sum);
        let bound = if is_guessed {
            rank(guess)
        } else {
            self.find_least(sense, costs, prices, number, most)?
        };
        if self.selection.found > most {
            self.set_found(sense, costs, prices)?;
        }
        let last = self
            .selection
            .add_to(&mut self.selected, row, most, rank(least), bound)?;
        match last {
            Some(last) => self.set_spread(widened(double_of(last) - least, most), is_guessed),
            None => {
                if bound == rank(number.sum) && number.sum - least > self.spread {
                    self.spread = number.sum - least;
                }
            }
        }
        Ok(())
    }
}

/// The best pairs of rows, of those persons whose least sum is below their number: at most `most` of each
/// one, by persons, then by objects. Sums that round to one number count as equal.
pub fn select(
    alloc: Global,
    sense: Sense,
    costs: &[f64],
    number_costs: &[f64],
    number_prices: &[f64],
    prices: &[f64],
    least_objects: &[Object],
    least_costs: &[f64],
    most: usize,
) -> Result<Vec<Selected>, AllocError> {
    let mut best = BestPairs::new(alloc);
    if most == 0 {
        return Ok(best.selected);
    }
    let mut rest = costs;
    for (row, object) in least_objects.iter().enumerate() {
        let (costs, others) = rest.split_at(prices.len().min(rest.len()));
        rest = others;
        let number = number_of(
            sense,
            double_at(number_costs, row),
            double_at(number_prices, row),
        );
        let cost = double_at(least_costs, row);
        let price = double_at(prices, (*object as usize).wrapping_sub(1));
        if *object > 0 && is_below(sense, cost, price, number.cost, number.price) {
            let least = sum_of(sense, cost, price);
            best.add_row(row, sense, costs, prices, least, number, most)?;
        }
    }
    Ok(best.selected)
}
