// Prices of a square at which the checker's sums show its plan best.
ghost use Rattle.std.specs.Prelude.{◌≤◌};

use super::lanes::{first_of, greater_of, number_at, put_first};
use super::range::{Range, greater};
use super::square::Square;
use std::simd::prelude::*;

// By how many margins other pairs are to be worse: the checker takes two, and rounds sums.
const MARGINS: f64 = 16.0;

// Sums stay exact where all costs are multiples of about 2^-40 of the greatest one. The sum with
// 2^13 times the greatest one rounds to a multiple of that.
const GREATER: f64 = 8192.0;

// 2^-60: the checker compares exact sums of numbers that differ less in size.
const TINY: f64 = 0.00000000000000000086736173798840354720596224069595;

fn is_tiny(one: f64, size: f64) -> bool {
    one != 0.0 && one.abs() < size * TINY
}

// The cost and the price of a person's own object.
#[derive(Clone, Copy)]
struct Own {
    cost: f64,
    price: f64,
}

// Whether doubles are multiples whose sums are exact.
fn are_exact<const W: usize>(numbers: Simd<f64, W>, size: f64) -> Mask<i64, W> {
    let great = Simd::splat(size * GREATER);
    ((numbers + great) - great).simd_eq(numbers)
}

impl<'a> Square<'a> {
    // Keeps the costs of the persons' own objects, and hides them in the rows. Returns whether each
    // person has an object that is allowed.
    #[inline(always)]
    pub fn take_own(&mut self, width: usize) -> bool {
        let mut greatest = f64::NEG_INFINITY;
        for person in 0..self.persons {
            if person >= self.objects.len() || person >= self.own.len() {
                return false;
            }
            let place = person
                .wrapping_mul(width)
                .wrapping_add(self.objects[person]);
            if self.objects[person] >= width || place >= self.rows.len() {
                return false;
            }
            let cost = self.rows[place];
            self.own[person] = cost;
            self.rows[place] = f64::INFINITY;
            greatest = greater(cost, greatest);
        }
        greatest < self.big_cost
    }

    #[inline(always)]
    fn own_of(&self, person: usize) -> Own {
        let object = self.objects.get(person).copied().unwrap_or(0);
        Own {
            cost: number_at(self.own, person),
            price: number_at(self.prices, object),
        }
    }

    // Which of a person's objects are worse than its own by the margin. With `may_tie` those of the
    // same cost may have the same price.
    #[inline(always)]
    fn worse_of<const W: usize>(
        &self,
        person: usize,
        prices: Simd<f64, W>,
        may_tie: bool,
    ) -> Mask<i64, W>
        requires { W ≤ 16 }
    {
        let margin = Range::margin_at(self.size);
        let own = self.own_of(person);
        let row = self.row::<W>(person);
        let above = Simd::splat(own.cost + own.price + margin + margin);
        let is_worse = above.simd_lt(row + prices);
        let is_same = row.simd_eq(Simd::splat(own.cost)) & Mask::splat(may_tie);
        is_worse | (is_same & prices.simd_ge(Simd::splat(own.price)))
    }

    // Whether each other pair of a person is worse.
    #[inline(always)]
    fn is_clear<const W: usize>(&self, may_tie: bool) -> bool
        requires { W ≤ 16 }
    {
        let prices = first_of::<W>(self.prices);
        let mut are_worse = Mask::<i64, W>::splat(true);
        for person in 0..self.persons {
            are_worse = are_worse & self.worse_of(person, prices, may_tie);
        }
        are_worse.all()
    }

    // Raises prices as far as each person's own object needs others to be worse.
    #[inline(always)]
    fn raise<const W: usize>(&mut self, may_tie: bool)
        requires { W ≤ 16 }
    {
        let wanted = Range::margin_at(self.size) * MARGINS;
        let mut prices = first_of::<W>(self.prices);
        for person in 0..self.persons {
            let own = self.own_of(person);
            let row = self.row::<W>(person);
            let least = Simd::splat(own.cost + own.price + wanted) - row;
            let is_same = row.simd_eq(Simd::splat(own.cost)) & Mask::splat(may_tie);
            prices = greater_of(is_same.select(Simd::splat(own.price), least), prices);
        }
        put_first(self.prices, prices);
    }

    // Raises prices until the pairs are worse, if that takes no more turns than there are persons.
    #[inline(always)]
    fn raise_on<const W: usize>(&mut self, may_tie: bool) -> bool
        requires { W ≤ 16 }
    {
        for _ in 0..self.persons {
            if self.is_clear::<W>(may_tie) {
                return true;
            }
            self.raise::<W>(may_tie);
        }
        self.is_clear::<W>(may_tie)
    }

    // Whether the sums of costs and prices are exact, and show the plan best.
    #[inline(always)]
    fn is_exact<const W: usize>(&self) -> bool
        requires { W ≤ 16 }
    {
        let prices = first_of::<W>(self.prices);
        let mut holds = Mask::<i64, W>::splat(true);
        for person in 0..self.persons {
            let own = self.own_of(person);
            let row = self.row::<W>(person);
            let are_exact = are_exact(row, self.size) & are_exact(Simd::splat(own.cost), self.size);
            let is_no_better = Simd::splat(own.cost + own.price).simd_le(row + prices);
            holds = holds & are_exact & is_no_better;
        }
        holds.all()
    }

    // Whether another object of a person costs the same as its own.
    fn has_same<const W: usize>(&self) -> bool
        requires { W ≤ 16 }
    {
        let mut are_same = Mask::<i64, W>::splat(false);
        for person in 0..self.persons {
            let own = number_at(self.own, person);
            are_same = are_same | self.row::<W>(person).simd_eq(Simd::splat(own));
        }
        are_same.any()
    }

    // Whether a cost or a price of an own object is too small for exact sums of the checker.
    fn has_tiny(&self) -> bool {
        let mut has_tiny = false;
        for person in 0..self.persons {
            let own = self.own_of(person);
            has_tiny = has_tiny || is_tiny(own.cost, self.size) || is_tiny(own.price, self.size);
        }
        has_tiny
    }

    // Finds prices at which all other pairs are worse by a margin, or those of another cost are, or
    // none is better.
    #[inline(always)]
    pub fn find_prices<const W: usize>(&mut self) -> bool
        requires { W ≤ 16 }
    {
        let prices = first_of::<W>(self.prices);
        if self.raise_on::<W>(false) {
            return true;
        }
        put_first(self.prices, prices);
        if self.is_exact::<W>() {
            return true;
        }
        self.has_same::<W>() && self.raise_on::<W>(true) && !self.has_tiny()
    }
}
