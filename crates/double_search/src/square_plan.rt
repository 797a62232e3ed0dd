// A plan of a square: bids of persons without an object, and shortest augmenting paths.
ghost use Rattle.std.specs.Prelude.{◌≤◌};

use super::best::lowest;
use super::lanes::{first_of, greater_of, is_at, least_of, number_at, put_first};
use super::lists::place_of;
use super::square::{NONE, Square};
use std::simd::prelude::*;

fn place_at(places: &[usize], at: usize) -> usize {
    places.get(at).copied().unwrap_or(NONE)
}

impl<'a> Square<'a> {
    #[inline(always)]
    fn object_of(&self, person: usize) -> usize {
        place_at(self.objects, person)
    }

    #[inline(always)]
    fn owner_of(&self, object: usize) -> usize {
        place_at(self.owners, object)
    }

    #[inline(always)]
    fn cost_of<const W: usize>(&self, person: usize, object: usize) -> f64 {
        number_at(self.rows, person.wrapping_mul(W).wrapping_add(object))
    }

    fn take_from(&mut self, person: usize) {
        if person < self.objects.len() {
            self.objects[person] = NONE;
        }
    }

    // The person's best object goes to it, and gets so expensive that the next best one is as good.
    // Returns the person who had it, or nobody, also where the next best one is as good already.
    #[inline(always)]
    fn bid<const W: usize>(&mut self, person: usize) -> usize
        requires { W ≤ 16 }
    {
        let prices = first_of::<W>(self.prices);
        let values = self.row::<W>(person) + prices;
        let best = least_of(values);
        let is_best = values.simd_eq(Simd::splat(best));
        let bits = is_best.to_bitmask();
        let free = bits & self.free;
        if free != 0 {
            self.give(person, lowest(free));
            return NONE;
        }
        if bits & bits.wrapping_sub(1) != 0 {
            return NONE;
        }
        let others = is_best.select(Simd::splat(f64::INFINITY), values);
        let gap = Simd::splat(least_of(others) - best);
        put_first(self.prices, prices + is_best.select(gap, Simd::splat(0.0)));
        let object = lowest(bits);
        let loser = self.owner_of(object);
        self.give(person, object);
        self.take_from(loser);
        loser
    }

    // At most so many bids of a person and of those who lose their objects in turn. Returns how
    // many are left.
    #[inline(always)]
    fn bid_on<const W: usize>(&mut self, first: usize, most: usize) -> usize
        requires { W ≤ 16 }
    {
        let mut person = first;
        for made in 0..most {
            person = self.bid::<W>(person);
            if person == NONE {
                return most.saturating_sub(made);
            }
        }
        0
    }

    // Gives each person on the way back from an object the object that was reached from it.
    #[inline(always)]
    fn walk_back(&mut self, from: &[i64], first: usize, end: usize) {
        let mut object = end;
        for _ in 0..self.persons {
            let person = place_of(from.get(object).copied().unwrap_or(0));
            let next = self.object_of(person);
            self.give(person, object);
            if person == first {
                return;
            }
            object = next;
        }
    }

    // Gives a person an object by a shortest path to one without an owner.
    #[inline(always)]
    fn augment<const W: usize>(&mut self, first: usize)
        requires { W ≤ 16 }
    {
        let far = Simd::<f64, W>::splat(f64::INFINITY);
        let prices = first_of::<W>(self.prices);
        let mut keys = prices;
        let mut distances = far;
        let mut levels = far;
        let mut from = Simd::<i64, W>::splat(0);
        let mut person = first;
        let mut base = 0.0;
        for _ in 0..self.persons {
            let values = self.row::<W>(person) + keys - Simd::splat(base);
            let is_nearer = values.simd_lt(distances);
            distances = is_nearer.select(values, distances);
            from = is_nearer.select(Simd::splat((person as u64).cast_signed()), from);
            let level = least_of(distances);
            let nearest = distances.simd_eq(Simd::splat(level)).to_bitmask();
            let free = nearest & self.free;
            if free != 0 {
                let more = greater_of(Simd::splat(level) - levels, Simd::splat(0.0));
                put_first(self.prices, prices + more);
                self.walk_back(&from.to_array()[..], first, lowest(free));
                return;
            }
            let object = lowest(nearest);
            let is_passed = is_at::<W>(object);
            levels = is_passed.select(Simd::splat(level), levels);
            distances = is_passed.select(far, distances);
            keys = is_passed.select(far, keys);
            person = self.owner_of(object);
            base = self.cost_of::<W>(person, object) + number_at(self.prices, object) - level;
        }
    }

    // Bids of each person without an object.
    #[inline(always)]
    pub fn bid_all<const W: usize>(&mut self)
        requires { W ≤ 16 }
    {
        let mut left = self.persons.saturating_mul(2);
        for person in 0..self.persons {
            if self.object_of(person) == NONE {
                left = self.bid_on::<W>(person, left);
            }
        }
    }

    // Gives each person an object.
    #[inline(always)]
    pub fn augment_all<const W: usize>(&mut self)
        requires { W ≤ 16 }
    {
        for person in 0..self.persons {
            if self.object_of(person) == NONE {
                self.augment::<W>(person);
            }
        }
    }
}
