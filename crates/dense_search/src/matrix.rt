// A dense problem: each person lists each object.
use super::gather::scatter;
use super::market::Market;
use super::number::{Number, greater, lesser};
use super::reading::{Magnified, Reading};
use assign_core::Sense;
use search_base::place_at;
use std::alloc::{AllocError, Global};

/// Persons and objects are given by their places from 0. The costs of a person stand side by side,
/// one for each object, and they are read where they lie.
#[derive(Clone, Copy)]
pub struct DenseProblem<'a> {
    pub sense: Sense,
    pub persons: usize,
    pub objects: usize,
    pub costs: &'a [i64],
}

impl<'a> DenseProblem<'a> {
    pub fn read_as<R: Reading<i64>>(self, reading: R) -> Matrix<'a, i64, R> {
        Matrix {
            persons: self.persons,
            objects: self.objects,
            costs: self.costs,
            reading,
        }
    }
}

// The costs with the way in which they are read.
#[derive(Drop)]
pub struct Matrix<'a, K, R> {
    pub persons: usize,
    pub objects: usize,
    pub costs: &'a [K],
    pub reading: R,
}

impl<'a, K: Number, R: Reading<K>> Matrix<'a, K, R> {
    // What a person lists; nothing for a place without a person.
    pub fn row(&self, person: u32) -> &'a [K] {
        let from = (person as usize).wrapping_mul(self.objects);
        let to = from.wrapping_add(self.objects);
        self.costs.get(from..to).unwrap_or(&[])
    }

    // A person's cost of an object, as it is read.
    pub fn value(&self, person: u32, object: u32) -> K {
        let cost = self.row(person).get(object as usize).copied();
        self.reading.value(cost.unwrap_or(K::zero()))
    }

    // The value of a person's own object.
    pub fn own_value(&self, market: &Market<'_, K>, person: u32) -> K {
        let object = market.object(person);
        self.value(person, object).plus(market.price(object))
    }

    // The place in a row at which to begin, so that rows with many equal values give different objects.
    pub fn first_place(&self, person: u32) -> usize {
        scatter(person as usize) % self.objects.max(1)
    }

    // The number of pairs.
    pub fn pairs(&self) -> usize {
        self.costs.len()
    }

    // A person's least and greatest value.
    pub fn ends_of(&self, person: u32) -> (K, K) {
        let first = self.value(person, 0);
        let mut ends = (first, first);
        for cost in self.row(person) {
            let value = self.reading.value(*cost);
            ends = (lesser(ends.0, value), greater(ends.1, value));
        }
        ends
    }

    // Each person's least value.
    pub fn least_values(&self, alloc: Global) -> Result<Vec<K>, AllocError> {
        let mut least = Vec::with_capacity(alloc, self.persons)?;
        for k in 0..self.persons {
            least.push(self.ends_of(place_at(k)).0)?;
        }
        Ok(least)
    }
}

impl<'a, R: Reading<i64>> Matrix<'a, i64, R> {
    // The same costs times a power of 2.
    pub fn magnified(&self, shift: u32) -> Matrix<'_, i64, Magnified<'_, R>> {
        Matrix {
            persons: self.persons,
            objects: self.objects,
            costs: self.costs,
            reading: Magnified {
                reading: &self.reading,
                shift,
            },
        }
    }
}
