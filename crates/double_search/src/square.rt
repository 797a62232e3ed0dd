// Squares of a few persons in doubles, a row in lanes: a plan by the shortest augmenting paths of
// Jonker and Volgenant (1987), and prices at which the checker's own sums show it best. A pair that
// isn't allowed has the big cost.
ghost use Rattle.std.specs.Prelude.{◌≡◌, ◌≤◌, length};

use super::best::lowest;
use super::hall::as_number;
use super::lanes::{MOST, greater_of, lesser_of, put_first, row_of, zero_to};
use super::range::{Ends, Range, greatest_of};
use super::small::BIG_COST;
use super::solver::Problem;
use std::simd::prelude::*;

// No person, and no object.
pub const NONE: usize = 64;

// 2^-900 and 2^900: between them no product here is infinite or below the normal doubles.
const LEAST: f64 = 1.1830521861667747e-271;

const GREATEST: f64 = 8.452712498170644e270;

// So many costs are read at once.
const LANES: usize = 4;

#[derive(Drop)]
pub struct Square<'a> {
    pub persons: usize,
    // The greatest absolute value of a finite cost.
    pub size: f64,
    // Costs from this one on stand for pairs that aren't allowed.
    pub big_cost: f64,
    // The objects without an owner, as bits.
    pub free: u64,
    // The cost of each pair, to be minimised, in rows of as many numbers as there are lanes; after
    // the last object 0.
    pub rows: &'a mut [f64],
    // The price of each object; after the last one infinity.
    pub prices: &'a mut [f64],
    pub objects: &'a mut [usize],
    pub owners: &'a mut [usize],
    // The cost of each person's own object.
    pub own: &'a mut [f64],
}

#[inline(always)]
fn read_parts(parts: &[[f64; LANES]], to: &mut [[f64; LANES]], sign: f64, ends: Ends) -> Ends {
    let mut ends = ends;
    for (part, to) in parts.iter().zip(to.iter_mut()) {
        let turned = f64x4::from_array(*part) * f64x4::splat(sign);
        ends = ends.with(turned);
        *to = turned.to_array();
    }
    ends
}

#[inline(always)]
fn read_rest(rest: &[f64], to: &mut [f64], sign: f64, ends: Ends) -> Ends {
    let mut ends = ends;
    for (cost, to) in rest.iter().zip(to.iter_mut()) {
        let turned = *cost * sign;
        ends = ends.with(f64x4::splat(turned));
        *to = turned;
    }
    ends
}

// Reads a row into lanes.
#[inline(always)]
fn read_row(row: &[f64], to: &mut [f64], sign: f64, ends: Ends) -> Ends {
    let (parts, rest) = row.as_chunks::<LANES>();
    let begin = row.len().wrapping_sub(rest.len()).min(to.len());
    let (to_parts, to_rest) = to.split_at_mut(begin);
    let (to_parts, _) = to_parts.as_chunks_mut::<LANES>();
    let ends = read_parts(parts, to_parts, sign, ends);
    read_rest(rest, to_rest, sign, ends)
}

// The greatest absolute value of a finite number.
fn finite_size(numbers: &[f64]) -> f64 {
    let mut size = f64x4::splat(0.0);
    let (parts, _) = numbers.as_chunks::<LANES>();
    for part in parts {
        let numbers = f64x4::from_array(*part);
        let each = greater_of(numbers, -numbers);
        let is_finite = each.simd_lt(f64x4::splat(f64::INFINITY));
        size = is_finite.select(greater_of(each, size), size);
    }
    greatest_of(size)
}

// Costs above the greatest one become it.
fn cap_all(costs: &mut [f64], greatest: f64) {
    let (parts, _) = costs.as_chunks_mut::<LANES>();
    for part in parts.iter_mut() {
        let costs = f64x4::from_array(*part);
        *part = lesser_of(costs, f64x4::splat(greatest)).to_array();
    }
}

// The bit of an object.
fn bit_of(object: usize) -> u64 {
    1u64 << (object % 64) as u32
}

// The bits of so many objects.
fn bits_to(count: usize) -> u64 {
    bit_of(count).wrapping_sub(1)
}

impl<'a> Square<'a> {
    #[inline(always)]
    fn read(&mut self, costs: &[f64], sign: f64, width: usize) {
        let mut ends = Ends::of_zero();
        let rows = costs.chunks(self.persons.max(1));
        for (row, to) in rows.zip(self.rows.chunks_mut(width.max(1))) {
            ends = read_row(row, to, sign, ends);
        }
        self.size = ends.size();
        if self.size == f64::INFINITY {
            self.size = finite_size(self.rows);
            self.big_cost = self.size * BIG_COST;
            cap_all(self.rows, self.big_cost);
        }
    }

    #[inline(always)]
    pub fn row<const W: usize>(&self, person: usize) -> Simd<f64, W>
        requires { W ≤ 16 }
    {
        row_of(self.rows, person)
    }

    // The least cost of each object.
    #[inline(always)]
    fn least_costs<const W: usize>(&self) -> Simd<f64, W>
        requires { W ≤ 16 }
    {
        let mut least = Simd::splat(f64::INFINITY);
        for person in 0..self.persons {
            least = lesser_of(self.row(person), least);
        }
        least
    }

    // Gives each person an object of which it has the least cost, as far as there are any.
    #[inline(always)]
    fn reduce_columns<const W: usize>(&mut self)
        requires { W ≤ 16 }
    {
        let least = self.least_costs::<W>();
        put_first(self.prices, zero_to::<W>(self.persons) - least);
        for person in 0..self.persons {
            let is_least = self.row::<W>(person).simd_eq(least);
            let best = is_least.to_bitmask() & self.free;
            if best != 0 {
                self.give(person, lowest(best));
            }
        }
    }

    // Gives a person an object; its earlier owner, if there is one, keeps its place.
    #[inline(always)]
    pub fn give(&mut self, person: usize, object: usize) {
        if person < self.objects.len() && object < self.owners.len() {
            self.objects[person] = object;
            self.owners[object] = person;
            self.free &= !bit_of(object);
        }
    }

    fn write_objects(&self, objects: &mut [u32])
        ensures { length objects.new ≡ length objects.old }
    {
        for (object, place) in objects.iter_mut().zip(self.objects.iter()) {
            *object = as_number(*place);
        }
    }

    fn write_prices(&self, prices: &mut [f64])
        ensures { length prices.new ≡ length prices.old }
    {
        for (price, own) in prices.iter_mut().zip(self.prices.iter()) {
            *price = *own;
        }
    }

    // Whether it found a plan and prices.
    #[inline(always)]
    fn solve<const W: usize>(&mut self, problem: Problem<'_>) -> bool
        requires { W ≤ 16 }
    {
        self.read(problem.costs, problem.sign(), W);
        if self.size < LEAST || self.size > GREATEST {
            return false;
        }
        self.reduce_columns::<W>();
        self.bid_all::<W>();
        self.augment_all::<W>();
        self.take_own(W) && self.find_prices::<W>()
    }
}

// Writes a best plan and prices, where doubles are good enough for both. Returns the margin. The
// rows have W numbers each, all 0 at first.
fn solve_in<const W: usize>(
    problem: Problem<'_>,
    rows: &mut [f64],
    objects: &mut [u32],
    prices: &mut [f64],
) -> Option<f64>
    requires { W ≤ 16 }
    ensures objects { length objects.new ≡ length objects.old }
    ensures prices { length prices.new ≡ length prices.old }
{
    let mut own_prices = [0.0; MOST];
    let mut own_objects = [NONE; MOST];
    let mut owners = [NONE; MOST];
    let mut own = [0.0; MOST];
    let mut square = Square {
        persons: problem.persons,
        size: 0.0,
        big_cost: f64::INFINITY,
        free: bits_to(problem.persons),
        rows,
        prices: &mut own_prices[..],
        objects: &mut own_objects[..],
        owners: &mut owners[..],
        own: &mut own[..],
    };
    if !square.solve::<W>(problem) {
        return None;
    }
    square.write_objects(objects);
    square.write_prices(prices);
    Some(Range::margin_at(square.size))
}

impl<'a> Problem<'a> {
    // Writes a best plan of up to four persons and prices, where doubles are good enough for both.
    // Returns the margin.
    pub fn solve_four(self, objects: &mut [u32], prices: &mut [f64]) -> Option<f64>
        ensures objects { length objects.new ≡ length objects.old }
        ensures prices { length prices.new ≡ length prices.old }
    {
        let mut rows = [0.0; 16];
        solve_in::<4>(self, &mut rows[..], objects, prices)
    }

    // The same for up to eight persons.
    pub fn solve_eight(self, objects: &mut [u32], prices: &mut [f64]) -> Option<f64>
        ensures objects { length objects.new ≡ length objects.old }
        ensures prices { length prices.new ≡ length prices.old }
    {
        let mut rows = [0.0; 64];
        solve_in::<8>(self, &mut rows[..], objects, prices)
    }

    // The same for up to twelve persons.
    pub fn solve_twelve(self, objects: &mut [u32], prices: &mut [f64]) -> Option<f64>
        ensures objects { length objects.new ≡ length objects.old }
        ensures prices { length prices.new ≡ length prices.old }
    {
        let mut rows = [0.0; 192];
        solve_in::<16>(self, &mut rows[..], objects, prices)
    }
}
