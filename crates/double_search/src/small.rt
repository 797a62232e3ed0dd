// Problems of as many objects as persons, two or three: all plans are tried. A path from one person
// to another costs what it adds that each takes the next one's object. The price of a person's
// object is the mean, over all persons, of the least that a path to them costs; at these prices all
// other pairs are worse, if any other plan is. A pair that isn't allowed has the big cost.
ghost use Rattle.std.specs.Prelude.{◌≡◌, length};

use super::hall::as_number;
use super::range::{Range, greater, lesser};
use super::solver::Problem;

const PERSONS: usize = 3;

const PLANS: [[usize; PERSONS]; 6] = [
    [0, 1, 2],
    [0, 2, 1],
    [1, 0, 2],
    [1, 2, 0],
    [2, 0, 1],
    [2, 1, 0],
];

// 2^-47: a plan must be better by this part of the big cost than rounding can make it.
const PART: f64 = 0.000000000000007105427357601002;

// The big cost is so many times the greatest cost. With more, prices would be too great for a
// margin to count.
pub const BIG_COST: f64 = 2.0;

// A plan, the price of each person's object, and by how much other pairs are worse.
#[derive(Clone, Copy)]
struct Found {
    objects: [usize; PERSONS],
    prices: [f64; PERSONS],
    worse: f64,
}

// A small problem, and the big cost.
#[derive(Clone, Copy)]
struct Small<'a> {
    problem: Problem<'a>,
    big_cost: f64,
}

// The greatest absolute value of a finite cost.
fn size_of(costs: &[f64]) -> f64 {
    let mut size = 0.0;
    for cost in costs {
        let one = cost.abs();
        size = if one > size && one < f64::INFINITY {
            one
        } else {
            size
        };
    }
    size
}

impl<'a> Small<'a> {
    // The cost of a pair, to be minimised.
    fn turned(self, person: usize, object: usize) -> f64 {
        let place = person
            .wrapping_mul(self.problem.persons)
            .wrapping_add(object);
        let cost = self.problem.costs.get(place).copied().unwrap_or(0.0);
        lesser(cost * self.problem.sign(), self.big_cost)
    }

    fn best_of_two(self) -> Found {
        let (a, b) = (self.turned(0, 0), self.turned(0, 1));
        let (c, d) = (self.turned(1, 0), self.turned(1, 1));
        let is_straight = a + d <= b + c;
        let first = if is_straight { b - a } else { a - b };
        let second = if is_straight { c - d } else { d - c };
        Found {
            objects: if is_straight { [0, 1, 2] } else { [1, 0, 2] },
            prices: [0.5 * first, 0.5 * second, 0.0],
            worse: 0.5 * (first + second),
        }
    }

    // A plan of three with the least sum.
    fn least_plan(self) -> [usize; PERSONS] {
        let mut best = PLANS[0];
        let mut least = f64::INFINITY;
        for plan in PLANS {
            let sum = self.turned(0, plan[0]) + self.turned(1, plan[1]) + self.turned(2, plan[2]);
            best = if sum < least { plan } else { best };
            least = lesser(sum, least);
        }
        best
    }

    // By how much a person's other objects cost more: those that the next two persons have.
    fn more_of(self, person: usize, own: usize, next: usize, last: usize) -> (f64, f64) {
        let cost = self.turned(person, own);
        (
            self.turned(person, next) - cost,
            self.turned(person, last) - cost,
        )
    }

    fn best_of_three(self) -> Found {
        let objects = self.least_plan();
        let (x, y, z) = (objects[0], objects[1], objects[2]);
        let (xy, xz) = self.more_of(0, x, y, z);
        let (yz, yx) = self.more_of(1, y, z, x);
        let (zx, zy) = self.more_of(2, z, x, y);
        let third = 1.0 / 3.0;
        let first = third * (lesser(xy, xz + zy) + lesser(xz, xy + yz));
        let second = third * (lesser(yz, yx + xz) + lesser(yx, yz + zx));
        let last = third * (lesser(zx, zy + yx) + lesser(zy, zx + xy));
        let of_first = lesser(xy - first + second, xz - first + last);
        let of_second = lesser(yz - second + last, yx - second + first);
        let of_last = lesser(zx - last + first, zy - last + second);
        Found {
            objects,
            prices: [first, second, last],
            worse: lesser(of_first, lesser(of_second, of_last)),
        }
    }

    // Whether the plan is better than any other by far more than rounding, and without a pair at the big cost.
    fn is_clear(self, found: Found) -> bool {
        let mut greatest = 0.0;
        for person in 0..self.problem.persons.min(PERSONS) {
            greatest = greater(self.turned(person, found.objects[person]), greatest);
        }
        greatest < self.big_cost
            && found.worse > self.big_cost * PART
            && found.worse < f64::INFINITY
    }
}

impl<'a> Problem<'a> {
    // Writes a best plan and prices, if one is better than any other by far more than rounding.
    // Returns the margin.
    pub fn solve_small(self, objects: &mut [u32], prices: &mut [f64]) -> Option<f64>
        ensures objects { length objects.new ≡ length objects.old }
        ensures prices { length prices.new ≡ length prices.old }
    {
        if self.persons != self.objects {
            return None;
        }
        match self.persons {
            2 | 3 => match self.solve_by_plans(objects, prices) {
                Some(margin) => Some(margin),
                None => self.solve_four(objects, prices),
            },
            4 => self.solve_four(objects, prices),
            5..=8 => self.solve_eight(objects, prices),
            9..=12 => self.solve_twelve(objects, prices),
            _ => None,
        }
    }

    // The same for two or three persons.
    fn solve_by_plans(self, objects: &mut [u32], prices: &mut [f64]) -> Option<f64>
        ensures objects { length objects.new ≡ length objects.old }
        ensures prices { length prices.new ≡ length prices.old }
    {
        let size = size_of(self.costs);
        let small = Small {
            problem: self,
            big_cost: size * BIG_COST,
        };
        let found = if self.persons == 2 {
            small.best_of_two()
        } else {
            small.best_of_three()
        };
        if !small.is_clear(found) {
            return None;
        }
        write_found(found, objects, prices);
        Some(Range::margin_at(size))
    }
}

fn write_found(found: Found, objects: &mut [u32], prices: &mut [f64])
    ensures objects { length objects.new ≡ length objects.old }
    ensures prices { length prices.new ≡ length prices.old }
{
    for (k, object) in objects.iter_mut().enumerate() {
        if k < PERSONS {
            let place = found.objects[k];
            *object = as_number(place);
            if place < prices.len() {
                prices[place] = found.prices[k];
            }
        }
    }
}
