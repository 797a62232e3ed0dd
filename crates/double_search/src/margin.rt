// Prices at which each other pair is worse by a margin: small steps on the prices of owned objects,
// by longest paths among the near pairs.
use super::lists::{Lists, at, copy, fill, number_of, place_of, put};
use super::near::Nearness;
use super::rows::Rows;
use super::scale::Scale;

// How far steps may go, and how far pairs count as near, in units.
#[derive(Clone, Copy)]
struct Bounds {
    grid: i64,
    margin: i64,
    most: i64,
}

// The nearest number of the grid, whose unit is a power of 2.
fn on_grid(number: i64, grid: i64) -> i64 {
    number.wrapping_add(grid >> 1) & grid.wrapping_neg()
}

// The nearest numbers of the grid.
fn to_grid(numbers: &[i64], nearest: &mut [i64], grid: i64) {
    for (number, to) in numbers.iter().zip(nearest.iter_mut()) {
        *to = on_grid(*number, grid);
    }
}

fn up_to_grid(number: i64, grid: i64) -> i64 {
    number.wrapping_add(grid.wrapping_sub(1)) & grid.wrapping_neg()
}

// The steps are in the levels, and who waits for a further look in the scanned.
impl<'a> Lists<'a> {
    fn begin_keys(&mut self, grid: i64) {
        let duals = &mut *self.duals;
        let keys = &mut *self.keys;
        to_grid(duals, keys, grid);
    }

    // The greatest dual.
    fn top(&self) -> i64 {
        self.keys.iter().copied().max().unwrap_or(0)
    }

    // Duals of owned objects may rise as far as the greatest one.
    fn begin_below_top(&mut self, bounds: Bounds) {
        let top = self.top();
        let least = (self.objects.len() as u64).cast_signed().wrapping_add(2);
        let least = bounds.margin.wrapping_mul(least).wrapping_neg();
        for person in 0..self.objects.len() {
            let object = place_of(at(self.objects, person));
            let free = at(self.keys, object).wrapping_sub(top).max(least);
            put(self.levels, person, free);
        }
    }

    // The first steps. Returns whether they leave the unowned objects worse.
    fn begin_steps(&mut self, bounds: Bounds) -> bool {
        if self.has_unowned() {
            self.begin_below_top(bounds);
            return self.are_capped();
        }
        fill(self.levels, 0);
        true
    }

    // The steps that a person's near pairs need. Returns whether somebody waits for a further look by
    // them; none if they can't be taken.
    fn step(&mut self, person: usize, bounds: Bounds) -> Option<bool> {
        let mut has_more = false;
        let own = at(self.levels, person);
        for k in self.near_of(person) {
            let owner = place_of(at(self.near, k));
            let need = own.wrapping_sub(at(self.spare, k));
            if self.raise(owner, need, bounds)? {
                put(self.scanned, owner, 1);
                has_more = true;
            }
        }
        Some(has_more)
    }

    // The places of a person's near pairs.
    fn near_of(&self, person: usize) -> std::ops::Range<usize> {
        let from = at(self.starts, person);
        let to = at(self.starts, person.wrapping_add(1));
        place_of(from)..place_of(to)
    }

    // Raises a person's step to what is needed. Returns whether it was less; none if it can't rise.
    fn raise(&mut self, person: usize, need: i64, bounds: Bounds) -> Option<bool> {
        if need <= at(self.levels, person) {
            return Some(false);
        }
        let step = up_to_grid(need, bounds.grid);
        if step > bounds.most.min(at(self.caps, person)) {
            return None;
        }
        put(self.levels, person, step);
        Some(true)
    }

    // Counts, for each person, the near pairs of others with its object that aren't worse enough.
    fn count_tight(&mut self) {
        fill(self.scanned, 0);
        let persons = self.objects.len();
        let pairs = place_of(at(self.starts, persons));
        for k in 0..pairs {
            if at(self.spare, k) < 0 {
                let owner = place_of(at(self.near, k));
                let count = at(self.scanned, owner).wrapping_add(1);
                put(self.scanned, owner, count);
            }
        }
    }

    // Puts the persons without one first in order. Returns how many they are.
    fn begin_order(&mut self) -> usize {
        let mut count = 0usize;
        for person in 0..self.objects.len() {
            if at(self.scanned, person) == 0 {
                put(self.passed, count, number_of(person));
                count = count.wrapping_add(1);
            }
        }
        count
    }

    // The steps that a person's near pairs need, and the persons who are next in order by them.
    // Returns how many are in order; none if the steps can't be taken.
    fn step_in_order(&mut self, person: usize, count: usize, bounds: Bounds) -> Option<usize> {
        let mut count = count;
        let own = at(self.levels, person);
        for k in self.near_of(person) {
            let owner = place_of(at(self.near, k));
            let spare = at(self.spare, k);
            let _ = self.raise(owner, own.wrapping_sub(spare), bounds)?;
            if spare < 0 {
                let left = at(self.scanned, owner).wrapping_sub(1);
                put(self.scanned, owner, left);
                if left == 0 {
                    put(self.passed, count, number_of(owner));
                    count = count.wrapping_add(1);
                }
            }
        }
        Some(count)
    }

    // Steps of all persons in topological order (Kahn, Topological sorting of large networks, 1962),
    // each after those whose pairs need it. Where there is no order no prices make each pair worse.
    fn step_by_order(&mut self, bounds: Bounds) -> bool {
        self.count_tight();
        let mut count = self.begin_order();
        for place in 0..self.objects.len() {
            if place >= count {
                return false;
            }
            let person = place_of(at(self.passed, place));
            match self.step_in_order(person, count, bounds) {
                Some(next) => count = next,
                None => return false,
            }
        }
        true
    }

    // Whether the first steps leave the unowned objects worse.
    fn are_capped(&self) -> bool {
        self.levels
            .iter()
            .zip(self.caps.iter())
            .all(|(level, cap)| *level <= *cap)
    }

    // Steps of each person who waits for a look. Returns whether somebody still does.
    fn step_all(&mut self, bounds: Bounds) -> Option<bool> {
        let mut has_more = false;
        for person in 0..self.objects.len() {
            if at(self.scanned, person) != 0 {
                put(self.scanned, person, 0);
                has_more = self.step(person, bounds)? || has_more;
            }
        }
        Some(has_more)
    }

    // Steps of all persons once more, and of who waits, until nobody does.
    fn step_on(&mut self, bounds: Bounds) -> bool {
        fill(self.scanned, 1);
        for _ in 0..self.objects.len().saturating_add(16) {
            match self.step_all(bounds) {
                Some(true) => {}
                Some(false) => return true,
                None => return false,
            }
        }
        false
    }

    fn take_steps(&mut self, bounds: Bounds) -> bool {
        self.begin_steps(bounds) && self.step_by_order(bounds) && self.step_on(bounds)
    }

    // Puts the keys, less the steps, in place of the duals.
    fn enter_steps(&mut self) {
        for person in 0..self.objects.len() {
            let object = place_of(at(self.objects, person));
            let dual = at(self.keys, object).wrapping_sub(at(self.levels, person));
            put(self.keys, object, dual);
        }
        let keys = &mut *self.keys;
        let duals = &mut *self.duals;
        copy(keys, duals);
    }

    // Duals at which each near pair is worse by its margin, in place of these, which may be off by
    // so many units. Returns whether there are any.
    fn spread_of(
        &mut self,
        rows: &mut Rows<'_>,
        scale: Scale,
        margin: i64,
        of_equal: i64,
        off: i64,
    ) -> bool {
        let persons = (self.objects.len() as u64).cast_signed();
        let unit = scale.grid.max(off).max(margin >> 2);
        let bounds = Bounds {
            grid: scale.grid,
            margin: margin.max(off),
            most: unit.wrapping_mul(persons.wrapping_mul(8).wrapping_add(16)),
        };
        let nearness = Nearness {
            most: unit.wrapping_mul(persons.wrapping_mul(16).wrapping_add(64)),
            margin,
            of_equal,
            far: scale.far(),
            room: if of_equal == 0 {
                usize::MAX
            } else {
                self.objects.len().saturating_mul(3).saturating_add(16)
            },
        };
        self.begin_keys(bounds.grid);
        if !self.gather_near(rows, nearness) || !self.take_steps(bounds) {
            return false;
        }
        self.enter_steps();
        true
    }

    // Duals at which each other pair is worse by the margin that is wanted, or else each one whose
    // cost isn't the same by the least margin.
    pub fn spread(&mut self, rows: &mut Rows<'_>, scale: Scale, off: i64) -> bool {
        let least = scale.least_margin();
        let wanted = scale.wanted_margin();
        self.spread_of(rows, scale, wanted, wanted, off)
            || self.spread_of(rows, scale, least, 0, off)
    }
}
