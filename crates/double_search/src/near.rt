// The near pairs at a plan: those of a person and an object that is worse than its own by less than
// so much.
use super::best::{bits_below, block_of, lowest, others};
use super::cheap::CheapPair;
use super::lists::{Lists, NOBODY, at, number_of, place_of, put};
use super::reach::BLOCK;
use super::rows::Rows;
use super::whole::FAR;

// Which pairs are near, and by how much they are to be worse.
#[derive(Clone, Copy)]
pub struct Nearness {
    pub most: i64,
    pub margin: i64,
    // The margin of objects with the same cost.
    pub of_equal: i64,
    // Costs from this one on are far.
    pub far: i64,
    // The most near pairs.
    pub room: usize,
}

// A person's own object, with its cost and its value.
#[derive(Clone, Copy)]
struct Own {
    object: usize,
    cost: i64,
    value: i64,
}

// How many near pairs there are, and how far the own value may rise for the unowned objects.
#[derive(Clone, Copy)]
struct Kept {
    count: usize,
    cap: i64,
}

impl Nearness {
    fn margin_of(self, cost: i64, own: i64) -> i64 {
        if cost == own {
            self.of_equal
        } else {
            self.margin
        }
    }
}

impl<'a> Lists<'a> {
    fn own_of(&self, rows: &Rows<'_>, person: usize) -> Own {
        let object = place_of(at(self.objects, person));
        let cost = rows.cost(person, object);
        Own {
            object,
            cost,
            value: cost.wrapping_sub(at(self.keys, object)),
        }
    }

    // Keeps a pair, if it is near, as far as there is room: the owner of its object, and by how much
    // more it is worse than it has to be.
    fn keep(&mut self, cost: i64, object: usize, own: Own, nearness: Nearness, kept: Kept) -> Kept {
        let value = cost.wrapping_sub(at(self.keys, object));
        let worse = value.wrapping_sub(own.value);
        if worse >= nearness.most || object == own.object || cost >= nearness.far {
            return kept;
        }
        let left = worse.wrapping_sub(nearness.margin_of(cost, own.cost));
        let owner = at(self.owners, object);
        if owner == NOBODY {
            return Kept {
                cap: kept.cap.min(left),
                ..kept
            };
        }
        put(self.near, kept.count, owner);
        put(self.spare, kept.count, left);
        Kept {
            count: kept.count.wrapping_add(1),
            ..kept
        }
    }

    // The objects of a block that may be near, as bits.
    fn bits_near(&self, costs: &[i64], from: usize, limit: i64) -> u64 {
        let keys = &*self.keys;
        bits_below(block_of(costs, from), block_of(keys, from), limit)
    }

    // Keeps the near pairs of a person and the objects of a block.
    fn keep_block(
        &mut self,
        costs: &[i64],
        from: usize,
        own: Own,
        nearness: Nearness,
        kept: Kept,
    ) -> Kept {
        let mut kept = kept;
        let bits = self.bits_near(costs, from, own.value.wrapping_add(nearness.most));
        let mut left = bits;
        for _ in 0..bits.count_ones() {
            let object = from.wrapping_add(lowest(left));
            kept = self.keep(at(costs, object), object, own, nearness, kept);
            left = others(left);
        }
        kept
    }

    fn keep_row(&mut self, costs: &[i64], own: Own, nearness: Nearness, count: usize) -> Kept {
        let mut kept = Kept { count, cap: FAR };
        for from in (0..costs.len()).step_by(BLOCK) {
            kept = self.keep_block(costs, from, own, nearness, kept);
        }
        kept
    }

    fn keep_cheap(
        &mut self,
        pairs: &[CheapPair],
        own: Own,
        nearness: Nearness,
        count: usize,
    ) -> Kept {
        let mut kept = Kept { count, cap: FAR };
        for pair in pairs {
            kept = self.keep(pair.cost, pair.object, own, nearness, kept);
        }
        kept
    }

    // Keeps the near pairs of a person: among its cheap ones, where no others can be near. No key is
    // above 0 then.
    fn keep_near(
        &mut self,
        rows: &mut Rows<'_>,
        person: usize,
        nearness: Nearness,
        count: usize,
    ) -> Kept {
        let own = self.own_of(rows, person);
        let limit = nearness.far.min(own.value.wrapping_add(nearness.most));
        match rows {
            Rows::Cheap(rows) if rows.cheap.rest(person) >= limit => {
                self.keep_cheap(rows.cheap.of(person), own, nearness, count)
            }
            _ => self.keep_row(rows.row(person), own, nearness, count),
        }
    }

    // Lists the near pairs at the duals in the keys. Returns whether there is room for them.
    pub fn gather_near(&mut self, rows: &mut Rows<'_>, nearness: Nearness) -> bool {
        let persons = self.objects.len();
        let room = self.near.len().min(nearness.room);
        let mut count = 0usize;
        for person in 0..persons {
            put(self.starts, person, number_of(count));
            let kept = self.keep_near(rows, person, nearness, count);
            put(self.caps, person, kept.cap);
            count = kept.count;
            if count > room {
                return false;
            }
        }
        put(self.starts, persons, number_of(count));
        true
    }
}
