// Bids: a person takes its best object and lowers its dual until the second best is as good; the
// person that owned it bids next (the augmenting row reduction of Jonker and Volgenant, 1987).
use super::best::first_unowned;
use super::lists::{Lists, NOBODY, at, place_of, put};
use super::rows::Rows;
use super::whole::FAR;

impl<'a> Lists<'a> {
    // Gives a person an unowned object of this value, if there is one.
    fn give_unowned(&mut self, rows: &mut Rows<'_>, person: usize, value: i64) {
        let duals = &mut *self.duals;
        let owners = &mut *self.owners;
        let unowned = match rows {
            Rows::Cheap(_) => None,
            _ => first_unowned(rows.row(person), duals, owners, value),
        };
        if let Some(object) = unowned {
            self.give(person, object);
        }
    }

    // One bid: the person who lost its object by it, or nobody.
    fn bid(&mut self, rows: &mut Rows<'_>, person: usize) -> i64 {
        let two = rows.two_best(person, self.duals);
        if two.best >= FAR {
            return NOBODY;
        }
        let owner = at(self.owners, two.object);
        let gap = if two.second >= FAR {
            0
        } else {
            two.second.wrapping_sub(two.best)
        };
        if owner != NOBODY && gap <= 0 {
            self.give_unowned(rows, person, two.best);
            return NOBODY;
        }
        let dual = at(self.duals, two.object).wrapping_sub(gap);
        put(self.duals, two.object, dual);
        self.give(person, two.object);
        if owner != NOBODY {
            self.take(place_of(owner));
        }
        owner
    }

    // At most `most` bids of a person and of those who lose their objects in turn. Returns how many.
    fn bid_on(&mut self, rows: &mut Rows<'_>, first: usize, most: usize) -> usize {
        let mut person = first;
        for made in 0..most {
            let loser = self.bid(rows, person);
            if loser == NOBODY {
                return made;
            }
            person = place_of(loser);
        }
        most
    }

    // Bids of each person without an object.
    pub fn bid_all(&mut self, rows: &mut Rows<'_>) {
        let persons = self.objects.len();
        let in_turn = persons.saturating_mul(2).saturating_add(4);
        let mut left = persons.saturating_mul(3).saturating_add(8);
        for person in 0..persons {
            if at(self.objects, person) == NOBODY {
                let made = self.bid_on(rows, person, in_turn.min(left).max(1));
                left = left.saturating_sub(made);
            }
        }
    }
}

// The lesser of a dual and a cost, for each object.
fn lower(row: &[i64], duals: &mut [i64]) {
    for (dual, cost) in duals.iter_mut().zip(row) {
        *dual = (*cost).min(*dual);
    }
}

fn show_unlisted(duals: &mut [i64]) {
    for dual in duals.iter_mut() {
        *dual = if *dual >= FAR { 0 } else { *dual };
    }
}

// First duals of as many objects as persons: the least cost of each object.
pub fn begin_with_least(costs: &[i64], duals: &mut [i64]) {
    for row in costs.chunks(duals.len().max(1)) {
        lower(row, duals);
    }
    show_unlisted(duals);
}
