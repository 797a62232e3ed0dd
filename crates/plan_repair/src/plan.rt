// A plan of few persons without an object, and what is mended of it.
use super::rows::{Rows, turned};
use cost_lists::{Object, Person, Price};
use search_base::{NOBODY, at, is_unowned, place_at, put};
use std::alloc::{AllocError, Global};

// A plan has at most so many persons without an object, and so many objects to bring down.
pub const MOST_MENDED: usize = 8;

/// A plan with prices, by places from 0. Beyond all persons are dummies, for which each object costs 0:
/// they own what nobody owns.
#[derive(Drop)]
pub struct Plan<'a> {
    pub rows: Rows<'a>,
    pub prices: Vec<Price>,
    pub objects: Vec<Object>,
    pub owners: Vec<Person>,
}

// Lowers the prices so that the least one is 0.
fn begin_at_zero(prices: &mut [Price]) {
    let least = prices.iter().copied().min().unwrap_or(0);
    for price in prices.iter_mut() {
        *price = price.wrapping_sub(least);
    }
}

// Enters who owns what. A person whose object is none, or somebody else's, has none.
fn enter_owners(objects: &mut [Object], owners: &mut [Person]) {
    for (person, object) in objects.iter_mut().enumerate() {
        if is_unowned(owners, *object) {
            put(owners, *object, place_at(person));
        } else {
            *object = NOBODY;
        }
    }
}

impl<'a> Plan<'a> {
    /// A plan with prices, whatever they are. Objects are given by their places.
    pub fn of(
        alloc: Global,
        rows: Rows<'a>,
        objects: &[Object],
        prices: &[Price],
    ) -> Result<Plan<'a>, AllocError> {
        let mut objects = objects.to_vec(alloc)?;
        let mut owners = vec![in alloc; NOBODY; prices.len()]?;
        enter_owners(objects.as_mut_slice(), owners.as_mut_slice());
        let mut prices = prices.to_vec(alloc)?;
        begin_at_zero(prices.as_mut_slice());
        Ok(Plan {
            rows,
            prices,
            objects,
            owners,
        })
    }

    pub fn begin_at_zero(&mut self) {
        begin_at_zero(self.prices.as_mut_slice());
    }

    pub fn is_square(&self) -> bool {
        self.objects.len() == self.prices.len()
    }

    pub fn price(&self, object: u32) -> Price {
        self.prices.get(object as usize).copied().unwrap_or(0)
    }

    pub fn owner(&self, object: u32) -> u32 {
        at(self.owners.as_slice(), object)
    }

    pub fn is_unowned(&self, object: u32) -> bool {
        is_unowned(self.owners.as_slice(), object)
    }

    // Whether an object lacks an owner: no dummy owns it, or its price is above theirs.
    pub fn is_left(&self, object: u32) -> bool {
        self.is_unowned(object) && (self.is_square() || self.price(object) > 0)
    }

    // What a person's own object costs with its price.
    pub fn value(&self, person: u32) -> Price {
        let object = at(self.objects.as_slice(), person);
        let cost = self.rows.cost(person, object);
        cost.wrapping_add(self.price(object))
    }

    pub fn set_price(&mut self, object: u32, price: Price) {
        if let Some(old) = self.prices.get_mut(object as usize) {
            *old = price;
        }
    }

    // Gives a person an object. Returns the one it had.
    pub fn give(&mut self, person: u32, object: u32) -> u32 {
        let former = at(self.objects.as_slice(), person);
        put(self.objects.as_mut_slice(), person, object);
        put(self.owners.as_mut_slice(), object, person);
        former
    }

    // Lets nobody but a dummy have an object.
    pub fn release(&mut self, object: u32) {
        let owner = self.owner(object);
        put(self.objects.as_mut_slice(), owner, NOBODY);
        put(self.owners.as_mut_slice(), object, NOBODY);
    }

    // The persons without an object, if they are few.
    pub fn persons_left(&self, alloc: Global) -> Result<Option<Vec<u32>>, AllocError> {
        let mut left = Vec::new(alloc);
        for (person, object) in self.objects.iter().enumerate() {
            if *object == NOBODY {
                if left.len() >= MOST_MENDED {
                    return Ok(None);
                }
                left.push(place_at(person))?;
            }
        }
        Ok(Some(left))
    }

    // The objects that lack an owner, if they are few.
    pub fn objects_left(&self, alloc: Global) -> Result<Option<Vec<u32>>, AllocError> {
        let mut left = Vec::new(alloc);
        for object in 0..self.owners.len() {
            if self.is_left(place_at(object)) {
                if left.len() >= MOST_MENDED {
                    return Ok(None);
                }
                left.push(place_at(object))?;
            }
        }
        Ok(Some(left))
    }

    // The greatest price of an object at which its person would take it, and how many persons would at
    // its price.
    pub fn greatest_bid(&self, object: u32) -> (Price, usize) {
        let (mut greatest, mut count) = (i64::MIN, 0usize);
        let price = self.price(object);
        for (person, own) in self.objects.iter().enumerate() {
            if *own != NOBODY && *own != object {
                let value = self.value(place_at(person));
                let bid = value.wrapping_sub(self.rows.cost(place_at(person), object));
                greatest = greatest.max(bid);
                count = count.wrapping_add((bid > price) as usize);
            }
        }
        (greatest, count)
    }

    // How far an object is from the own one of each person.
    pub fn steps_to(&self, alloc: Global, object: u32) -> Result<Vec<Price>, AllocError> {
        let mut steps = self.values(alloc)?;
        let price = self.price(object);
        for (person, step) in steps.iter_mut().enumerate() {
            let sum = self.rows.cost(place_at(person), object).wrapping_add(price);
            *step = sum.wrapping_sub(*step);
        }
        Ok(steps)
    }

    // The price at which nobody leaves its object for one that lacks an owner, and somebody nearly does.
    pub fn settle_price(&mut self, object: u32) {
        let (bid, _) = self.greatest_bid(object);
        if bid == i64::MIN {
            return;
        }
        let least = if self.is_square() { i64::MIN } else { 0 };
        self.set_price(object, bid.max(least));
    }

    // What each person's own object costs with its price.
    pub fn values(&self, alloc: Global) -> Result<Vec<Price>, AllocError> {
        let mut values = vec![in alloc; 0i64; self.objects.len()]?;
        for (person, value) in values.iter_mut().enumerate() {
            *value = self.value(place_at(person));
        }
        Ok(values)
    }

    // A person's best object.
    fn best_of(&self, person: u32) -> u32 {
        let (mut best, mut least) = (NOBODY, i64::MAX);
        for (k, cost) in self.rows.row(person).iter().enumerate() {
            let object = place_at(k);
            let sum = turned(self.rows.sense, *cost).wrapping_add(self.price(object));
            if sum < least {
                best = object;
                least = sum;
            }
        }
        best
    }

    // Lets go the object of a person that prefers another one; or that one, where others prefer it too
    // or nobody owns it: then its costs have changed.
    pub fn let_go(&mut self, person: usize) {
        let person = place_at(person);
        let best = self.best_of(person);
        let (bid, count) = self.greatest_bid(best);
        if count > 1 || self.is_unowned(best) {
            self.release(best);
            self.set_price(best, bid);
        } else {
            let own = at(self.objects.as_slice(), person);
            self.release(own);
        }
    }
}
