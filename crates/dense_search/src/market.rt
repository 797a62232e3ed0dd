// Prices and owners during a search.
use super::number::{Number, least_of};
use search_base::{NOBODY, at, place_at, put};
use std::alloc::{AllocError, Global};

// The price and the owner of each object, and the object of each person, by places from 0.
#[derive(Drop)]
pub struct Market<'a, K> {
    pub prices: &'a mut [K],
    pub owners: Vec<u32>,
    pub objects: &'a mut [u32],
}

impl<'a, K: Number> Market<'a, K> {
    // A market at these prices, with these objects of the persons.
    pub fn new(
        alloc: Global,
        prices: &'a mut [K],
        objects: &'a mut [u32],
    ) -> Result<Market<'a, K>, AllocError> {
        let owners = vec![in alloc; NOBODY; prices.len()]?;
        let mut market = Market {
            prices,
            owners,
            objects,
        };
        market.enter_objects();
        Ok(market)
    }

    // Enters the owner of each object again, by the objects of the persons. A person keeps an object
    // if nobody before it has it.
    pub fn enter_objects(&mut self) {
        self.enter_nobody();
        for k in 0..self.objects.len() {
            let object = self.objects[k];
            let at = object as usize;
            if at < self.owners.len() && self.owners[at] == NOBODY {
                self.owners[at] = place_at(k);
            } else {
                self.objects[k] = NOBODY;
            }
        }
    }

    pub fn price(&self, object: u32) -> K {
        self.prices
            .get(object as usize)
            .copied()
            .unwrap_or(K::zero())
    }

    pub fn owner(&self, object: u32) -> u32 {
        at(self.owners.as_slice(), object)
    }

    pub fn object(&self, person: u32) -> u32 {
        at(self.objects, person)
    }

    pub fn raise(&mut self, object: u32, by: K) {
        let at = object as usize;
        if at < self.prices.len() {
            self.prices[at] = self.prices[at].plus(by);
        }
    }

    pub fn set_price(&mut self, object: u32, price: K) {
        let at = object as usize;
        if at < self.prices.len() {
            self.prices[at] = price;
        }
    }

    // Gives an object to a person; who had it keeps it in its own entry.
    pub fn give(&mut self, object: u32, person: u32) {
        put(self.owners.as_mut_slice(), object, person);
        put(self.objects, person, object);
    }

    // Takes a person's object from it.
    pub fn release(&mut self, person: u32) {
        let object = self.object(person);
        if self.owner(object) == person {
            put(self.owners.as_mut_slice(), object, NOBODY);
        }
        put(self.objects, person, NOBODY);
    }

    // Takes all objects from their owners.
    pub fn release_all(&mut self) {
        for object in self.objects.iter_mut() {
            *object = NOBODY;
        }
        self.enter_nobody();
    }

    fn enter_nobody(&mut self) {
        for owner in self.owners.iter_mut() {
            *owner = NOBODY;
        }
    }

    // The number of persons without an object.
    pub fn unassigned(&self) -> usize {
        self.objects
            .iter()
            .filter(|object| **object == NOBODY)
            .count()
    }

    // The objects that nobody owns.
    pub fn unowned(&self, alloc: Global) -> Result<Vec<u32>, AllocError> {
        let mut unowned = Vec::new(alloc);
        for (k, owner) in self.owners.iter().enumerate() {
            if *owner == NOBODY {
                unowned.push(place_at(k))?;
            }
        }
        Ok(unowned)
    }

    // Whether an unowned object is dearer than this price.
    pub fn has_unowned_above(&self, limit: K) -> bool {
        for (price, owner) in self.prices.iter().zip(&self.owners) {
            if *owner == NOBODY && limit.is_below(*price) {
                return true;
            }
        }
        false
    }

    // Whether an unowned object is dearer than the cheapest one.
    pub fn has_overpriced_unowned(&self) -> bool {
        self.has_unowned_above(self.least_price())
    }

    // The least price.
    pub fn least_price(&self) -> K {
        let first = self.prices.first().copied().unwrap_or(K::zero());
        least_of(self.prices, first)
    }
}
