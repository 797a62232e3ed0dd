// Prices and owners during a search.
use search_base::{NOBODY, at, is_unowned, place_at, put};
use std::alloc::{AllocError, Global};

// Greater first prices, and lower ones than its negative, are cut.
const PRICE_CUT: i64 = 1 << 60;

/// The price and the owner of each object, and the object of each person, by places from 0.
#[derive(Drop)]
pub struct Market {
    pub prices: Vec<i64>,
    pub owners: Vec<u32>,
    pub objects: Vec<u32>,
}

fn clear(places: &mut [u32]) {
    for place in places.iter_mut() {
        *place = NOBODY;
    }
}

impl Market {
    /// A market at prices of 0, in which nobody owns an object.
    pub fn new(alloc: Global, persons: usize, objects: usize) -> Result<Market, AllocError> {
        Ok(Market {
            prices: vec![in alloc; 0i64; objects]?,
            owners: vec![in alloc; NOBODY; objects]?,
            objects: vec![in alloc; NOBODY; persons]?,
        })
    }

    /// Gives an object to a person who has none.
    pub fn give(&mut self, object: u32, person: u32) {
        put(self.owners.as_mut_slice(), object, person);
        put(self.objects.as_mut_slice(), person, object);
    }

    /// Takes a person's object from it.
    pub fn leave(&mut self, person: u32) {
        let object = at(self.objects.as_slice(), person);
        put(self.owners.as_mut_slice(), object, NOBODY);
        put(self.objects.as_mut_slice(), person, NOBODY);
    }

    /// Takes all objects from their owners.
    pub fn release_all(&mut self) {
        clear(self.owners.as_mut_slice());
        clear(self.objects.as_mut_slice());
    }

    /// Takes over who has which object; of several persons with one object the first keeps it.
    pub fn take_plan(&mut self, objects: &[u32]) {
        self.release_all();
        for (person, object) in objects.iter().enumerate() {
            if is_unowned(self.owners.as_slice(), *object) {
                self.give(*object, place_at(person));
            }
        }
    }

    /// The persons without an object.
    pub fn unassigned(&self, alloc: Global) -> Result<Vec<u32>, AllocError> {
        let mut persons = Vec::new(alloc);
        for (person, object) in self.objects.iter().enumerate() {
            if *object == NOBODY {
                persons.push(place_at(person))?;
            }
        }
        Ok(persons)
    }

    /// How many persons have no object.
    pub fn count_unassigned(&self) -> usize {
        let mut count = 0usize;
        for object in &self.objects {
            if *object == NOBODY {
                count = count.wrapping_add(1);
            }
        }
        count
    }

    /// How many unowned objects are dearer than the cheapest object.
    pub fn count_overpriced(&self) -> usize {
        let least = self.least_price();
        let mut count = 0usize;
        for (price, owner) in self.prices.iter().zip(&self.owners) {
            if *owner == NOBODY && *price > least {
                count = count.wrapping_add(1);
            }
        }
        count
    }

    /// Takes over prices, which are cut where sums with them could leave the range.
    pub fn set_prices(&mut self, prices: &[i64]) {
        for (price, given) in self.prices.iter_mut().zip(prices) {
            *price = (*given).min(PRICE_CUT).max(PRICE_CUT.wrapping_neg());
        }
    }

    /// Sets all prices to 0.
    pub fn clear_prices(&mut self) {
        for price in self.prices.iter_mut() {
            *price = 0;
        }
    }

    /// Multiplies all prices by a power of 2.
    pub fn scale_prices(&mut self, shift: u32) {
        for price in self.prices.iter_mut() {
            *price = price.wrapping_shl(shift);
        }
    }

    /// The least price.
    pub fn least_price(&self) -> i64 {
        let mut least = i64::MAX;
        for price in &self.prices {
            least = least.min(*price);
        }
        least
    }

    /// The sum of all prices above the least one, for each person.
    pub fn mean_price(&self) -> i64 {
        let least = self.least_price();
        let mut sum = 0i64;
        for price in &self.prices {
            sum = sum.saturating_add(price.saturating_sub(least));
        }
        let persons = (self.objects.len() as u64 & 0xffff_ffff) as i64;
        sum.checked_div(persons).unwrap_or(0)
    }

    /// Brings prices to the unit of the costs, with the least one at 0. A gap of two prices that was
    /// enough for a cost is so afterwards, since costs are whole.
    pub fn bring_to_costs(&mut self, shift: u32) {
        let least = self.least_price();
        for price in self.prices.iter_mut() {
            *price = price.wrapping_sub(least).wrapping_shr(shift);
        }
    }
}
