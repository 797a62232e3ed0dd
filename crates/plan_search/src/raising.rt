// Prices that prove the best plan of a part without one pair of another plan.
use super::leaf::Leaf;
use super::paths::Paths;
use super::values::{place_of, set_value, value_at};
use assign_core::Cost;
use cost_lists::{Object, Price};
use std::alloc::{AllocError, Global};

/// A search along the pairs of a part, from the person of that pair.
#[derive(Drop)]
pub struct Raising {
    /// How far the persons are, by their places, and after them nobody, who has the unowned objects.
    paths: Paths,
}

impl Raising {
    pub fn new(alloc: Global, persons: usize) -> Result<Raising, AllocError> {
        Ok(Raising {
            paths: Paths::new(alloc, persons.wrapping_add(1))?,
        })
    }

    // Looks at the pairs of a person, for ways shorter than this.
    fn look(&mut self, leaf: Leaf<'_>, person: usize, length: Cost) -> Result<(), AllocError> {
        let (objects, costs, closed) = leaf.pairs.of(person);
        let before = self
            .paths
            .distance(person)
            .wrapping_sub(leaf.own_sum(person));
        for ((object, cost), is_closed) in objects.iter().zip(costs.iter()).zip(closed.iter()) {
            let price = value_at(leaf.prices, place_of(*object), 0);
            let longer = before.wrapping_add(cost.wrapping_add(price));
            if longer < length && !*is_closed {
                let _is_shorter = self.paths.reach(leaf.owner(*object), longer)?;
            }
        }
        Ok(())
    }

    // From nobody ways lead to all persons, and are longer by the price.
    fn look_from_nobody(&mut self, leaf: Leaf<'_>, length: Cost) -> Result<(), AllocError> {
        let before = self.paths.distance(leaf.objects.len());
        for (person, object) in leaf.objects.iter().enumerate() {
            let price = value_at(leaf.prices, place_of(*object), Cost::MAX);
            let longer = before.saturating_add(price);
            if longer < length {
                let _is_shorter = self.paths.reach(person, longer)?;
            }
        }
        Ok(())
    }

    /// Finds the ways from a person that are shorter than the least cycle through it, which is this long.
    pub fn search(
        &mut self,
        leaf: Leaf<'_>,
        first: usize,
        length: Cost,
        arc_scans: &mut u64,
    ) -> Result<(), AllocError> {
        self.paths.clear();
        let _is_first = self.paths.reach(first, 0)?;
        for _ in 0..leaf.pairs.size().saturating_add(leaf.objects.len()) {
            let Some((person, _)) = self.paths.next() else {
                return Ok(());
            };
            let (objects, _, _) = leaf.pairs.of(person);
            *arc_scans = arc_scans.saturating_sub((objects.len() as u64).saturating_add(1));
            if person == leaf.objects.len() {
                self.look_from_nobody(leaf, length)?;
            } else if !leaf.pairs.keeps(person) {
                self.look(leaf, person, length)?;
            }
        }
        Ok(())
    }

    // By how much the prices of the objects of a person rise.
    fn rise(&self, person: usize, length: Cost) -> Cost {
        length.saturating_sub(self.paths.distance(person)).max(0)
    }

    /// Raises the prices of a plan's objects, so that the pairs of the cycle have no reduced cost.
    pub fn raise(&self, prices: &mut [Price], objects: &[Object], first: usize, length: Cost) {
        let of_nobody = self.rise(objects.len(), length);
        for (person, object) in objects.iter().enumerate() {
            let rise = if person == first {
                0
            } else {
                self.rise(person, length)
            };
            let price = value_at(prices, place_of(*object), 0).wrapping_add(rise);
            set_value(prices, place_of(*object), price.wrapping_sub(of_nobody));
        }
    }
}
