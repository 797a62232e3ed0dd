// Plans that are near a best one: two persons change places, or one takes an object that nobody owns.
use super::arcs::{Best, owners_of, sum_of};
use super::least::Least;
use super::values::{place_of, value_at};
use assign_core::Cost;
use cost_lists::{Object, Source};
use std::alloc::{AllocError, Global};

/// How much more these plans cost than the best one, where each pair has a cost.
#[derive(Drop)]
struct Swaps<'a> {
    costs: &'a [Cost],
    best: Best<'a>,
    /// The person of each object by its place, or the number of persons.
    owners: Vec<usize>,
    /// The own cost of each person.
    own: Vec<Cost>,
    least: Least,
    /// Only what is less is among them.
    most: Cost,
}

impl Swaps<'_> {
    fn own(&self, person: usize) -> Cost {
        value_at(self.own.as_slice(), person, 0)
    }

    // How much more an object costs a person than its own one.
    fn more(&self, person: usize, object: Object) -> Cost {
        let at = person
            .wrapping_mul(self.best.prices.len())
            .wrapping_add(place_of(object));
        let cost = value_at(self.costs, at, 0);
        sum_of(self.best.sense, cost, 0).wrapping_sub(self.own(person))
    }

    fn add(&mut self, more: Cost) -> Result<(), AllocError> {
        if more < self.most {
            self.least.add(more)?;
            self.most = self.least.greatest().unwrap_or(Cost::MAX);
        }
        Ok(())
    }

    // Adds the plans in which a person changes places with one after it, or with nobody.
    fn add_row(&mut self, row: &[Cost], person: usize) -> Result<(), AllocError> {
        let own = value_at(self.best.objects, person, 0);
        for (place, cost) in row.iter().enumerate() {
            let owner = value_at(self.owners.as_slice(), place, 0);
            if owner > person {
                let mut more = sum_of(self.best.sense, *cost, 0).wrapping_sub(self.own(person));
                if owner < self.own.len() {
                    more = more.wrapping_add(self.more(owner, own));
                }
                self.add(more)?;
            }
        }
        Ok(())
    }

    fn add_rows(&mut self) -> Result<(), AllocError> {
        let mut rest = self.costs;
        for person in 0..self.best.objects.len() {
            let (row, others) = rest.split_at(self.best.prices.len().min(rest.len()));
            rest = others;
            self.add_row(row, person)?;
        }
        Ok(())
    }
}

// The own cost of each person.
fn own_costs(alloc: Global, best: Best<'_>) -> Result<Vec<Cost>, AllocError> {
    let mut own = Vec::from_slice(alloc, best.sums)?;
    for (cost, object) in own.iter_mut().zip(best.objects.iter()) {
        *cost = cost.wrapping_sub(value_at(best.prices, place_of(*object), 0));
    }
    Ok(own)
}

// How many of these plans are to cost less than the bound: about the root of what is wanted, since
// other plans are below it too, and the more of them, the more are wanted. Where there are many costs
// most others are.
fn few_of(count: usize, costs: usize) -> usize {
    let mut few = 1usize;
    let count = if costs > FEW_COSTS { count / 8 } else { count };
    for _ in 0..usize::BITS {
        if few.saturating_mul(few) >= count {
            break;
        }
        few = few.saturating_mul(2);
    }
    few
}

// More costs are looked at by the cores alone, of which the first ones take little time then: with 80
// rows a look at all takes longer than these.
const MOST_COSTS: usize = 1 << 12;

// Up to so many costs a plan near the best one mostly changes two persons.
const FEW_COSTS: usize = 1 << 10;

/// A bound of reduced costs below which there may be so many plans besides the best one. It is the least
/// one where looking for another takes long, and the greatest where there are few plans.
pub fn first_bound(
    alloc: Global,
    source: Source<'_>,
    best: Best<'_>,
    count: usize,
) -> Result<Cost, AllocError> {
    let Source::Dense(costs) = source else {
        return Ok(1);
    };
    if costs.len() > MOST_COSTS || count == 0 {
        return Ok(1);
    }
    let mut swaps = Swaps {
        costs,
        best,
        owners: owners_of(alloc, best.objects, best.prices.len())?,
        own: own_costs(alloc, best)?,
        least: Least::new(alloc, few_of(count, costs.len())),
        most: Cost::MAX,
    };
    swaps.add_rows()?;
    Ok(swaps.most.saturating_add(1).max(1))
}
