// Pairs that lie in no assignment of all persons. Given one such assignment, a person points to the
// owners of the objects that it lists; a pair whose two persons lie in different strongly connected
// components (Tarjan 1972) can be dropped. Persons who reach an unowned object are one component.
use super::market::Market;
use super::problem::{Pair, SparseProblem};
use super::row::{FAR, own_cost};
use search_base::{ArcScans, NOBODY, at, place_at, put};
use std::alloc::{AllocError, Global};

/// The component of each person, and the persons component by component: a component stands after those that it
/// reaches.
#[derive(Drop)]
pub struct Components {
    components: Vec<u32>,
    order: Vec<u32>,
    count: u32,
    owners: Vec<u32>,
}

/// The pairs that stay.
#[derive(Drop)]
pub struct KeptPairs {
    pub starts: Vec<usize>,
    pub pairs: Vec<Pair>,
}

// Tarjan's walk in depth: numbers in the order of the first visit, the lowest number reached, the next
// pair of each row, the persons in no component so far, and the path.
#[derive(Drop)]
struct Walk {
    numbers: Vec<u32>,
    lowest: Vec<u32>,
    next: Vec<u32>,
    open: Vec<u32>,
    path: Vec<u32>,
    visited: u32,
    found: Components,
}

impl Walk {
    fn new(alloc: Global, persons: usize, owners: Vec<u32>) -> Result<Walk, AllocError> {
        Ok(Walk {
            numbers: vec![in alloc; 0u32; persons]?,
            lowest: vec![in alloc; 0u32; persons]?,
            next: vec![in alloc; 0u32; persons]?,
            open: Vec::new(alloc),
            path: Vec::new(alloc),
            visited: 0,
            found: Components {
                components: vec![in alloc; NOBODY; persons]?,
                order: Vec::new(alloc),
                count: 0,
                owners,
            },
        })
    }

    fn enter(&mut self, person: u32) -> Result<(), AllocError> {
        self.visited = self.visited.wrapping_add(1);
        put(self.numbers.as_mut_slice(), person, self.visited);
        put(self.lowest.as_mut_slice(), person, self.visited);
        self.open.push(person)?;
        Ok(self.path.push(person)?)
    }

    fn lower(&mut self, person: u32, number: u32) {
        let lowest = at(self.lowest.as_slice(), person).min(number);
        put(self.lowest.as_mut_slice(), person, lowest);
    }

    // The next person, not visited so far, whose object this one lists.
    fn look_on(&mut self, row: &[Pair], person: u32) -> u32 {
        let from = at(self.next.as_slice(), person) as usize;
        for (k, pair) in row.iter().enumerate().skip(from) {
            let owner = at(self.found.owners.as_slice(), pair.object);
            let number = at(self.numbers.as_slice(), owner);
            if number == 0 {
                put(
                    self.next.as_mut_slice(),
                    person,
                    place_at(k.wrapping_add(1)),
                );
                return owner;
            }
            if owner != NOBODY && at(self.found.components.as_slice(), owner) == NOBODY {
                self.lower(person, number);
            }
        }
        NOBODY
    }

    // Everybody since this person is one component.
    fn close_component(&mut self, first: u32) -> Result<(), AllocError> {
        for _member in 0..self.open.len() {
            let Some(person) = self.open.pop() else {
                break;
            };
            put(
                self.found.components.as_mut_slice(),
                person,
                self.found.count,
            );
            self.found.order.push(person)?;
            if person == first {
                break;
            }
        }
        self.found.count = self.found.count.wrapping_add(1);
        Ok(())
    }

    // A person whose pairs are all seen.
    fn leave(&mut self, person: u32) -> Result<(), AllocError> {
        let _ = self.path.pop();
        let lowest = at(self.lowest.as_slice(), person);
        if let Some(before) = self.path.last().copied() {
            self.lower(before, lowest);
        }
        if lowest == at(self.numbers.as_slice(), person) {
            self.close_component(person)?;
        }
        Ok(())
    }

    // Everybody that a person reaches.
    fn walk_from(&mut self, problem: SparseProblem<'_>, first: u32) -> Result<(), AllocError> {
        self.enter(first)?;
        for _step in 0..self.numbers.len().saturating_mul(2).saturating_add(1) {
            let Some(person) = self.path.last().copied() else {
                return Ok(());
            };
            let next = self.look_on(problem.row(person), person);
            if next == NOBODY {
                self.leave(person)?;
            } else {
                self.enter(next)?;
            }
        }
        Ok(())
    }

    fn walk(&mut self, problem: SparseProblem<'_>) -> Result<(), AllocError> {
        for person in 0..place_at(problem.persons()) {
            if at(self.numbers.as_slice(), person) == 0 {
                self.walk_from(problem, person)?;
            }
        }
        Ok(())
    }
}

/// The components, given the owners of an assignment of all persons.
pub fn find_components(
    alloc: Global,
    problem: SparseProblem<'_>,
    owners: Vec<u32>,
    arc_scans: &mut ArcScans,
) -> Result<Components, AllocError> {
    let mut walk = Walk::new(alloc, problem.persons(), owners)?;
    walk.walk(problem)?;
    arc_scans.add(problem.pairs.len());
    walk.found.join_open(alloc, problem)?;
    arc_scans.add(problem.pairs.len());
    let Walk { found, .. } = walk;
    Ok(found)
}

impl Components {
    fn component(&self, person: u32) -> u32 {
        at(self.components.as_slice(), person)
    }

    // Whether a row lists an unowned object, or an object of an open component.
    fn is_open(&self, row: &[Pair], open: &[bool]) -> bool {
        row.iter().any(|pair| {
            let owner = at(self.owners.as_slice(), pair.object);
            let component = at(self.components.as_slice(), owner) as usize;
            owner == NOBODY || open.get(component).copied().unwrap_or(false)
        })
    }

    // The components from which an unowned object is reached.
    fn open_components(
        &self,
        alloc: Global,
        problem: SparseProblem<'_>,
    ) -> Result<Vec<bool>, AllocError> {
        let mut open = vec![in alloc; false; self.count as usize]?;
        for person in &self.order {
            let component = self.component(*person) as usize;
            if component < open.len() && self.is_open(problem.row(*person), open.as_slice()) {
                open[component] = true;
            }
        }
        Ok(open)
    }

    // Makes one component of these.
    fn join_open(&mut self, alloc: Global, problem: SparseProblem<'_>) -> Result<(), AllocError> {
        let open = self.open_components(alloc, problem)?;
        let count = self.count;
        for component in self.components.as_mut_slice().iter_mut() {
            if open.get(*component as usize).copied().unwrap_or(false) {
                *component = count;
            }
        }
        Ok(())
    }

    fn stays(&self, person: u32, pair: Pair) -> bool {
        let owner = at(self.owners.as_slice(), pair.object);
        owner == NOBODY || self.component(owner) == self.component(person)
    }

    /// How many pairs stay.
    pub fn count_kept(&self, problem: SparseProblem<'_>) -> usize {
        let mut count = 0usize;
        for person in 0..place_at(problem.persons()) {
            let kept = self.count_in_row(problem.row(person), person);
            count = count.wrapping_add(kept);
        }
        count
    }

    fn count_in_row(&self, row: &[Pair], person: u32) -> usize {
        let mut count = 0usize;
        for pair in row {
            if self.stays(person, *pair) {
                count = count.wrapping_add(1);
            }
        }
        count
    }

    fn keep_row(&self, row: &[Pair], person: u32, pairs: &mut Vec<Pair>) -> Result<(), AllocError> {
        for pair in row {
            if self.stays(person, *pair) {
                pairs.push(*pair)?;
            }
        }
        Ok(())
    }

    /// The pairs that stay.
    pub fn kept_pairs(
        &self,
        alloc: Global,
        problem: SparseProblem<'_>,
    ) -> Result<KeptPairs, AllocError> {
        let mut kept = KeptPairs {
            starts: Vec::new(alloc),
            pairs: Vec::new(alloc),
        };
        for person in 0..place_at(problem.persons()) {
            kept.starts.push(kept.pairs.len())?;
            self.keep_row(problem.row(person), person, &mut kept.pairs)?;
        }
        kept.starts.push(kept.pairs.len())?;
        Ok(kept)
    }

    // Raises components as far as a person of another component needs it not to want their objects.
    fn raise_from(&self, row: &[Pair], person: u32, market: &Market, raises: &mut [i64]) {
        let object = at(market.objects.as_slice(), person);
        let price = market.prices.get(object as usize).copied().unwrap_or(0);
        let raise = raises
            .get(self.component(person) as usize)
            .copied()
            .unwrap_or(0);
        let own = own_cost(row, object)
            .wrapping_add(price)
            .wrapping_add(raise);
        for pair in row {
            let owner = at(self.owners.as_slice(), pair.object);
            let component = self.component(owner) as usize;
            let price = market.prices.get(pair.object as usize).copied();
            let value = pair.cost.wrapping_add(price.unwrap_or(FAR));
            if !self.stays(person, *pair) && component < raises.len() {
                raises[component] = raises[component].max(own.wrapping_sub(value));
            }
        }
    }

    // The raises by the persons of the open component, or by all others.
    fn raise_components(
        &self,
        problem: SparseProblem<'_>,
        market: &Market,
        is_open: bool,
        raises: &mut [i64],
    ) {
        for person in self.order.iter().rev() {
            if (self.component(*person) == self.count) == is_open {
                self.raise_from(problem.row(*person), *person, market, raises);
            }
        }
    }

    /// Raises the prices of an assignment within components, in the unit of the costs, so that they hold for
    /// all pairs.
    pub fn lift_prices(
        &self,
        alloc: Global,
        problem: SparseProblem<'_>,
        market: &mut Market,
    ) -> Result<(), AllocError> {
        let mut raises = vec![in alloc; 0i64; (self.count as usize).saturating_add(1)]?;
        self.raise_components(problem, market, true, raises.as_mut_slice());
        self.raise_components(problem, market, false, raises.as_mut_slice());
        for person in 0..place_at(problem.persons()) {
            let place = at(market.objects.as_slice(), person) as usize;
            let raise = raises
                .get(self.component(person) as usize)
                .copied()
                .unwrap_or(0);
            if place < market.prices.len() {
                market.prices[place] = market.prices[place].wrapping_add(raise);
            }
        }
        Ok(())
    }
}
