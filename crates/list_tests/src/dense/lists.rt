// The lists of a dense problem, and calls of a search over them.
use crate::sparse::judged::{judge, least_total};
use assign_core::Sense;
use dense_search::{DenseProblem, Outcome, Record, search};
use search_base::place_at;
use sparse_search::{Pair, SparseProblem};
use std::alloc::{AllocError, Global};

#[derive(Drop)]
pub struct Lists {
    pub sense: Sense,
    pub persons: usize,
    pub objects: usize,
    pub costs: Vec<i64>,
}

// The same problem as pairs of which the least costs are best.
#[derive(Drop)]
struct Pairs {
    starts: Vec<usize>,
    pairs: Vec<Pair>,
}

// What is found.
#[derive(Clone, Copy, Debug, PartialEq, Eq)]
pub enum Finding {
    // An exact answer of this total, negated under `Max`.
    Best(i64),
    Wrong,
    Stopped,
}

fn turned(sense: Sense, cost: i64) -> i64 {
    match sense {
        Sense::Min => cost,
        Sense::Max => cost.wrapping_neg(),
    }
}

impl Lists {
    pub fn problem(&self) -> DenseProblem<'_> {
        DenseProblem {
            sense: self.sense,
            persons: self.persons,
            objects: self.objects,
            costs: self.costs.as_slice(),
        }
    }

    fn pairs(&self, alloc: Global) -> Result<Pairs, AllocError> {
        let mut all = Pairs {
            starts: vec![in alloc; 0usize]?,
            pairs: Vec::new(alloc),
        };
        for row in self.costs.chunks(self.objects.max(1)) {
            for (k, cost) in row.iter().enumerate() {
                let cost = turned(self.sense, *cost);
                let object = place_at(k);
                all.pairs.push(Pair { object, cost })?;
            }
            all.starts.push(all.pairs.len())?;
        }
        Ok(all)
    }

    // The least total of all assignments.
    pub fn slow(&self, alloc: Global) -> Result<Finding, AllocError> {
        let all = self.pairs(alloc)?;
        let problem = SparseProblem {
            starts: all.starts.as_slice(),
            pairs: all.pairs.as_slice(),
            objects: self.objects,
        };
        Ok(match least_total(alloc, problem)? {
            Some(total) => Finding::Best(total),
            None => Finding::Wrong,
        })
    }

    // Whether prices and objects prove each other.
    fn judged(
        &self,
        alloc: Global,
        prices: &[i64],
        objects: &[u32],
    ) -> Result<Finding, AllocError> {
        let all = self.pairs(alloc)?;
        let problem = SparseProblem {
            starts: all.starts.as_slice(),
            pairs: all.pairs.as_slice(),
            objects: self.objects,
        };
        Ok(match judge(alloc, problem, prices, objects)? {
            Some(total) => Finding::Best(total),
            None => Finding::Wrong,
        })
    }

    // One call, judged.
    pub fn call(
        &self,
        alloc: Global,
        prices: &mut [i64],
        objects: &mut [u32],
        record: &mut Record,
        budget: u64,
    ) -> Result<Finding, AllocError> {
        match search(alloc, self.problem(), prices, objects, record, budget)? {
            Outcome::Best => self.judged(alloc, prices, objects),
            Outcome::Stopped => Ok(Finding::Stopped),
            Outcome::Lost => Ok(Finding::Wrong),
        }
    }
}
