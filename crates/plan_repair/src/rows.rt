// All costs of persons and objects, which may be any numbers: nobody has judged them yet.
use assign_core::{Cost, Sense};

/// The costs, row by row, of persons and objects at places from 0.
#[derive(Clone, Copy)]
pub struct Rows<'a> {
    pub sense: Sense,
    pub objects: usize,
    pub costs: &'a [Cost],
}

// A cost to minimise.
pub fn turned(sense: Sense, cost: Cost) -> Cost {
    match sense {
        Sense::Min => cost,
        Sense::Max => cost.wrapping_neg(),
    }
}

impl<'a> Rows<'a> {
    // What a person lists; nothing for a place without a person.
    pub fn row(&self, person: u32) -> &'a [Cost] {
        let from = (person as usize).wrapping_mul(self.objects);
        let to = from.wrapping_add(self.objects);
        self.costs.get(from..to).unwrap_or(&[])
    }

    // A person's cost of an object, to minimise.
    pub fn cost(&self, person: u32, object: u32) -> Cost {
        let from = (person as usize).wrapping_mul(self.objects);
        let place = from.wrapping_add(object as usize);
        turned(self.sense, self.costs.get(place).copied().unwrap_or(0))
    }
}
