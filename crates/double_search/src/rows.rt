// The costs of a person as whole numbers: those in a list, or new ones of its doubles.
use super::best::{Two, two_best, two_best_of};
use super::cheap::CheapPairs;
use super::lists::Matrix;
use super::scale::Scale;
use super::whole::to_whole;

#[derive(Drop)]
pub enum Rows<'a> {
    Listed(Matrix<'a>),
    Made(Doubles<'a>),
    Cheap(CheapRows<'a>),
}

// Costs in doubles, and room for those of a person.
#[derive(Drop)]
pub struct Doubles<'a> {
    pub costs: &'a [f64],
    pub row: &'a mut [i64],
    pub scale: Scale,
}

// Cheap pairs, with all pairs in doubles.
#[derive(Drop)]
pub struct CheapRows<'a> {
    pub cheap: &'a CheapPairs,
    pub doubles: Doubles<'a>,
}

impl<'a> Doubles<'a> {
    pub fn row_of(&mut self, person: usize) -> &[i64] {
        let m = self.row.len();
        let from = person.wrapping_mul(m);
        let costs = self.costs.get(from..from.wrapping_add(m)).unwrap_or(&[]);
        to_whole(costs, self.row, self.scale.form);
        self.row
    }

    pub fn cost(&self, person: usize, object: usize) -> i64 {
        let pair = person.wrapping_mul(self.row.len()).wrapping_add(object);
        let cost = self.costs.get(pair).copied().unwrap_or(0.0);
        self.scale.form.whole_of(cost)
    }
}

impl<'a> Rows<'a> {
    pub fn row(&mut self, person: usize) -> &[i64] {
        match self {
            Rows::Listed(matrix) => matrix.row(person),
            Rows::Made(doubles) => doubles.row_of(person),
            Rows::Cheap(rows) => rows.doubles.row_of(person),
        }
    }

    // The best object of a person, and the second best value.
    pub fn two_best(&mut self, person: usize, keys: &[i64]) -> Two {
        match self {
            Rows::Cheap(rows) => two_best_of(rows.cheap.of(person), rows.cheap.rest(person), keys),
            _ => two_best(self.row(person), keys),
        }
    }

    pub fn cost(&self, person: usize, object: usize) -> i64 {
        match self {
            Rows::Listed(matrix) => matrix.cost(person, object),
            Rows::Made(doubles) => doubles.cost(person, object),
            Rows::Cheap(rows) => rows.doubles.cost(person, object),
        }
    }
}
