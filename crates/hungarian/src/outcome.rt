// What decides a problem.
use cost_lists::{Object, Person, Price};

/// The object of each person, and the price of each object.
#[derive(Drop)]
pub struct Optimum {
    pub objects: Vec<Object>,
    pub prices: Vec<Price>,
}

/// Persons who list fewer objects than they are, with these objects; both lists rise.
#[derive(Drop)]
pub struct HallSet {
    pub persons: Vec<Person>,
    pub objects: Vec<Object>,
}

/// What decides a problem.
#[derive(Drop)]
pub enum Outcome {
    /// An assignment with exact prices, so an optimal one.
    Best(Optimum),
    /// No assignment exists.
    Hall(HallSet),
}
