//! Plans and prices for costs that are doubles: an untrusted search over whole numbers of 64 bits,
//! made of the doubles. Squares of many persons, and rectangles whose paths take long, begin with
//! what the search of dense problems finds in fewer bits; points on a line are sorted. Squares of up
//! to 12 are tried in doubles first. Sums wrap, and a checker decides about what it finds.
#![tactic(auto)]

mod best;
mod bids;
mod block;
mod cheap;
mod cheap_paths;
mod dense;
mod hall;
mod lanes;
mod limits;
mod lists;
mod margin;
mod near;
mod order;
mod paths;
mod range;
mod reach;
mod rows;
mod scale;
mod small;
mod solver;
mod square;
mod square_plan;
mod square_prices;
mod start;
mod whole;

pub use hall::HallSet;
pub use range::margin_of;
pub use solver::{Ended, Problem, search, search_from};
