//! Checks blocks: some persons of a greater problem, or some of their pairs. Each block shows at given
//! prices and row numbers that none of its pairs is better; together they prove a plan best
//! (`cost_lists::blocks_mean_best`).
#![tactic(auto)]

mod better;
mod bounded;
mod closed;
mod least;
mod marks;
mod selecting;
mod selection;

pub use better::write_better;
pub use bounded::first_better;
pub use closed::bounds_show_closed;
pub use least::{Looked, look};
pub use marks::own_marks;
pub use selection::{Selected, Selection, room_for};
