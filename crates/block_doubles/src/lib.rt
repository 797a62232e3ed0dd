//! Blocks over doubles: rows of a greater problem. Each block shows at given prices and row numbers that
//! none of its pairs is better, in exact arithmetic; together they prove a plan best, as whole costs in
//! units of 2^-1074 (`cost_lists::blocks_mean_best`).
#![tactic(auto)]

mod better;
mod finite;
mod guessing;
mod least;
mod looking;
mod marks;
mod selecting;
mod writing;

pub use finite::first_infinite;
pub use looking::look;
pub use writing::write_better;
