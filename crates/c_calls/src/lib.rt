//! What a caller in C lends: lists of costs, costs in doubles, and buffers. What is given is checked,
//! and a proved answer is written into the buffers. A code says which answer.
#![tactic(auto)]

mod buffers;
mod codes;
pub mod doubles;
mod fault;
pub mod lists;
mod size;

pub use buffers::put_hall;
pub use fault::Fault;
pub use size::{Shape, are_all, pairs_of, sense_by, size_by};
