//! Blocks that a caller in C lends: the lists are judged, and what the block shows is written into the
//! buffers. A code says whether a pair is better.
#![tactic(auto)]

mod block;
mod doubles;

pub use block::{block_on, one_length};
pub use doubles::doubles_block_on;
