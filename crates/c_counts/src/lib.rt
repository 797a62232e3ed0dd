//! Problems with counts and groups that a caller in C lends: the lists are checked, the search is
//! called, what it finds is checked, and an answer is written into the buffers. A code says which answer.
#![tactic(auto)]

mod checking;
mod end;
mod fault;
mod flow;
mod info;
mod input;
mod judge;
mod most_pairs;
mod ones;
mod prepare;
mod search;
mod solving;
mod written;

pub use checking::{check_input, check_shortage_input};
pub use fault::Fault;
pub use info::CountsInfo;
pub use input::{Input, input_of};
pub use solving::solve;
