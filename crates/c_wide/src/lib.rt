//! Problems with costs of 128 bits that a caller in C lends, and over doubles, by these costs: what is given is
//! checked, the search is called, what it finds is checked, and an answer is written into the buffers. A code
//! says which answer.
#![tactic(auto)]

mod answer;
mod check;
mod exact;
mod fewest;
mod input;
mod judge;
mod solve;

pub use check::wide_verdict_on;
pub use exact::{exact_verdict_on, solve_exact};
pub use fewest::{combined_means_fewest, fewest_on};
pub use input::{WideInput, wide_form_of};
pub use solve::solve_wide;
