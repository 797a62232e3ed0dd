//! Rows, a plan and a tree that a caller in C lends, checked: no plan meets the rows, or the first
//! fault.
#![tactic(auto)]

mod answer;
mod info;
mod input;
mod laws;
mod lists;
mod plan;
mod rows;

pub use answer::{Answer, answer_on};
pub use info::{RowsInfo, report};
pub use input::Input;
pub use laws::none_is_cheaper;
