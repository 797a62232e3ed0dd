//! How another crate calls these: an example of each call that a caller begins with, and what its
//! contract gives. The documentation of a call shows the lines of its example.
#![tactic(auto)]

mod checks;
mod costs;
mod problems;
mod reports;
mod solving;

pub use checks::{proves_best, proves_infeasible};
pub use costs::{cost_of_best, cost_of_dense, least_cost};
pub use problems::problem_of_pairs;
pub use reports::{confirmed, read_confirmed, write_proved};
pub use solving::{solve_alone, solve_by_workers, solve_costs, solve_in_threads, solve_problem};
