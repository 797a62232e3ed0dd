//! Costs in doubles: the whole numbers that they are, the rows of persons that they make, and what
//! proves a plan for them best.
#![tactic(auto)]

mod faults;
mod law;

pub use faults::{first_fault, is_cost};
pub use law::{
    double_pairs, doubles_are_exact, exact_prices_mean_best, margins_keep_plans,
    margins_leave_one_plan, rounded_costs_keep_plans, rounded_sums_tell,
};
