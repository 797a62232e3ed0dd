// Costs in doubles, row by row.
mod answer;
mod check;
mod codes;
mod costs;
mod info;
mod input;
mod judge;
mod law;
mod marks;
mod solve;

pub use check::check_input;
pub use codes::refuse;
pub use costs::judge_costs;
pub use info::DoublesInfo;
pub use input::{Input, input_of};
pub use law::marked_plans_stay_best;
pub use solve::{solve_from, solve_input};
