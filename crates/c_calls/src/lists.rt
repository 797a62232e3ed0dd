// Whole costs: row by row, or in listed pairs.
mod answer;
mod check;
mod codes;
mod costs;
mod form;
mod info;
mod input;
mod judging;
mod rule;
mod solve;
mod state;

pub use check::{hall_verdict_on, report_hall_verdict, report_verdict, verdict_on};
pub use codes::refuse;
pub use costs::lists_of;
pub use form::{Form, form_of};
pub use info::Info;
pub use input::{Input, either_input};
pub use judging::judge;
pub use rule::{UpTo, first_wrong};
pub use solve::{solve_from, solve_input};
