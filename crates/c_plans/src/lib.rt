//! Questions about a plan that a caller in C lends: the lists are judged, the plan is checked, and the
//! proved answer is written into the buffers. A code says which answer.
#![tactic(auto)]

mod answer;
mod group_plan;
mod groups;
mod next;
mod next_plan;
mod ranked;
mod ranked_plans;
mod unique;

pub use group_plan::groups_on;
pub use next_plan::next_on;
pub use ranked_plans::{length_of_each, ranked_on};
pub use unique::unique_on;
