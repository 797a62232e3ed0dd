//! Prices that only rise, with their versions.
#![tactic(auto)]

mod law;
mod log;
mod raise;

pub use law::{
    changes_are_versions, earlier_tables_are_below, earlier_tables_stay, log_limits, logs_continue,
};
pub use log::{MOST_KEPT, PriceLog};
pub use raise::Raise;
