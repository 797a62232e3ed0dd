//! Checks what is said about a plan whose worst pair is as good as possible: that no plan has a better
//! worst pair, since some persons are short of objects at better costs.
#![tactic(auto)]

mod assigned;
mod checker;
mod law;
mod short;
mod worst;

pub use checker::worst_shown;
pub use law::short_means_bottleneck;
