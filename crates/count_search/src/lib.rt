//! Best plans of counts: rows take columns, each from so many to so many. An untrusted search by an
//! auction with similar slots (Bertsekas and Castañon, Annals of Operations Research 20, 1989) and exact
//! repair by shortest paths. Sums wrap, and a checker decides about what it finds.
#![tactic(auto)]

mod answers;
mod arranged;
mod auction;
mod bids;
mod calls;
mod chosen;
mod cut;
mod edges;
mod groups;
mod layout;
mod numbers;
mod offers;
mod phases;
mod problem;
mod queue;
mod record;
mod refine;
mod repair;
mod resume;
mod runs;
mod shortage;
mod slots;
mod state;
mod tournament;
mod values;

pub use calls::{Answer, Found, search};
pub use problem::Problem;
pub use record::Record;
