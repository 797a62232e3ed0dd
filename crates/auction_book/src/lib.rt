//! The book of an auction: owners, queue, claims and prices; and the run of any number of workers
//! over any list of events.
#![tactic(auto)]

mod answers;
mod book;
mod law;
mod schedule;
mod session;

pub use answers::{Accepted, Claim, Note, Refused, Submission};
pub use book::Book;
pub use law::{
    changes_follow, claimed_persons_own_nothing, floor_is_exact, fresh_bids_are_high,
    phase_is_bounded, submissions_follow,
};
pub use schedule::{
    Event, WorkerState, World, run_schedule, run_schedule_from, runs_are_fit, worlds_go_on,
};
pub use session::{begin_next_if_over, prepare, submit_offer};
