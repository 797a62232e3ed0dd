//! The book of an auction, shared by workers: it is in a place with room for one book, and each
//! worker takes it to its desk, changes it and puts it back.
#![tactic(auto)]

mod alone;
mod boxed;
mod gate;
mod pause;
mod place;
mod rule;
mod solving;
mod working;

pub use alone::go_alone;
pub use auction_book::Note;
pub use gate::{Gate, OpenGate, Standing, Turn, TurnFault};
pub use place::{BookPlace, Claimed, Desk, Held, ask_stop, close_place, leave, open_place, turn};
pub use solving::{Tally, solve_workers, solve_workers_from};
pub use working::take_turns;
