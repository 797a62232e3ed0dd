//! Rounds of offers: a solver with the same answer for any number of threads.
#![tactic(auto)]

mod law;
mod offers;
mod rounds;
mod similar;

pub use law::{
    books_begin_at_rest, like_persons_share_an_offer, rounds_end_once, rounds_have_one_outcome,
};
pub use offers::{Alone, InPieces, LEAST_PAIRS, Offering, make_offers};
pub use rounds::{
    Round, Rounds, solve_rounds, solve_rounds_alone, solve_rounds_alone_from, solve_rounds_by,
    solve_rounds_from,
};
