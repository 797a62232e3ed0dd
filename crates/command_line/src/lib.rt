//! The words of the command line: what the program accepts, and what it is asked for.
#![tactic(auto)]

mod words;

pub use words::{
    MOST_REFRESH, MOST_WORKERS, Method, Mode, SolveOpts, Words, WordsFault, command, read_words,
};
