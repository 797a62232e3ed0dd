//! The program's runs and lines: from words and streams to an end with its status.
#![tactic(auto)]

mod finding;
mod program;
mod progress;
mod progress_lines;
mod run;
mod verify;

pub use async_workers::OpenGate;
pub use finding::Finding;
pub use program::{
    Devices, Files, Named, NoFile, NoWords, Outputs, ProgramEnd, Written, run_program,
};
pub use progress::{News, Progress, Unwatched, Watch};
pub use progress_lines::{Console, ProgressLines};
pub use run::{
    CliFault, Context, Ended, Solver, end_status_of, run_solve, run_solve_by, run_solve_from,
    status_of,
};
pub use verify::{Verified, Verifier, run_verify, run_verify_under};
