// Doubles as whole numbers of a unit that is a power of two, and so as costs of 128 bits.
mod check;
mod costs;
mod judge;
mod pairs;
mod parts;
mod solve;
mod unit;

pub use check::exact_verdict_on;
pub use solve::solve_exact;
