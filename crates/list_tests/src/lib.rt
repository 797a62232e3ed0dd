//! Tests of what the calls for lists stand on: searches, checkers and solvers.
#![tactic(auto)]

#[cfg(test)]
mod counts;
#[cfg(test)]
mod dense;
#[cfg(test)]
mod doubles;
#[cfg(test)]
mod exact;
#[cfg(test)]
mod sparse;
