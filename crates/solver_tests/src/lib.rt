//! Tests of rounds of offers, of workers who share a book, and of shortest augmenting paths.
#![tactic(auto)]

#[cfg(test)]
mod by_paths;
#[cfg(test)]
mod by_rounds;
#[cfg(test)]
mod by_workers;
