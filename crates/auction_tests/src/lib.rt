//! Tests of problems and their prices, scaled values, offers, searches for Hall sets, checks of
//! answers, the log of prices and the book.
#![tactic(auto)]

#[cfg(test)]
mod bidding;
#[cfg(test)]
mod book;
#[cfg(test)]
mod checking;
#[cfg(test)]
mod problems;
#[cfg(test)]
mod refuting;
#[cfg(test)]
mod scaling;
