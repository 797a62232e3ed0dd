//! Tests of the texts that are read and written, of the examples for other crates, and of the
//! program's words, runs and lines.
#![tactic(auto)]

#[cfg(test)]
mod command;
#[cfg(test)]
mod examples;
#[cfg(test)]
mod faults;
#[cfg(test)]
mod gates;
#[cfg(test)]
mod inputs;
#[cfg(test)]
mod methods;
#[cfg(test)]
mod modes;
#[cfg(test)]
mod progress;
#[cfg(test)]
mod reading;
#[cfg(test)]
mod reporting;
#[cfg(test)]
mod reports;
#[cfg(test)]
mod schedules;
#[cfg(test)]
mod starts;
#[cfg(test)]
mod texts;
#[cfg(test)]
mod verify;
#[cfg(test)]
mod verify_drawn;
#[cfg(test)]
mod watched;
