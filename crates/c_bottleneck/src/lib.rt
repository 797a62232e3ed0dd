//! A plan whose worst pair is as good as possible, of a problem that a caller in C lends: the lists are
//! judged, an untrusted search looks, and what it found is checked and written into the buffers.
#![tactic(auto)]

mod answer;
mod calls;

pub use calls::bottleneck_on;
