//! What the untrusted searches share: places, the work done and its pace, a heap of what was reached,
//! and the least entries of a list.
#![tactic(auto)]

mod arc_scans;
mod heap;
mod pace;
mod place;
mod selection;

pub use arc_scans::ArcScans;
pub use heap::{Heap, Reached};
pub use pace::Pace;
pub use place::{NOBODY, at, is_unowned, place_at, put};
pub use selection::{Valued, select};
